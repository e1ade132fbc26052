/// How an operand part goes on in a continuation.
#[derive(Clone, Copy)]
pub(crate) enum Going {
    /// Exactly at column 16: it ran through column 71, inside quotes or without a comma there.
    Exactly,
    /// At the first nonblank from column 16 on: it is empty, or ends in a comma outside quotes.
    AtNext,
    /// Not at all: the continuation is remark.
    Ended,
}
