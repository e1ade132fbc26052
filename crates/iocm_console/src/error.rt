use thiserror::Error;

/// A fault of the device that a deck is read from, or of the one that is written to. It is no
/// answer about the deck.
#[derive(Debug, Drop, Error)]
pub enum ConsoleError {
    /// A read failed, or the limit of reads came before the end.
    #[error("fault L5")]
    Read,
    /// A write failed.
    #[error("fault L6")]
    Write,
}

/// That a call wrote all that it had to write, or why it didn't.
pub type Written = Result<(), ConsoleError>;
