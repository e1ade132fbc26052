/// What goes through the channel.
#[derive(Drop)]
pub enum Message<T> {
    /// A line of the operator of this number.
    Line(u8, T),
    /// The operator of this number has sent all its lines.
    End(u8),
}

/// What the worker takes.
#[derive(Drop)]
pub enum Item<T> {
    /// A line of the operator of this number; then its place among that operator's lines, from 0,
    /// and the line.
    Line(u8, usize, T),
    /// The operator of this number has sent all its lines, and they were taken.
    End(u8),
}
