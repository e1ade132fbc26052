/// In which form a command prints.
#[derive(Clone, Copy, PartialEq, Eq)]
pub enum Form {
    /// Plain text, for readers.
    Text,
    /// Lines of JSON, for programs.
    Json,
}
