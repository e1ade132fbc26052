use std::io::ErrorKind;
use std::process::ExitCode;

/// How a command ended that had all its texts.
#[derive(Drop)]
pub enum Ended {
    /// All is printed; this is the exit status.
    Printed(ExitCode),
    /// L6: a write failed in this way.
    Unwritten(Option<ErrorKind>),
}

impl Ended {
    /// The same with another exit status, if all is printed.
    pub fn with_code(self, code: ExitCode) -> Ended {
        match self {
            Ended::Printed(_) => Ended::Printed(code),
            Ended::Unwritten(kind) => Ended::Unwritten(kind),
        }
    }
}

/// Why a command has no answer: a text isn't there.
#[derive(Clone, Copy)]
pub enum Failure<'a> {
    /// M1: memory is missing for it.
    Memory,
    /// L5: the text of this name can't be read to its end.
    Unread(&'a str),
}
