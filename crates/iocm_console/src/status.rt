ghost use Rattle.std.specs.Prelude.{◌≡◌};
ghost use Rattle.iocm_console.specs.Status.{code_of};

/// How a command ended that said all it had to say.
#[derive(Clone, Copy, PartialEq, Eq)]
pub enum Status {
    /// The command did what it was asked to do.
    Done = 0,
    /// The text was refused, and the refusal is written.
    Refused = 1,
}

impl Status {
    /// The exit status that stands for it: 0 or 1.
    pub fn code(self) -> u8
        ensures { result ≡ code_of self }
    {
        match self {
            Status::Done => 0,
            Status::Refused => 1,
        }
    }
}
