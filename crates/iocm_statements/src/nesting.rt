ghost use Rattle.std.specs.Prelude.{◌≡◌, ◌+◌, ◌^◌, ◌<◌, ◌≤◌, IfSome};
ghost use Rattle.iocm_statements.specs.Nesting as nesting;

/// Nesting: inside how many parentheses a byte of a text stands, and whether inside quotes.
#[derive(Clone, Copy)]
pub struct Nesting {
    /// Inside how many parentheses.
    pub depth: usize,
    /// Whether inside quotes.
    pub quoted: bool,
}

impl Nesting {
    /// The nesting at the beginning of a text.
    pub fn start() -> Self
        ensures { result ≡ nesting.start }
    {
        Nesting {
            depth: 0,
            quoted: false,
        }
    }

    /// Whether it is outside parentheses and quotes.
    #[tactic(auto, unfolding(crate::specs::Nesting::is_outside))]
    pub fn is_outside(self) -> bool
        ensures { result ≡ nesting.is_outside self }
    {
        !self.quoted && self.depth == 0
    }

    /// Whether `byte` is a comma that separates here.
    #[tactic(auto, unfolding(crate::specs::Nesting::cuts))]
    pub fn cuts(self, byte: u8) -> bool
        ensures { result ≡ nesting.cuts self byte }
    {
        byte == b',' && self.is_outside()
    }

    /// Whether `byte` is an equal sign that ends a keyword here.
    #[tactic(auto, unfolding(crate::specs::Nesting::sets))]
    pub fn sets(self, byte: u8) -> bool
        ensures { result ≡ nesting.sets self byte }
    {
        byte == b'=' && self.is_outside()
    }

    /// The nesting behind `byte`; `None` behind a parenthesis that closes nothing.
    #[tactic(auto, using(crate::proofs::Nestings::letters_step), unfolding(crate::specs::Nesting::step))]
    pub fn after(self, byte: u8) -> Option<Self>
        requires { self.depth + 1 < 2 ^ 64 }
        ensures next { result ≡ nesting.step self byte }
        ensures depth { IfSome result (λ next. next.depth ≤ self.depth + 1) }
    {
        if byte > b',' {
            return Some(self);
        }
        match byte {
            b'\'' => Some(Nesting {
                quoted: !self.quoted,
                ..self
            }),
            _ if self.quoted => Some(self),
            b'(' => Some(Nesting {
                depth: self.depth + 1,
                ..self
            }),
            b')' if self.depth == 0 => None,
            b')' => Some(Nesting {
                depth: self.depth - 1,
                ..self
            }),
            _ => Some(self),
        }
    }
}
