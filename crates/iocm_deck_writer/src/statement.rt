ghost use Rattle.std.specs.Prelude.{◌≡◌};

use iocm_record::Carried;
use iocm_statements::Operation;
use std::marker::Model;

/// A statement of the canonical deck. Contracts see its operation and the list of its operands.
#[derive(Drop)]
pub struct CanonicalStatement {
    operation: Operation,
    operands: Vec<Carried>,
}

impl Model for CanonicalStatement {
    ghost use Rattle.iocm_deck_writer.specs.Statement.{Statement};

    ghost Value = { Statement };

    ghost view = { λ s. record { operation = s.operation; operands = s.operands.items } };
}

impl CanonicalStatement {
    /// The statement with these operands.
    pub fn new(operation: Operation, operands: Vec<Carried>) -> Self
        ensures { result ≡ record { operation = operation; operands = operands.items } }
    {
        CanonicalStatement {
            operation,
            operands,
        }
    }

    /// What the statement describes.
    pub fn operation(&self) -> Operation
        ensures { result ≡ self.now.operation }
    {
        self.operation
    }

    /// Its operands in the order in which they are written.
    pub fn operands(&self) -> &[Carried]
        ensures { result.now ≡ self.now.operands }
    {
        self.operands.as_slice()
    }
}
