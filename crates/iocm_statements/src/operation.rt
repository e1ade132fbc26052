ghost use Rattle.std.specs.Prelude.{◌≡◌};
ghost use Rattle.iocm_statements.specs.Operation.{operation_name, operation_named};

/// What a statement does: the five of configuration decks, and those of change decks.
#[derive(Clone, Copy, PartialEq, Eq)]
pub enum Operation {
    Id,
    Resource,
    Chpid,
    Cntlunit,
    Iodevice,
    Online,
    Row,
    Group,
    Choose,
    End,
}

impl Operation {
    /// The operation of this name, in upper case, or `None`. (IOCP User's Guide, the statements'
    /// operations; ONLINE, ROW, GROUP, CHOOSE and END are own.)
    pub fn named(name: &[u8]) -> Option<Operation>
        ensures { result ≡ operation_named name.now }
    {
        match name {
            b"ID" => Some(Operation::Id),
            b"RESOURCE" => Some(Operation::Resource),
            b"CHPID" => Some(Operation::Chpid),
            b"CNTLUNIT" => Some(Operation::Cntlunit),
            b"IODEVICE" => Some(Operation::Iodevice),
            b"ONLINE" => Some(Operation::Online),
            b"ROW" => Some(Operation::Row),
            b"GROUP" => Some(Operation::Group),
            b"CHOOSE" => Some(Operation::Choose),
            b"END" => Some(Operation::End),
            _ => None,
        }
    }

    /// The name of the operation, in upper case.
    pub fn name(self) -> &'static [u8]
        ensures { result.now ≡ operation_name self }
    {
        match self {
            Operation::Id => b"ID",
            Operation::Resource => b"RESOURCE",
            Operation::Chpid => b"CHPID",
            Operation::Cntlunit => b"CNTLUNIT",
            Operation::Iodevice => b"IODEVICE",
            Operation::Online => b"ONLINE",
            Operation::Row => b"ROW",
            Operation::Group => b"GROUP",
            Operation::Choose => b"CHOOSE",
            Operation::End => b"END",
        }
    }
}
