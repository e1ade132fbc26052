ghost use Rattle.std.specs.Prelude.{◌≡◌};
ghost use Rattle.iocm_types.specs.Fault.{Gives};
ghost use Rattle.iocm_model.specs.Machine.Configuration.{HasNoKeyTwice};
ghost use Rattle.iocm_record_reader.specs.Deck as deck;
ghost use Rattle.iocm_record_reader.specs.Deck.{with_statement, nothing_read};

use crate::claimed::Claimed;
use iocm_record::Record;
use iocm_statements::Operation;
use iocm_types::Fault;
use std::alloc::Global;
use std::marker::Model;

/// Whether a statement is ID.
pub fn is_id(operation: Operation) -> bool
    ensures { result ≡ deck.is_id operation }
{
    match operation {
        Operation::Id => true,
        _ => false,
    }
}

/// Whether a statement is RESOURCE.
pub fn is_resource(operation: Operation) -> bool
    ensures { result ≡ deck.is_resource operation }
{
    match operation {
        Operation::Resource => true,
        _ => false,
    }
}

/// What was read of a deck so far: whether there was an ID and a RESOURCE statement, and the
/// records, no two of one key.
#[derive(Drop)]
pub struct Progress {
    has_id: bool,
    has_resource: bool,
    records: Vec<Record>,
    claimed: Claimed,
}

impl Model for Progress {
    ghost use Rattle.iocm_record_reader.specs.Progress as words;

    ghost Value = { words.Progress };

    ghost view = { λ p. record { has_id = p.has_id; has_resource = p.has_resource; records = p.records.items } };

    ghost invariant = { λ p. words.IsKept p.claimed p.records.items };
}

impl Progress {
    /// Nothing was read yet.
    pub fn new(alloc: Global) -> Self
        ensures { result ≡ nothing_read }
    {
        Progress {
            has_id: false,
            has_resource: false,
            records: Vec::new(alloc),
            claimed: Claimed::new(alloc),
        }
    }

    /// Whether there was an ID statement.
    pub fn has_id(&self) -> bool
        ensures { result ≡ self.now.has_id }
    {
        self.has_id
    }

    /// Whether there was a RESOURCE statement.
    pub fn has_resource(&self) -> bool
        ensures { result ≡ self.now.has_resource }
    {
        self.has_resource
    }

    /// The records of a further statement behind the others, and whether it is an ID or a RESOURCE
    /// statement.
    ///
    /// Answers `fault` at a key that is there already, and M1 without memory.
    pub fn with(
        self,
        found: Vec<Record>,
        operation: Operation,
        fault: Fault,
    ) -> Result<Progress, Fault>
        ensures { Gives (λ p. p) result (with_statement fault self operation found.items) }
    {
        let Progress {
            has_id,
            has_resource,
            mut records,
            mut claimed,
        } = self;
        let from = records.len();
        let mut found = found;
        records.append(&mut found)?;
        claimed.claim_from(&records, from, fault)?;
        Ok(Progress {
            has_id: has_id || is_id(operation),
            has_resource: has_resource || is_resource(operation),
            records,
            claimed,
        })
    }

    /// The records, no two of one key.
    pub fn into_records(self) -> Vec<Record>
        ensures records { result.items ≡ self.records }
        ensures apart { HasNoKeyTwice self.records }
    {
        let Progress {
            has_id: _,
            has_resource: _,
            records,
            claimed: _,
        } = self;
        records
    }
}
