ghost use Rattle.std.specs.Prelude.{◌≡◌, ◌≤◌, ◌<◌, ◌⊎◌, [], Bool, None, length, true, not};
ghost use Rattle.std.specs.Prelude.{IfErr, IfOk, OnOk, if◌then◌else◌};
ghost use Rattle.std.specs.Ordering.{is_eq, is_lt};
ghost use Rattle.iocm_types.specs.Fault.{memory};
ghost use Rattle.iocm_types.specs.Key.{key_cmp};
ghost use Rattle.iocm_types.specs.declared.key.Key as keys;
ghost use Rattle.iocm_record_reader.specs.Deck.{AreRefusedBehind, GoBehind};
ghost use Rattle.iocm_record_reader.specs.Progress.{has_claimed, place_of, Claims};
ghost use Rattle.iocm_record_reader.specs.Progress.{IsAfter, IsComing, IsKept, IsNoted, IsOpened, WasNoted};

use iocm_record::Record;
use iocm_types::{Fault, Key};
use std::alloc::{AllocError, Global};
use std::collections::BTreeSet;

/// The keys that the records of a deck have so far. Most decks have the records of each kind in the
/// order of their keys. As long as they come so, the key of the last one of a kind tells for all of
/// them which are new, and no set of keys is made.
#[derive(Drop)]
pub struct Claimed {
    /// The keys of all records, once one came out of order.
    keys: BTreeSet<Key>,
    /// The key of the last record of each kind, while all come in order.
    lasts: Option<[Option<Key>; 8]>,
}

impl Claimed {
    /// The keys of no records. Can't run out of memory.
    pub fn new(alloc: Global) -> Self
        ensures { IsKept result [] }
    {
        Claimed {
            keys: BTreeSet::new(alloc),
            lasts: Some([None; 8]),
        }
    }

    /// Claims the keys of the records from a place on. Those before it have claimed theirs.
    ///
    /// Answers `fault` at a key that is there already, and M1 without memory.
    pub fn claim_from(&mut self, records: &[Record], from: usize, fault: Fault) -> Result<(), Fault>
        requires { from ≤ length records.now }
        ensures claimed { OnOk result (GoBehind fault self.old records.now from self.new) }
        ensures refused { IfErr result (λ e. (e ≡ memory)
            ⊎ ((e ≡ fault) × AreRefusedBehind fault self.old records.now from)) }
    {
        for at in from..records.len() {
            let (earlier, rest) = records.split_at(at);
            let is_new = self.claim(earlier, rest[0].key())?;
            if !is_new {
                return Err(fault);
            }
        }
        Ok(())
    }

    // Claims the key of a record after these, and answers whether it is new.
    fn claim(&mut self, earlier: &[Record], key: Key) -> Result<bool, AllocError>
        ensures { IfOk result (λ is_new. Claims self.old earlier.now key is_new self.new) }
    {
        match self.coming(&key) {
            Coming::InSet => self.put(key),
            Coming::Past => {
                self.note(key);
                Ok(true)
            }
            Coming::OutOfOrder => {
                self.put_all(earlier)?;
                self.put(key)
            }
        }
    }

    // How a key comes after those that are claimed.
    fn coming(&self, key: &Key) -> Coming
        ensures { IsComing self.now.lasts key.now result }
    {
        let Some(lasts) = &self.lasts else {
            return Coming::InSet;
        };
        if is_after(&lasts[place_of(key)], key) {
            Coming::Past
        } else {
            Coming::OutOfOrder
        }
    }

    // Notes a key as the last of its kind.
    fn note(&mut self, key: Key)
        ensures keys { self.new.keys ≡ self.old.keys }
        ensures lasts { WasNoted self.old.lasts key self.new.lasts }
    {
        if let Some(lasts) = &mut self.lasts {
            note_last(lasts, key);
        }
    }

    // Puts a key into the set, and answers whether it is new there.
    fn put(&mut self, key: Key) -> Result<bool, AllocError>
        ensures added { IfOk result (λ added. added ≡ not (has_claimed self.old.keys key)) }
        ensures keys { OnOk result ((q : keys.Key)
            → has_claimed self.new.keys q
            ≡ (if is_eq (key_cmp key q) then Bool.true else has_claimed self.old.keys q)) }
        ensures lasts { self.new.lasts ≡ self.old.lasts }
    {
        Ok(self.keys.insert(key)?)
    }

    // Puts the keys of all records into the set, which then tells of each.
    fn put_all(&mut self, earlier: &[Record]) -> Result<(), AllocError>
        ensures { OnOk result (IsOpened self.old earlier.now self.new) }
    {
        for entry in earlier {
            self.put(entry.key())?;
        }
        self.lasts = None;
        Ok(())
    }
}

/// How a key comes after those that are claimed.
#[derive(Clone, Copy)]
enum Coming {
    /// The set tells whether it is new.
    InSet,
    /// It is greater than that of the last record of its kind, so it is new.
    Past,
    /// It is the first that comes out of order.
    OutOfOrder,
}

// The place of a key's kind in the order of keys, counted from 0.
fn place_of(key: &Key) -> usize
    ensures place { result ≡ place_of key.now }
    ensures within { result < 8 }
{
    match key {
        Key::Id => 0,
        Key::Resource => 1,
        Key::Image(_, _) => 2,
        Key::Limit(_, _) => 3,
        Key::Path(_, _) => 4,
        Key::Unit(_) => 5,
        Key::Device(_, _) => 6,
        Key::Online(_, _, _) => 7,
    }
}

fn is_after(last: &Option<Key>, key: &Key) -> bool
    ensures { result ≡ true → IsAfter last.now key.now }
{
    match last {
        Some(last) => is_before(last, key),
        None => true,
    }
}

fn is_before(one: &Key, other: &Key) -> bool
    ensures { result ≡ is_lt (key_cmp one.now other.now) }
{
    one.cmp(other).is_lt()
}

fn note_last(lasts: &mut [Option<Key>; 8], key: Key)
    ensures { IsNoted lasts.old key lasts.new }
{
    lasts[place_of(&key)] = Some(key);
}
