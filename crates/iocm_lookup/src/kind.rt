ghost use Rattle.std.specs.Prelude.{◌≡◌, ◌==◌, nat_lt};
ghost use Rattle.iocm_lookup.specs.Kinds as kinds;
ghost use Rattle.iocm_lookup.specs.Kinds.{IsBeforeKind, IsBehindEarlier};

use iocm_types::{Chpid, Css, DevNo, Key, SetNo, UnitNo};

/// The kinds of records that are looked for, in the order of keys.
#[derive(Clone, Copy, PartialEq, Eq)]
pub enum RecordKind {
    /// Image records.
    Image,
    /// Path records.
    Path,
    /// Unit records.
    Unit,
    /// Device records.
    Device,
    /// Online records.
    Online,
}

impl RecordKind {
    /// A key that none of this kind stands before, and none of an earlier kind behind that a
    /// machine can have.
    pub(crate) fn first(self) -> Key
        ensures first { IsBeforeKind result (kinds.place_of self) }
        ensures near { IsBehindEarlier result (kinds.place_of self) }
    {
        match self {
            RecordKind::Image => Key::Resource,
            RecordKind::Path => Key::Path(Css::FIRST, Chpid::new(0)),
            RecordKind::Unit => first_unit(),
            RecordKind::Device => Key::Device(SetNo::FIRST, DevNo::new(0)),
            RecordKind::Online => last_device(),
        }
    }

    /// Whether a key stands behind all of this kind.
    pub(crate) fn is_past(self, key: &Key) -> bool
        ensures { result ≡ nat_lt (kinds.place_of self) (kinds.kind_of key.now) }
    {
        self.place() < place_of_key(key)
    }

    /// Whether a key is one of this kind.
    pub(crate) fn is_of(self, key: &Key) -> bool
        ensures { result ≡ (kinds.kind_of key.now == kinds.place_of self) }
    {
        place_of_key(key) == self.place()
    }

    /// The place of the kind in the order of keys, counted from 0.
    fn place(self) -> u8
        ensures { result ≡ kinds.place_of self }
    {
        match self {
            RecordKind::Image => 2,
            RecordKind::Path => 4,
            RecordKind::Unit => 5,
            RecordKind::Device => 6,
            RecordKind::Online => 7,
        }
    }
}

fn first_unit() -> Key
    ensures first { IsBeforeKind result 5 }
    ensures near { IsBehindEarlier result 5 }
{
    match UnitNo::new(0) {
        Some(unit) => Key::Unit(unit),
        None => unreachable!(),
    }
}

// No device has a greater key.
fn last_device() -> Key
    ensures first { IsBeforeKind result 7 }
    ensures near { IsBehindEarlier result 7 }
{
    match SetNo::new(3) {
        Some(set) => Key::Device(set, DevNo::new(0xFFFF)),
        None => unreachable!(),
    }
}

/// The place of a key's kind in the order of keys, counted from 0.
fn place_of_key(key: &Key) -> u8
    ensures { result ≡ kinds.kind_of key.now }
{
    match key {
        Key::Id => 0,
        Key::Resource => 1,
        Key::Image(_, _) => 2,
        Key::Limit(_, _) => 3,
        Key::Path(_, _) => 4,
        Key::Unit(_) => 5,
        Key::Device(_, _) => 6,
        Key::Online(_, _, _) => 7,
    }
}
