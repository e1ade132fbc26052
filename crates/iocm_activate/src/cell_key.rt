use iocm_types::{Key, NumberCell, SubId, TableKey};

/// What a cell that a change writes is under: the key of a record, a number cell, or a subchannel.
/// Its number says which bit it sets in the signature of its effect.
pub trait CellKey: TableKey {
    ghost use Rattle.std.specs.Prelude.{◌≡◌, ℕ};

    ghost number: { Self → ℕ };

    /// The number by which most of its kind differ.
    fn number(&self) -> u16
        ensures { result ≡ number self.now };
}

impl CellKey for Key {
    ghost use Rattle.iocm_activate.specs.Signature.{number_in};

    ghost number = { number_in };

    /// The last number of the key, and the channel path of what is said to be online; 0 where it has
    /// none.
    fn number(&self) -> u16 {
        match self {
            Key::Id | Key::Resource => 0,
            Key::Image(_, mif) => u16::from(mif.number()),
            Key::Limit(_, set) => u16::from(set.number()),
            Key::Path(_, path) | Key::Online(_, path, _) => u16::from(path.number()),
            Key::Unit(unit) => unit.number(),
            Key::Device(_, device) => device.number(),
        }
    }
}

impl CellKey for NumberCell {
    ghost number = { λ c. c.number };

    /// The subchannel number; a device mostly has the same in all channel subsystems.
    fn number(&self) -> u16 {
        self.number
    }
}

impl CellKey for SubId {
    ghost number = { λ s. s.number };

    /// The subchannel number; a device's subchannels mostly have the same.
    fn number(&self) -> u16 {
        self.number
    }
}
