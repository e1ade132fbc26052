use iocm_types::{List, Name, PathKind, Text, UnitNo};
use iocm_words::LinkedPath;

/// A field of a record: its name as it is told, and its value.
#[derive(Drop)]
pub struct Field {
    /// The keyword, or a word of our own as `online`.
    pub name: Text,
    /// The value.
    pub value: Value,
}

/// The values of fields.
#[derive(Drop)]
pub enum Value {
    /// A text as it is printed.
    Text(Text),
    /// How images use a path.
    Use(PathKind),
    /// Names of images.
    Names(List<Name>),
    /// The access list of a path, where other images are online.
    Access(List<Name>),
    /// The access list of a path, where it names just the images that are online.
    AccessOnline(List<Name>),
    /// The candidates of a device. Where the field isn't there, all images are.
    Candidates(List<Name>),
    /// The control units of a device.
    Units(List<UnitNo>),
    /// The paths of a control unit, with their links.
    Paths(List<LinkedPath>),
    /// The unit address of a device.
    Address(u8),
}
