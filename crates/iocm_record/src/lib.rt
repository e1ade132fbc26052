//! A record of a configuration: an image, a limit, a channel path, a control unit, a device, what
//! is online, and what ID and RESOURCE carry.
//!
//! A `Record` has one of eight kinds of fields inside; contracts see it as the model's plain
//! record, whatever its allocator. It is small: what most devices don't have, and the fields of paths
//! and of control units, are in memory of their own. `key` is what it stands under, `names` what it names, `copy_in`
//! gives an equal record under another allocator. How records are read from a deck is the matter of
//! `iocm_record_reader`; a machine in operation stands on this crate alone. Begin with `record.rt`,
//! then `specs/Meaning.antt`.
#![tactic(auto)]

mod carried;
mod copies;
mod lists;
mod names;
mod record;

pub use carried::Carried;
pub use copies::copy_device;
pub use lists::DeviceLists;
pub use record::{DeviceFields, PathFields, Record, RecordBody, UnitFields};
