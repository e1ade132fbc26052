//! The operands of each statement: what a value is under its keyword.
//!
//! A file for each operand or statement: `resource.rt`, `limits.rt`, `chpid_path.rt`,
//! `chpid_partition.rt`, `unit.rt` and `device.rt`. A reader takes the value of an operand and
//! answers what it writes; where it has none of the operand's forms it is malformed. The forms of
//! each stand in `specs/`, one line each, in the file of the same name.
//!
//! Begin with `specs/Unit.antt`, then `unit.rt`. Which operands a statement knows is said in
//! `iocm_keywords`.
#![tactic(auto)]

mod chpid_partition;
mod chpid_path;
mod device;
mod laws;
mod limits;
mod resource;
mod unit;

pub use chpid_partition::{Partition, ends_with_rec, has_list_form, partition_of};
pub use chpid_path::path_of;
pub use device::{Devices, candidates_of, devices_of, first_address, set_of, units_of};
pub use laws::{
    candidates_are_read_again, devices_are_read_again, images_are_read_again,
    limits_are_read_again, links_are_read_again, numbers_are_read_again, operands_are_written,
    partition_is_read_again, path_is_read_again, paths_are_read_again, ranges_are_read_again,
    units_are_read_again, what_is_read_can_be_written,
};
pub use limits::{LimitEntry, limits_of};
pub use resource::{ImageEntry, images_of, mif_of, names_in};
pub use unit::{all_addresses, cuadd_of, links_of, number_of, paths_of, ranges_of};
