//! The fourteen rules that a configuration in use keeps, V1 to V14: the first that is broken.
//!
//! `check` answers the first breach, by rule and then by key, as the model's definitions have it,
//! in time about in proportion to the records: it takes no memory, and compares nobody with
//! everybody. Which records name a thing it asks an `Index` of the configuration.
//! `check_at_opening` answers it for the numbers at opening. It needs neither a table of these nor an
//! index, and makes one only where a rule may be broken that can't be told without it.
//!
//! `check_near` answers the same where since the rules held only devices and online records were
//! changed, and looks at the keys of these alone and at what shares a unit or a path with them.
//! That edits leave it so `near_edits_keep_the_rest` says.
//!
//! V1 to V4, the rules of names and of online records, stand here, those of control units in
//! `iocm_unit_rules`, those of devices in `iocm_device_rules`. Most are a `Wanted` of
//! `iocm_lookup`: of which kind the records are that break the rule, and whether a record does.
//! Begin with `first_breach.rt`, then `names.rt`, then `near.rt`. What names no source is our own.
#![tactic(auto)]

mod breach;
mod first_breach;
mod found;
mod image_names;
mod laws;
mod names;
mod near;
mod online;
mod online_among;

pub use breach::Breach;
pub use first_breach::{check, check_at_opening};
pub use image_names::NameTwice;
pub use laws::near_edits_keep_the_rest;
pub use names::{NameOfNoImage, TooManyNames};
pub use near::check_near;
pub use online::WrongOnline;
