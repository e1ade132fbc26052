//! The rules of devices: their units (V8), their unit addresses on these (V9, V10), their path
//! lists (V11), their candidates (V12) and their subchannel numbers (V13).
//!
//! V8, V9, V11 and V12 are `Wanted`s, which `first_wanted` of `iocm_lookup` looks for among the
//! device records. `first_wrong_devices` does so for V8, V11 and V12 at once, by one walk where none
//! of them is broken. V9 is a `WantedByNamed` too, for a walk that keeps the unit that was found last.
//! `first_address_twice` (V10) and `first_past_limit` (V13) answer the first device that breaks their
//! rule themselves: the one goes unit by unit, the other over the numbers first, so that no device is
//! compared with all others. What each answers is exactly what the model's predicate says, and none
//! of these takes memory.
//!
//! At opening there are no index and no numbers yet. `first_address_twice_at_opening` lists the
//! addresses of devices on their units, and `first_past_limit_at_opening` counts the devices of each
//! set, where there are more records than a limit. Only where that leaves it open whether a rule is
//! broken is an index made, or the numbers.
//!
//! Where only records at some keys can break a rule, since only these were changed,
//! `first_wrong_among` and `first_address_twice_among` answer the same, and look at these keys
//! alone.
//!
//! Begin with `devices.rt`, then `addresses.rt`, then `among.rt`. What names no source is our own.
#![tactic(auto)]

mod addresses;
mod addresses_at_opening;
mod alike;
mod among;
mod devices;
mod held;
mod joined;
mod limits;
mod limits_at_opening;
mod set_counts;
mod wrong_among;
mod wrong_devices;

pub use addresses::first_address_twice;
pub use addresses_at_opening::first_address_twice_at_opening;
pub use among::first_address_twice_among;
pub use devices::{CandidateOfNoImage, WrongUnits};
pub use held::AddressNotHeld;
pub use joined::WrongPathList;
pub use limits::{NumberPastLimit, first_past_limit};
pub use limits_at_opening::first_past_limit_at_opening;
pub use wrong_among::{WrongAmong, first_wrong_among};
pub use wrong_devices::{WrongDevices, first_wrong_devices};
