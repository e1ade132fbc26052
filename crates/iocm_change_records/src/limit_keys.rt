ghost use Rattle.std.specs.Prelude.{◌≡◌};
ghost use Rattle.iocm_statements.specs.Unread.{Reads};
ghost use Rattle.iocm_values.specs.Value.{seen};
ghost use Rattle.iocm_change_records.specs.ResourceKeys as meaning;

use crate::image_keys::is_empty;
use iocm_statements::Unread;
use iocm_types::{Css, Key, SetNo};
use iocm_values::{CssItem, SetItem, Value, by_set};
use std::alloc::Global;

/// A place of MAXDEV in a DELETE: the first of a channel subsystem is that of subchannel set 0, and
/// so on.
#[derive(Clone, Copy)]
pub struct LimitSeat {
    /// The channel subsystem.
    pub css: Css,
    /// Nothing is written there.
    pub is_empty: bool,
}

fn limit_seat(css: Css, value: Value) -> Option<LimitSeat>
    ensures { result ≡ meaning.limit_seat css (seen value.entry) }
{
    Some(LimitSeat {
        css,
        is_empty: is_empty(value),
    })
}

impl CssItem for LimitSeat {
    ghost use Rattle.std.specs.Prelude.{true};
    ghost use Rattle.iocm_change_records.specs.declared.limit_keys.LimitSeat.{LimitSeat};
    ghost use Rattle.iocm_change_records.specs.ResourceKeys as meaning;

    ghost item = { meaning.limit_seat };

    ghost subsystem = { λ (p : LimitSeat). p.css };

    ghost may_lack = { true };

    fn read(_alloc: Global, css: Css, value: Value) -> Result<Self, Unread> {
        limit_seat(css, value).ok_or(Unread::Malformed)
    }

    fn css(&self) -> Css {
        self.css
    }

    fn may_lack_items() -> bool {
        true
    }
}

impl SetItem for LimitSeat {
    ghost use Rattle.iocm_change_records.specs.ResourceKeys as meaning;

    type Entry = Key;

    ghost in_set = { meaning.limit_key_in };

    fn in_set(self, set: SetNo) -> Option<Key> {
        if self.is_empty {
            return None;
        }
        Some(Key::Limit(self.css, set))
    }
}

/// The keys of MAXDEV of DELETE RESOURCE, a list by channel subsystem: one for each place, of the
/// subchannel sets 0 to 3 in their order, where something is written; what it says isn't looked at.
pub fn limit_keys(alloc: Global, value: Value) -> Result<Vec<Key>, Unread>
    ensures { Reads (λ v. v.items) result (meaning.limit_keys (seen value.entry)) }
{
    by_set::<LimitSeat>(alloc, value)
}
