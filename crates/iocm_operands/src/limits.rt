ghost use Rattle.std.specs.Prelude.{◌≡◌};
ghost use Rattle.iocm_statements.specs.Unread.{Reads};
ghost use Rattle.iocm_operands.specs.Limits as meaning;
ghost use Rattle.iocm_values.specs.Value.{seen};

use iocm_statements::Unread;
use iocm_types::{Css, SetNo};
use iocm_values::{CssItem, SetItem, Value, by_set, decimal};
use std::alloc::Global;
use std::marker::Model;

/// Below which number the subchannels of a set stay in a channel subsystem. Contracts see the
/// model's record.
#[derive(Clone, Copy)]
pub struct LimitEntry {
    /// The channel subsystem.
    pub css: Css,
    /// The subchannel set.
    pub set: SetNo,
    /// The limit.
    pub limit: u16,
}

impl Model for LimitEntry {
    ghost use Rattle.iocm_model.specs.Machine.Record.{LimitRecord};

    ghost Value = { LimitRecord };

    ghost view = { λ l. record { css = l.css; set = l.set; limit = l.limit } };

    ghost inverse = { λ r. record { css = r.css; set = r.set; limit = r.limit } };
}

/// A place of MAXDEV: a limit in a channel subsystem, if one is written there.
#[derive(Clone, Copy)]
pub struct LimitPlace {
    /// The channel subsystem.
    pub css: Css,
    /// The limit, 0 to 65535.
    pub limit: Option<u16>,
}

// A limit, or an empty place.
fn limit_of(text: &[u8]) -> Option<Option<u16>>
    ensures { result ≡ meaning.limit_of text.now }
{
    if text.is_empty() {
        return Some(None);
    }
    let limit = decimal(65535, text)?;
    Some(Some(limit as u16))
}

fn limit_item(css: Css, value: Value) -> Option<LimitPlace>
    ensures { result ≡ meaning.limit_item css (seen value.entry) }
{
    let limit = limit_of(value.word()?)?;
    Some(LimitPlace { css, limit })
}

impl CssItem for LimitPlace {
    ghost use Rattle.std.specs.Prelude.{true};
    ghost use Rattle.iocm_operands.specs.declared.limits.LimitPlace.{LimitPlace};
    ghost use Rattle.iocm_operands.specs.Limits as meaning;

    ghost item = { meaning.limit_item };

    ghost subsystem = { λ (p : LimitPlace). p.css };

    ghost may_lack = { true };

    fn read(_alloc: Global, css: Css, value: Value) -> Result<Self, Unread> {
        limit_item(css, value).ok_or(Unread::Malformed)
    }

    fn css(&self) -> Css {
        self.css
    }

    fn may_lack_items() -> bool {
        true
    }
}

impl SetItem for LimitPlace {
    ghost use Rattle.iocm_operands.specs.Limits as meaning;

    type Entry = LimitEntry;

    ghost in_set = { meaning.limit_in_set };

    fn in_set(self, set: SetNo) -> Option<LimitEntry> {
        let css = self.css;
        self.limit.map(|limit| LimitEntry { css, set, limit })
    }
}

/// The limits of MAXDEV, a list by channel subsystem: decimal numbers for the subchannel sets 0 to
/// 3 in their order, 0 to 65535, with empty or absent places for sets without one.
pub fn limits_of(alloc: Global, value: Value) -> Result<Vec<LimitEntry>, Unread>
    ensures { Reads (λ v. v.items) result (meaning.limits_of (seen value.entry)) }
{
    by_set::<LimitPlace>(alloc, value)
}
