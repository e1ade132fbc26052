ghost use Rattle.std.specs.Prelude.{◌≡◌, ◌∷◌, [], ◌++◌, IfSome, OnOk, Some};
ghost use Rattle.std.specs.List.{flat_map};
ghost use Rattle.iocm_types.specs.Print.{hex4};
ghost use Rattle.iocm_reports.specs.Remarks as meaning;

use crate::memory::Allocated;
use bitflags::Flags;
use iocm_lines::SubchannelName;
use iocm_live::{Live, bits};
use iocm_tree::Edit;
use iocm_types::{Place, SubId};
use std::alloc::{Allocator, Global};
use std::fmt;

/// A device as it is printed: set and number with a dot between.
#[derive(Clone, Copy)]
struct DeviceName(Place);

impl fmt::Display for DeviceName {
    ghost output = { λ d. Some (meaning.device_text d.0) };

    #[tactic(auto, unfolding(crate::specs::Remarks::device_text))]
    fn fmt<W: fmt::Write>(&self, f: &mut fmt::Formatter<W>) -> fmt::Result {
        let set = self.0.set;
        let number = self.0.device.number();
        write!(f, "{set}.{number:04X}")
    }
}

/// A subchannel number as it is printed.
#[derive(Clone, Copy)]
struct NumberName(u16);

impl fmt::Display for NumberName {
    ghost output = { λ n. Some (hex4 n.0) };

    fn fmt<W: fmt::Write>(&self, f: &mut fmt::Formatter<W>) -> fmt::Result {
        let number = self.0;
        write!(f, "{number:04X}")
    }
}

/// The subchannel number that a device had, as a comment.
#[derive(Clone, Copy)]
struct NumberRemark(Place, u16);

impl fmt::Display for NumberRemark {
    ghost output = { λ r. Some (meaning.number_remark (r.0, r.1)) };

    fn fmt<W: fmt::Write>(&self, f: &mut fmt::Formatter<W>) -> fmt::Result {
        let device = DeviceName(self.0);
        let number = NumberName(self.1);
        let css = self.0.css;
        write!(f, "* css {css} device {device} had number {number}")
    }
}

/// What a subchannel remembered, as a comment.
#[derive(Clone, Copy)]
struct LiveRemark((SubId, Live));

impl fmt::Display for LiveRemark {
    ghost output = { λ r. Some (meaning.live_remark r.0) };

    fn fmt<W: fmt::Write>(&self, f: &mut fmt::Formatter<W>) -> fmt::Result {
        let (subchannel, live) = self.0;
        let name = SubchannelName(subchannel);
        let lpm = live.lpm.bits();
        let ena = u8::from(live.enabled);
        let parm = live.parm.number();
        let bits = bits(&live).bits();
        write!(
            f,
            "* subchannel {name} had lpm {lpm:02X} ena {ena} parm {parm:08X} scsw {bits:X}"
        )
    }
}

/// Puts a line behind a text.
pub(crate) fn put_line<D: fmt::Display + Drop>(
    alloc: Global,
    shown: D,
    text: &mut Vec<u8>,
) -> Allocated<()>
    ensures { IfSome (D.output shown) (λ line. OnOk result (text.new.items ≡ text.old.items ++ (line ++ 10 ∷ []))) }
{
    let line = format!(in alloc; "{shown}\n")?;
    text.extend_from_slice(line.as_bytes())?;
    Ok(())
}

/// Puts a comment behind a text: the subchannel number that a device had.
#[tactic(auto, unfolding(crate::specs::Remarks::number_line))]
fn put_number(alloc: Global, row: (Place, u16), text: &mut Vec<u8>) -> Allocated<()>
    ensures { OnOk result (text.new.items ≡ text.old.items ++ meaning.number_line row) }
{
    put_line(alloc, NumberRemark(row.0, row.1), text)
}

/// Puts a comment behind a text: what a subchannel remembered.
#[tactic(auto, unfolding(crate::specs::Remarks::live_line))]
fn put_live(alloc: Global, row: (SubId, Live), text: &mut Vec<u8>) -> Allocated<()>
    ensures { OnOk result (text.new.items ≡ text.old.items ++ meaning.live_line row) }
{
    put_line(alloc, LiveRemark(row), text)
}

/// Puts a comment for each number behind a text.
fn put_numbers(alloc: Global, numbers: &[(Place, u16)], text: &mut Vec<u8>) -> Allocated<()>
    ensures { OnOk result (text.new.items ≡ text.old.items ++ flat_map meaning.number_line numbers.now) }
{
    for row in numbers {
        put_number(alloc, *row, text)?;
    }
    Ok(())
}

/// Puts a comment for each live record behind a text.
fn put_lives(alloc: Global, lives: &[(SubId, Live)], text: &mut Vec<u8>) -> Allocated<()>
    ensures { OnOk result (text.new.items ≡ text.old.items ++ flat_map meaning.live_line lives.now) }
{
    for row in lives {
        put_live(alloc, *row, text)?;
    }
    Ok(())
}

/// Puts behind a text, in comments, what comes along with an edit: its numbers, then its live
/// records in the order of subchannels.
pub fn put_remarks<A: Allocator>(alloc: Global, edit: &Edit<A>, text: &mut Vec<u8>) -> Allocated<()>
    ensures { OnOk result (text.new.items ≡ text.old.items ++ meaning.remarks_of edit.now.edit) }
{
    put_numbers(alloc, edit.places(), text)?;
    put_lives(alloc, edit.kept(), text)
}
