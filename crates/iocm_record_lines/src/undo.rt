ghost use Rattle.std.specs.Prelude.{◌≡◌, ◌++◌, OnOk};
ghost use Rattle.serde_json.specs.Written.{compact_text};
ghost use Rattle.iocm_lines.specs.Lines as lines;
ghost use Rattle.iocm_record_lines.specs.Lists.{list_of};
ghost use Rattle.iocm_record_lines.specs.Undo as meaning;

use crate::edits::{edit_end, put_any_record};
use crate::lines::put_key;
use crate::put::{Hex4, put, put_comma};
use bitflags::Flags;
use iocm_lines::SubchannelName;
use iocm_live::bits;
use iocm_tree::Edit;
use iocm_types::{Live, Place, SubId};
use std::alloc::{AllocError, Allocator, Global};
use std::fmt;

/// Puts the line of an edit that takes a change back: what is under its key after it, and what comes
/// along, the subchannel numbers that devices had and what subchannels remembered. Answers the lack of
/// memory alone.
pub fn put_undo_line<A: Allocator>(
    alloc: Global,
    text: &mut Vec<u8>,
    edit: &Edit<A>,
) -> Result<(), AllocError>
    ensures { OnOk result (text.new.items ≡ text.old.items ++ lines.line (meaning.undo_value edit.now.edit)) }
{
    text.extend_from_slice(b"{\"after\":")?;
    put_any_record(alloc, text, edit.after())?;
    text.extend_from_slice(b",\"key\":")?;
    put_key(alloc, text, &edit.key())?;
    text.extend_from_slice(b",\"numbers\":")?;
    put_numbers(alloc, text, edit.places())?;
    text.extend_from_slice(b",\"states\":")?;
    put_states(alloc, text, edit.kept())?;
    text.extend_from_slice(edit_end(edit.verb()))?;
    Ok(())
}

/// Puts a list of places with their subchannel numbers.
fn put_numbers(alloc: Global, text: &mut Vec<u8>, places: &[(Place, u16)]) -> Result<(), AllocError>
    ensures { OnOk result (text.new.items ≡ text.old.items ++ compact_text (list_of meaning.place_value places.now)) }
{
    text.push(b'[')?;
    let mut later = false;
    for row in places {
        put_comma(text, later)?;
        put(alloc, PlaceObject(row.0, row.1), text)?;
        later = true;
    }
    text.push(b']')?;
    Ok(())
}

/// A place with its subchannel number.
#[derive(Clone, Copy)]
struct PlaceObject(Place, u16);

impl fmt::Display for PlaceObject {
    ghost use Rattle.std.specs.Prelude.{Some};

    ghost output = { λ p. Some (compact_text (meaning.place_value (p.0, p.1))) };

    fn fmt<W: fmt::Write>(&self, f: &mut fmt::Formatter<W>) -> fmt::Result {
        let css = self.0.css.number();
        let device = self.0.device;
        let number = Hex4(self.1);
        let set = self.0.set.number();
        write!(
            f,
            "{{\"css\":{css},\"device\":\"{device}\",\"number\":\"{number}\",\"set\":{set}}}"
        )
    }
}

/// Puts a list of what subchannels remembered.
fn put_states(alloc: Global, text: &mut Vec<u8>, kept: &[(SubId, Live)]) -> Result<(), AllocError>
    ensures { OnOk result (text.new.items ≡ text.old.items ++ compact_text (list_of meaning.state_value kept.now)) }
{
    text.push(b'[')?;
    let mut later = false;
    for row in kept {
        put_comma(text, later)?;
        put(alloc, StateObject(row.0, row.1), text)?;
        later = true;
    }
    text.push(b']')?;
    Ok(())
}

/// What a subchannel remembered.
#[derive(Clone, Copy)]
struct StateObject(SubId, Live);

impl fmt::Display for StateObject {
    ghost use Rattle.std.specs.Prelude.{Some};

    ghost output = { λ s. Some (compact_text (meaning.state_value (s.0, s.1))) };

    fn fmt<W: fmt::Write>(&self, f: &mut fmt::Formatter<W>) -> fmt::Result {
        let enabled = self.1.enabled;
        let lpm = self.1.lpm;
        let parm = ParmText(self.1.parm.number());
        let phase = PhaseText(self.1);
        let subchannel = SubchannelName(self.0);
        write!(
            f,
            "{{\"enabled\":{enabled},\"lpm\":\"{lpm}\",\"parm\":\"{parm}\",\"scsw\":\"{phase}\",\
             \"subchannel\":\"{subchannel}\"}}"
        )
    }
}

/// An interruption parameter, eight hexadecimal digits.
#[derive(Clone, Copy)]
struct ParmText(u32);

impl fmt::Display for ParmText {
    ghost use Rattle.std.specs.Prelude.{Some};
    ghost use Rattle.iocm_lines.specs.Members.{hex8};

    ghost output = { λ p. Some (hex8 p.0) };

    fn fmt<W: fmt::Write>(&self, f: &mut fmt::Formatter<W>) -> fmt::Result {
        let parm = self.0;
        write!(f, "{parm:08X}")
    }
}

/// The status bits of what a subchannel remembered, one hexadecimal digit.
#[derive(Clone, Copy)]
struct PhaseText(Live);

impl fmt::Display for PhaseText {
    ghost use Rattle.std.specs.Prelude.{Some};
    ghost use Rattle.iocm_types.specs.Print.{hex1};
    ghost use Rattle.iocm_model.specs.Operation.Orders.{bits_of};

    ghost output = { λ l. Some (hex1 (bits_of l.0.phase).0) };

    fn fmt<W: fmt::Write>(&self, f: &mut fmt::Formatter<W>) -> fmt::Result {
        let bits = bits(&self.0).bits();
        write!(f, "{bits:X}")
    }
}
