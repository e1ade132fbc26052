ghost use Rattle.std.specs.Prelude.{◌≡◌, ◌++◌, OnOk};
ghost use Rattle.std.specs.Option.{option_copied};
ghost use Rattle.serde_json.specs.Written.{compact_text};
ghost use Rattle.iocm_record.specs.Meaning.{device_of};
ghost use Rattle.iocm_record_lines.specs.Lists.{list_of};
ghost use Rattle.iocm_record_lines.specs.Records.{candidates_value, device_value, number_value};

use crate::names::put_names;
use crate::operands::put_operands;
use crate::put::{Hex2, put, put_comma};
use iocm_record::DeviceFields;
use iocm_types::{DevNo, List, Name, SetNo, UnitNo};
use std::alloc::{AllocError, Allocator, Global};
use std::fmt;

/// Puts the record of a device.
pub(crate) fn put_device<A: Allocator>(
    alloc: Global,
    text: &mut Vec<u8>,
    device: &DeviceFields<A>,
) -> Result<(), AllocError>
    ensures { OnOk result (text.new.items ≡ text.old.items ++ compact_text (device_value (device_of device.now))) }
{
    put(alloc, UntilCandidates(device.unit_address), text)?;
    put_candidates(text, device.lists.candidates())?;
    put(alloc, UntilOperands(device.number), text)?;
    put_operands(text, device.lists.carried())?;
    put(alloc, UntilUnits(device.set), text)?;
    put_units(alloc, text, device.lists.units())?;
    text.push(b'}')?;
    Ok(())
}

/// The part of a device up to its candidates.
#[derive(Clone, Copy)]
struct UntilCandidates(u8);

impl fmt::Display for UntilCandidates {
    ghost use Rattle.std.specs.Prelude.{Some, codes};
    ghost use Rattle.iocm_types.specs.Print.{hex2};

    ghost output = { λ d. Some (codes "{\"address\":\"" ++ (hex2 d.0 ++ codes "\",\"candidates\":")) };

    fn fmt<W: fmt::Write>(&self, f: &mut fmt::Formatter<W>) -> fmt::Result {
        let address = Hex2(self.0);
        write!(f, "{{\"address\":\"{address}\",\"candidates\":")
    }
}

/// The part of a device from its candidates to its operands.
#[derive(Clone, Copy)]
struct UntilOperands(DevNo);

impl fmt::Display for UntilOperands {
    ghost use Rattle.std.specs.Prelude.{Some, codes};
    ghost use Rattle.iocm_types.specs.Print.{hex4};

    ghost output = { λ d. Some (codes ",\"device\":\"" ++ (hex4 d.0
        ++ codes "\",\"kind\":\"device\",\"operands\":")) };

    fn fmt<W: fmt::Write>(&self, f: &mut fmt::Formatter<W>) -> fmt::Result {
        let device = self.0;
        write!(
            f,
            ",\"device\":\"{device}\",\"kind\":\"device\",\"operands\":"
        )
    }
}

/// The part of a device from its operands to its control units.
#[derive(Clone, Copy)]
struct UntilUnits(SetNo);

impl fmt::Display for UntilUnits {
    ghost use Rattle.std.specs.Prelude.{Some, codes};
    ghost use Rattle.std.specs.Fmt.{decimal};

    ghost output = { λ d. Some (codes ",\"set\":" ++ (decimal d.0 ++ codes ",\"units\":")) };

    fn fmt<W: fmt::Write>(&self, f: &mut fmt::Formatter<W>) -> fmt::Result {
        let set = self.0.number();
        write!(f, ",\"set\":{set},\"units\":")
    }
}

/// Puts the images that may use a device, or null for all.
fn put_candidates<A: Allocator>(
    text: &mut Vec<u8>,
    names: Option<&List<Name, A>>,
) -> Result<(), AllocError>
    ensures { OnOk result (text.new.items ≡ text.old.items
        ++ compact_text (candidates_value (option_copied names.entry))) }
{
    match names {
        Some(names) => put_names(text, names.as_slice()),
        None => {
            text.extend_from_slice(b"null")?;
            Ok(())
        }
    }
}

/// Puts a list of numbers of control units. Answers the lack of memory alone.
pub fn put_units(alloc: Global, text: &mut Vec<u8>, units: &[UnitNo]) -> Result<(), AllocError>
    ensures { OnOk result (text.new.items ≡ text.old.items ++ compact_text (list_of number_value units.now)) }
{
    text.push(b'[')?;
    let mut later = false;
    for unit in units {
        put_comma(text, later)?;
        put(alloc, UnitText(*unit), text)?;
        later = true;
    }
    text.push(b']')?;
    Ok(())
}

/// The number of a control unit, as a text.
#[derive(Clone, Copy)]
pub struct UnitText(pub UnitNo);

impl fmt::Display for UnitText {
    ghost use Rattle.std.specs.Prelude.{Some};

    ghost output = { λ u. Some (compact_text (number_value u.0)) };

    fn fmt<W: fmt::Write>(&self, f: &mut fmt::Formatter<W>) -> fmt::Result {
        let unit = self.0;
        write!(f, "\"{unit}\"")
    }
}
