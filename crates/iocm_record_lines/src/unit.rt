ghost use Rattle.std.specs.Prelude.{◌≡◌, ◌++◌, OnOk};
ghost use Rattle.serde_json.specs.Written.{compact_text};
ghost use Rattle.iocm_record.specs.Meaning.{unit_of};
ghost use Rattle.iocm_record_lines.specs.Lists.{list_of};
ghost use Rattle.iocm_record_lines.specs.Records.{range_value, unit_value};

use crate::operands::put_operands;
use crate::paths::put_unit_paths;
use crate::put::{Hex2, put, put_comma};
use iocm_record::UnitFields;
use iocm_types::{UnitNo, UnitRange};
use std::alloc::{AllocError, Allocator, Global};
use std::fmt;

/// Puts the record of a control unit.
pub(crate) fn put_unit<A: Allocator>(
    alloc: Global,
    text: &mut Vec<u8>,
    unit: &UnitFields<A>,
) -> Result<(), AllocError>
    ensures { OnOk result (text.new.items ≡ text.old.items ++ compact_text (unit_value (unit_of unit.now))) }
{
    put(alloc, UntilOperands(unit.cuadd), text)?;
    put_operands(text, unit.carried.as_slice())?;
    text.extend_from_slice(b",\"paths\":")?;
    put_unit_paths(alloc, text, unit)?;
    put(alloc, UntilRanges(unit.number), text)?;
    put_ranges(alloc, text, unit.ranges.as_slice())?;
    text.push(b'}')?;
    Ok(())
}

/// The part of a control unit up to its operands, with its control unit address, if it has one.
#[derive(Clone, Copy)]
struct UntilOperands(Option<u8>);

impl fmt::Display for UntilOperands {
    ghost use Rattle.std.specs.Prelude.{Some, codes};
    ghost use Rattle.iocm_record_lines.specs.Records.{cuadd_value};

    ghost output = { λ u. Some (codes "{\"cuadd\":" ++ (compact_text (cuadd_value u.0)
        ++ codes ",\"kind\":\"unit\",\"operands\":")) };

    #[tactic(auto, unfolding(json::specs::Print::escape_byte))]
    fn fmt<W: fmt::Write>(&self, f: &mut fmt::Formatter<W>) -> fmt::Result {
        match self.0 {
            Some(cuadd) => {
                let cuadd = Hex2(cuadd);
                write!(f, "{{\"cuadd\":\"{cuadd}\",\"kind\":\"unit\",\"operands\":")
            }
            None => f.write_str("{\"cuadd\":null,\"kind\":\"unit\",\"operands\":"),
        }
    }
}

/// The part of a control unit from its paths to its ranges of unit addresses.
#[derive(Clone, Copy)]
struct UntilRanges(UnitNo);

impl fmt::Display for UntilRanges {
    ghost use Rattle.std.specs.Prelude.{Some, codes};
    ghost use Rattle.iocm_types.specs.Print.{hex4};

    ghost output = { λ u. Some (codes ",\"unit\":\"" ++ (hex4 u.0 ++ codes "\",\"unitadd\":")) };

    fn fmt<W: fmt::Write>(&self, f: &mut fmt::Formatter<W>) -> fmt::Result {
        let unit = self.0;
        write!(f, ",\"unit\":\"{unit}\",\"unitadd\":")
    }
}

/// Puts a list of ranges of unit addresses. Answers the lack of memory alone.
pub fn put_ranges(alloc: Global, text: &mut Vec<u8>, ranges: &[UnitRange]) -> Result<(), AllocError>
    ensures { OnOk result (text.new.items ≡ text.old.items ++ compact_text (list_of range_value ranges.now)) }
{
    text.push(b'[')?;
    let mut later = false;
    for range in ranges {
        put_comma(text, later)?;
        put(alloc, RangeObject(*range), text)?;
        later = true;
    }
    text.push(b']')?;
    Ok(())
}

/// A range of unit addresses.
#[derive(Clone, Copy)]
struct RangeObject(UnitRange);

impl fmt::Display for RangeObject {
    ghost use Rattle.std.specs.Prelude.{Some};

    ghost output = { λ r. Some (compact_text (range_value r.0)) };

    fn fmt<W: fmt::Write>(&self, f: &mut fmt::Formatter<W>) -> fmt::Result {
        let count = self.0.count;
        let first = Hex2(self.0.start);
        write!(f, "{{\"count\":{count},\"first\":\"{first}\"}}")
    }
}
