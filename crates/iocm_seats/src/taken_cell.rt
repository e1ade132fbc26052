ghost use Rattle.std.specs.Prelude.{◌≡◌};
ghost use Rattle.std.specs.Option.{option_copied, option_map};
ghost use Rattle.iocm_model.specs.Machine.Configuration.{lookup_of};
ghost use Rattle.iocm_record.specs.Meaning.{device_of};
ghost use Rattle.iocm_seats.specs.Taken.{taken, IsTaken};

use iocm_derive::DeviceWalk;
use iocm_record::DeviceFields;
use iocm_types::{DevNo, NumberCell};
use std::alloc::Allocator;
use std::marker::Model;

/// A number cell that is taken, with the device that has it. Contracts see the cell, the number of
/// the device, and its record. The word is own.
#[derive(Drop)]
pub(crate) struct TakenCell<'a, A: Allocator> {
    cell: NumberCell,
    device: DevNo,
    /// The device's fields, if it is there.
    fields: Option<&'a DeviceFields<A>>,
}

impl<'a, A: Allocator> Model for TakenCell<'a, A> {
    ghost use Rattle.std.specs.Prelude.{ℕ, Option, refl};
    ghost use Rattle.std.specs.Option.{option_copied, option_map};
    ghost use Rattle.std.specs.Coded.{code_by, coded×, codes};
    ghost use Rattle.iocm_types.specs.declared.place.NumberCell as place;
    ghost use Rattle.iocm_model.specs.Machine.Record.{DeviceRecord};
    ghost use Rattle.iocm_record.specs.Meaning.{device_of};
    ghost use Rattle.iocm_seats.specs.Taken.{Taken};

    ghost Value = { Taken };

    ghost coded = { code_by (place.NumberCell × (ℕ × Option DeviceRecord))
        (coded× (Prim.hlevel codes) (coded× (Prim.hlevel codes) (Prim.hlevel codes)))
        (λ t. (t.cell, (t.device, t.record_there)))
        (λ p. record { cell = p.0; device = p.1.0; record_there = p.1.1 }) (λ _. refl) };

    ghost view = { λ t. record {
      cell = t.cell;
      device = t.device;
      record_there = option_map device_of (option_copied t.fields);
    } };
}

impl<'a, A: Allocator> TakenCell<'a, A> {
    /// A number cell with the device that has it, which is looked up.
    pub(crate) fn find(devices: &mut DeviceWalk<'a, A>, cell: NumberCell, device: DevNo) -> Self
        ensures cell { taken result ≡ (cell, device) }
        ensures device { IsTaken (lookup_of devices.old) result }
        ensures same { devices.new ≡ devices.old }
    {
        let fields = devices.find(cell.set, device);
        TakenCell {
            cell,
            device,
            fields,
        }
    }

    /// The number cell.
    pub(crate) fn cell(&self) -> NumberCell
        ensures { result ≡ self.now.cell }
    {
        self.cell
    }

    /// The fields of the device, if it is there. The word is own.
    pub(crate) fn fields(&self) -> Option<&'a DeviceFields<A>>
        ensures { option_map device_of (option_copied result) ≡ self.now.record_there }
    {
        self.fields
    }
}
