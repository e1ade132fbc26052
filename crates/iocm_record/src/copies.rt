ghost use Rattle.std.specs.Prelude.{◌≡◌, IfOk};
ghost use Rattle.iocm_record.specs.Meaning.{path_of, unit_of, device_of};

use crate::carried::copy_carried;
use crate::{DeviceFields, PathFields, UnitFields};
use std::alloc::{AllocError, Allocator};

/// The same path under another allocator. Answers the lack of memory alone.
pub fn copy_path<A: Allocator, B: Allocator + Clone>(
    path: &PathFields<A>,
    alloc: B,
) -> Result<PathFields<B>, AllocError>
    ensures { IfOk result (λ copy. path_of copy ≡ path_of path.now) }
{
    Ok(PathFields {
        css: path.css,
        number: path.number,
        kind: path.kind,
        access: path.access.copy_in(alloc.clone()?)?,
        candidates: path.candidates.copy_in(alloc.clone()?)?,
        carried: copy_carried(&path.carried, alloc)?,
    })
}

/// The same control unit under another allocator. Answers the lack of memory alone.
pub fn copy_unit<A: Allocator, B: Allocator + Clone>(
    unit: &UnitFields<A>,
    alloc: B,
) -> Result<UnitFields<B>, AllocError>
    ensures { IfOk result (λ copy. unit_of copy ≡ unit_of unit.now) }
{
    Ok(UnitFields {
        number: unit.number,
        paths: unit.paths.copy_in(alloc.clone()?)?,
        ranges: unit.ranges.copy_in(alloc.clone()?)?,
        links: unit.links.copy_in(alloc.clone()?)?,
        cuadd: unit.cuadd,
        carried: copy_carried(&unit.carried, alloc)?,
    })
}

/// The same device under another allocator. Answers the lack of memory alone.
pub fn copy_device<A: Allocator, B: Allocator + Clone>(
    device: &DeviceFields<A>,
    alloc: B,
) -> Result<DeviceFields<B>, AllocError>
    ensures { IfOk result (λ copy. device_of copy ≡ device_of device.now) }
{
    Ok(DeviceFields {
        set: device.set,
        number: device.number,
        unit_address: device.unit_address,
        lists: device.lists.copy_in(alloc)?,
    })
}
