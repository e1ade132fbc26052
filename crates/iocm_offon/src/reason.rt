ghost use Rattle.std.specs.Prelude.{◌≡◌, ◌++◌, not, OnOk};
ghost use Rattle.std.specs.Option.{option_copied, option_eq, option_map};
ghost use Rattle.iocm_record.specs.Meaning.{unit_of};
ghost use Rattle.iocm_plan.specs.Routes.{unit_with};
ghost use Rattle.iocm_plan.specs.Sides.{side_of};
ghost use Rattle.iocm_offon.specs.Reasons as meaning;

use crate::route::{is_one_device, is_one_path_at, unit_with};
use iocm_difference::are_same_operands;
use iocm_impact::NamedImage;
use iocm_plan::{DeviceRun, Side};
use iocm_record::UnitFields;
use iocm_types::{CssPath, Key};
use iocm_unit_rules::is_on_one_link;
use std::alloc::AllocError;

/// Which paths of a device an object leads another way.
#[derive(Clone, Copy, PartialEq, Eq)]
pub enum Reach {
    /// Each of them.
    EachPath,
    /// This one.
    ThisPath,
    /// This one, which leads over another control unit than before.
    OverAnother,
}

/// A path from an image to a run of devices.
#[derive(Clone, Copy)]
pub struct Spot {
    /// The image, by its name after.
    pub image: NamedImage,
    /// The devices.
    pub run: DeviceRun,
    /// The path.
    pub path: CssPath,
}

/// Why a path may go off and on again, though no mask shows it.
#[derive(Clone, Copy)]
pub struct Reason {
    /// The key of the object that leads it another way. Of devices it is that of the first of the run.
    pub object: Key,
    /// Which paths it leads another way.
    pub reach: Reach,
    /// The path.
    pub spot: Spot,
}

/// Puts the reasons why a path has another route behind others: none if it has one route before and after.
///
/// `AllocError` (M1): memory ran out.
pub fn put_reasons_at(
    reasons: &mut Vec<Reason>,
    spot: &Spot,
    before: &Side<'_>,
    after: &Side<'_>,
) -> Result<(), AllocError>
    ensures { OnOk result (reasons.new.items
        ≡ reasons.old.items ++ meaning.reasons_at spot.now (side_of before.now) (side_of after.now)) }
{
    let path = spot.path.path;
    let (old, new) = (unit_with(before, path), unit_with(after, path));
    let is_moved = has_moved(before, after);
    put_image(reasons, spot, before, after)?;
    put_path(reasons, spot, before, after)?;
    put_unit(reasons, spot, is_moved, old, new)?;
    put_device(reasons, spot, before, after)?;
    Ok(())
}

/// Puts a reason behind others, if it is one.
fn put_if(
    reasons: &mut Vec<Reason>,
    is_so: bool,
    spot: &Spot,
    object: Key,
    reach: Reach,
) -> Result<(), AllocError>
    ensures { OnOk result (reasons.new.items ≡ reasons.old.items ++ meaning.reason_if is_so spot.now object reach) }
{
    if is_so {
        reasons.push(Reason {
            object,
            reach,
            spot: *spot,
        })?;
    }
    Ok(())
}

/// Puts the image behind other reasons, if it has another name.
fn put_image(
    reasons: &mut Vec<Reason>,
    spot: &Spot,
    before: &Side<'_>,
    after: &Side<'_>,
) -> Result<(), AllocError>
    ensures { OnOk result (reasons.new.items
        ≡ reasons.old.items ++ meaning.image_reasons spot.now (side_of before.now) (side_of after.now)) }
{
    let (css, mif) = (spot.image.image.css, spot.image.image.mif);
    let is_other = before.name != after.name;
    put_if(
        reasons,
        is_other,
        spot,
        Key::Image(css, mif),
        Reach::EachPath,
    )
}

/// Puts the path behind other reasons, if it is used in another way or has other operands.
fn put_path(
    reasons: &mut Vec<Reason>,
    spot: &Spot,
    before: &Side<'_>,
    after: &Side<'_>,
) -> Result<(), AllocError>
    ensures { OnOk result (reasons.new.items
        ≡ reasons.old.items ++ meaning.path_reasons spot.now (side_of before.now) (side_of after.now)) }
{
    let (css, path) = (spot.path.css, spot.path.path);
    let is_other = !is_one_path_at(before, after, path);
    put_if(
        reasons,
        is_other,
        spot,
        Key::Path(css, path),
        Reach::ThisPath,
    )
}

/// Puts the control unit behind other reasons, if it leads the path another way.
fn put_unit(
    reasons: &mut Vec<Reason>,
    spot: &Spot,
    is_moved: bool,
    old: Option<&UnitFields>,
    new: Option<&UnitFields>,
) -> Result<(), AllocError>
    ensures { OnOk result (reasons.new.items ≡ reasons.old.items ++ meaning.unit_reasons is_moved spot.now
        (option_map unit_of (option_copied old.entry)) (option_map unit_of (option_copied new.entry))) }
{
    match (old, new) {
        (Some(before), Some(after)) => {
            if before.number == after.number {
                put_kept(reasons, spot, before, after)
            } else {
                put_other(reasons, spot, is_moved, after)
            }
        }
        (None, Some(after)) => put_other(reasons, spot, is_moved, after),
        (Some(before), None) => put_other(reasons, spot, is_moved, before),
        (None, None) => Ok(()),
    }
}

/// Puts a control unit over which the path leads before and after behind other reasons, if it leads it another way.
fn put_kept(
    reasons: &mut Vec<Reason>,
    spot: &Spot,
    before: &UnitFields,
    after: &UnitFields,
) -> Result<(), AllocError>
    ensures { OnOk result (reasons.new.items
        ≡ reasons.old.items ++ meaning.kept_reasons spot.now (unit_of before.now) (unit_of after.now)) }
{
    let object = Key::Unit(after.number);
    if is_one_way(before, after) {
        let is_other = !is_on_one_link(&spot.path, before, after);
        put_if(reasons, is_other, spot, object, Reach::ThisPath)
    } else {
        put_if(reasons, true, spot, object, Reach::EachPath)
    }
}

/// Whether a control unit is reached in one way before and after, whatever the path.
fn is_one_way(before: &UnitFields, after: &UnitFields) -> bool
    ensures { result ≡ meaning.is_one_way (unit_of before.now) (unit_of after.now) }
{
    before.cuadd.unwrap_or(0) == after.cuadd.unwrap_or(0)
        && are_same_operands(&before.carried, &after.carried)
}

/// Puts another control unit than before behind other reasons, if those of the device are the same.
fn put_other(
    reasons: &mut Vec<Reason>,
    spot: &Spot,
    is_moved: bool,
    unit: &UnitFields,
) -> Result<(), AllocError>
    ensures { OnOk result (reasons.new.items
        ≡ reasons.old.items ++ meaning.other_reasons is_moved spot.now (unit_of unit.now)) }
{
    put_if(
        reasons,
        !is_moved,
        spot,
        Key::Unit(unit.number),
        Reach::OverAnother,
    )
}

/// Whether a device is on other control units.
fn has_moved(before: &Side<'_>, after: &Side<'_>) -> bool
    ensures { result ≡ meaning.has_moved (side_of before.now) (side_of after.now) }
{
    before.device.lists.units() != after.device.lists.units()
}

/// Puts the devices behind other reasons, if they lead the path another way.
fn put_device(
    reasons: &mut Vec<Reason>,
    spot: &Spot,
    before: &Side<'_>,
    after: &Side<'_>,
) -> Result<(), AllocError>
    ensures { OnOk result (reasons.new.items
        ≡ reasons.old.items ++ meaning.device_reasons spot.now (side_of before.now) (side_of after.now)) }
{
    let (set, number) = (spot.run.first.set, spot.run.first.number);
    let is_so = leads_elsewhere(spot, before, after);
    put_if(
        reasons,
        is_so,
        spot,
        Key::Device(set, number),
        Reach::EachPath,
    )
}

/// Whether devices lead a path another way.
fn leads_elsewhere(spot: &Spot, before: &Side<'_>, after: &Side<'_>) -> bool
    ensures { result ≡ meaning.leads_elsewhere spot.now (side_of before.now) (side_of after.now) }
{
    let path = spot.path.path;
    has_moved(before, after) && is_over_another(unit_with(before, path), unit_with(after, path))
        || !is_one_device(before.device, after.device)
}

/// Whether a path leads over another control unit.
fn is_over_another(old: Option<&UnitFields>, new: Option<&UnitFields>) -> bool
    ensures { result ≡ meaning.is_over_another (option_map unit_of (option_copied old.entry))
        (option_map unit_of (option_copied new.entry)) }
{
    match (old, new) {
        (Some(before), Some(after)) => before.number != after.number,
        (None, None) => false,
        _ => true,
    }
}
