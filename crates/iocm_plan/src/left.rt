ghost use Rattle.std.specs.Prelude.{◌≡◌, ◌||◌, Some};
ghost use Rattle.std.specs.Option.{option_map};
ghost use Rattle.iocm_plan.specs.Left as meaning;
ghost use Rattle.iocm_plan.specs.Sides.{side_of};

use crate::effect::{Effect, effect_between, no_effect};
use crate::side::Side;
use iocm_filter::Filters;
use iocm_sight::{DeviceKey, wants_image, wants_units};

/// What filters leave of what a change does to an image and a device, each of which is there before and after, or
/// not; with `is_lost`, only if the device is lost. What isn't left counts nowhere.
pub fn left_between(
    filters: &Filters,
    is_lost: bool,
    device: &DeviceKey,
    before: &Option<Side<'_>>,
    after: &Option<Side<'_>>,
) -> Effect
    ensures { result ≡ meaning.left_between filters.now is_lost device.now (option_map side_of before.now)
        (option_map side_of after.now) }
{
    let effect = effect_between(before, after);
    if is_asked_of_both(filters, device, before, after) && is_told(is_lost, &effect) {
        effect
    } else {
        no_effect()
    }
}

/// Whether all is told, or an effect is that a device is lost.
fn is_told(is_lost: bool, effect: &Effect) -> bool
    ensures { result ≡ meaning.is_told is_lost effect.now.before effect.now.after }
{
    !is_lost || effect.is_lost()
}

/// Whether a device's number is asked for, and what an image sees of it before or after.
fn is_asked_of_both(
    filters: &Filters,
    device: &DeviceKey,
    before: &Option<Side<'_>>,
    after: &Option<Side<'_>>,
) -> bool
    ensures { result ≡ meaning.is_asked_of_both filters.now device.now (option_map side_of before.now)
        (option_map side_of after.now) }
{
    filters.wants_number(device.set, device.number)
        && (is_asked(filters, before) || is_asked(filters, after))
}

/// Whether filters ask for what an image sees of a device.
fn is_asked(filters: &Filters, side: &Option<Side<'_>>) -> bool
    ensures { result ≡ meaning.is_asked filters.now (option_map side_of side.now) }
{
    match side {
        Some(side) => is_view_asked(filters, side),
        None => false,
    }
}

/// Whether an image sees a device, and filters ask for the image, a control unit of the device, and the view.
fn is_view_asked(filters: &Filters, side: &Side<'_>) -> bool
    ensures { result ≡ meaning.is_asked filters.now (Some (side_of side.now)) }
{
    let Some(view) = &side.view else {
        return false;
    };
    wants_image(filters, side.image, side.name)
        && wants_units(filters, side.device.lists.units())
        && filters.wants_view(side.image.css, view)
}
