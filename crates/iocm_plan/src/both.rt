ghost use Rattle.std.specs.Prelude.{◌≡◌, IfOk};
ghost use Rattle.iocm_plan.specs.RunEffects as images_in;
ghost use Rattle.iocm_plan.specs.Runs as meaning;

use iocm_config::Config;
use iocm_difference::Merge;
use iocm_filter::Filters;
use iocm_sight::{DeviceKey, device_key};
use iocm_types::{Image, Key};
use std::alloc::{AllocError, Global};

/// The devices of one of two configurations, or of both, that are in a range that filters ask for, in the order of
/// keys. The time is that of one walk over both.
///
/// `AllocError` (M1): memory ran out.
pub fn devices_asked(
    alloc: Global,
    filters: &Filters,
    old: &Config,
    new: &Config,
) -> Result<Vec<DeviceKey>, AllocError>
    ensures { IfOk result
        (λ devices. devices.items ≡ meaning.devices_asked filters.now old.now.records new.now.records) }
{
    let mut devices = Vec::new(alloc);
    let mut merge = Merge::new(old, new);
    while let Some(met) = merge.step() {
        if let Some(device) = device_key(met.key) {
            if filters.wants_number(device.set, device.number) {
                devices.push(device)?;
            }
        }
    }
    Ok(devices)
}

/// Every image of one of two configurations, or of both, in the order of keys. The time is that of one walk over both.
///
/// `AllocError` (M1): memory ran out.
pub fn images_of_both(alloc: Global, old: &Config, new: &Config) -> Result<Vec<Image>, AllocError>
    ensures { IfOk result (λ images. images.items ≡ images_in.images_of_both old.now.records new.now.records) }
{
    let mut images = Vec::new(alloc);
    let mut merge = Merge::new(old, new);
    while let Some(met) = merge.step() {
        if let Some(image) = image_key(met.key) {
            images.push(image)?;
        }
    }
    Ok(images)
}

/// The image of a key, if it is that of one.
fn image_key(key: &Key) -> Option<Image>
    ensures { result ≡ images_in.image_key key.now }
{
    match key {
        Key::Image(css, mif) => {
            let (css, mif) = (*css, *mif);
            Some(Image { css, mif })
        }
        _ => None,
    }
}
