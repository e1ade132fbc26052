ghost use Rattle.std.specs.Prelude.{◌≡◌};
ghost use Rattle.std.specs.Option.{option_and_then};
ghost use Rattle.iocm_model.specs.Machine.Configuration.{lookup_of};
ghost use Rattle.iocm_model.specs.Machine.View as model;
ghost use Rattle.iocm_record.specs.Meaning.{device_of};

use crate::lookup::{find_device, find_image};
use crate::paths::paths_of_units;
use crate::reach::{ImageRecords, Reach};
use crate::sight::is_candidate;
use crate::units_view::{units_view, view_by};
use iocm_config::Config;
use iocm_numbers::Numbers;
use iocm_record::DeviceFields;
use iocm_types::{Css, DevNo, Image, Name, NumberCell, SetNo, SubId, View};
use std::alloc::Allocator;

/// What an image sees at a subchannel: its view, if the image and the device of the number are
/// there, and the image sees the device.
pub fn view_at<A: Allocator, B: Allocator>(
    config: &Config<A>,
    numbers: &Numbers<B>,
    subchannel: SubId,
) -> Option<View>
    ensures { result ≡ model.view_at config.now.records numbers.now.numbers subchannel }
{
    let (css, name) = find_image(config, subchannel.image)?;
    let cell = NumberCell {
        css: subchannel.image.css,
        set: subchannel.set,
        number: subchannel.number,
    };
    let device = numbers.device_at(cell)?;
    named_view(config, css, name, subchannel.set, device)
}

/// What an image of this name sees of the device of a number in a set, if it is there and seen.
pub fn image_view<A: Allocator>(
    config: &Config<A>,
    image: Image,
    name: Name,
    set: SetNo,
    device: DevNo,
) -> Option<View>
    ensures { result ≡ model.image_view (lookup_of config.now.records)
        (record { css = image.css; mif = image.mif; name = name }) set device }
{
    named_view(config, image.css, name, set, device)
}

/// What the image of a name in a channel subsystem sees of the device of a number in a set.
fn named_view<A: Allocator>(
    config: &Config<A>,
    css: Css,
    name: Name,
    set: SetNo,
    device: DevNo,
) -> Option<View>
    ensures { result ≡ option_and_then (model.view_if_seen (lookup_of config.now.records) css name)
        (model.device_record (lookup_of config.now.records) set device) }
{
    let fields = find_device(config, set, device)?;
    view_if_seen(&ImageRecords::new(config, css, name), fields)
}

/// The view of a device, if the image sees it.
fn view_if_seen<A: Allocator, R: Reach<A>>(reach: &R, device: &DeviceFields<A>) -> Option<View>
    ensures { result ≡ model.view_if_seen (lookup_of (R.records reach.now)) (R.subsystem reach.now)
        (R.called reach.now) (device_of device.now) }
{
    if !is_candidate(device.lists.candidates(), reach.name()) {
        return None;
    }
    let units = device.lists.units();
    let paths = paths_of_units(reach.config(), reach.css(), units);
    let by = units_view(reach, units, paths);
    view_by(reach, &by, device)
}
