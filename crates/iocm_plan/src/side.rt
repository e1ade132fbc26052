ghost use Rattle.std.specs.Prelude.{◌≡◌};
ghost use Rattle.iocm_model.specs.Machine.Configuration.{lookup_of};
ghost use Rattle.iocm_model.specs.Machine.View.{view_if_seen};
ghost use Rattle.iocm_record.specs.Meaning.{device_of};

use iocm_config::Config;
use iocm_record::DeviceFields;
use iocm_types::{Image, Name, View};

/// An image and a device that a configuration has, with what the image sees of the device.
#[derive(Clone, Copy)]
pub struct Side<'a> {
    pub config: &'a Config,
    pub image: Image,
    pub name: Name,
    pub device: &'a DeviceFields,
    pub view: Option<View>,
    ghost is_seen: { view ≡ view_if_seen (lookup_of config.now.records) image.css name (device_of device.now) },
}
