ghost use Rattle.std.specs.Prelude.{◌≡◌};
ghost use Rattle.iocm_sight.specs.Connected as meaning;

use iocm_types::{DevNo, Key, SetNo};

/// A device by its subchannel set and its number there.
#[derive(Clone, Copy, PartialEq, Eq)]
pub struct DeviceKey {
    /// The subchannel set.
    pub set: SetNo,
    /// The number, 0000 to FFFF.
    pub number: DevNo,
}

/// The device of a key, if it is that of one.
pub fn device_key(key: &Key) -> Option<DeviceKey>
    ensures { result ≡ meaning.device_key key.now }
{
    match key {
        Key::Device(set, number) => {
            let (set, number) = (*set, *number);
            Some(DeviceKey { set, number })
        }
        _ => None,
    }
}
