use iocm_types::{DevNo, SetNo};

/// A device as it is numbered at opening: its set and its number, and for each channel subsystem, 0
/// to 5, whether that reaches it. The word is own.
#[derive(Clone, Copy, Drop)]
pub struct DeviceReach {
    pub set: SetNo,
    pub number: DevNo,
    pub reached: [bool; 6],
}
