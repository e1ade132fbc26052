use iocm_types::{Live, View};

/// What is kept at a subchannel that is there: what its image sees there, and its live record. The
/// word is own.
#[derive(Clone, Copy)]
pub struct Seat {
    /// What the image sees.
    pub view: View,
    /// What the subchannel remembers.
    pub live: Live,
}
