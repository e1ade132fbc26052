use iocm_types::{SubId, View};

/// That a change alters a subchannel: what its image saw there, and what it sees there afterwards.
/// The word is own.
#[derive(Drop)]
pub struct ViewChange {
    /// The subchannel.
    pub subchannel: SubId,
    /// The view before the change, if there was one.
    pub before: Option<View>,
    /// The view after the change, if there is one.
    pub after: Option<View>,
}
