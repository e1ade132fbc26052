use crate::Call;
use iocm_activate::Effect;
use iocm_config::Config;
use iocm_types::Answer;

/// A call with its answer.
pub struct Entry {
    /// What was asked.
    pub call: Call,
    /// What was answered.
    pub answer: Answer,
}

/// Written by hand, so that how its parts are let go is proved here alone, and not in each crate
/// that lets an entry go.
impl Drop for Entry {
    fn drop(self) {
        let Entry { call, answer: _ } = self;
        drop(call);
    }
}

/// What was asked of a machine, and answered, in order.
#[derive(Drop)]
pub struct Trace {
    /// The configuration with which the machine was opened.
    pub opening: Config,
    /// Every call that was recorded, refused ones too.
    pub entries: Vec<Entry>,
    /// What each accepted change wrote, in the order of their numbers, which count from 1.
    pub changes: Vec<Effect>,
}
