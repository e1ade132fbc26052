use crate::asked::Asked;
use iocm_core::Call;
use iocm_types::{Answer, Rule};

/// What a caller gets for a call that was made and recorded.
#[derive(Clone, Copy, PartialEq, Eq)]
pub struct Receipt {
    /// The call's place in the trace, from 0.
    pub number: u64,
    /// What was asked.
    pub asked: Asked,
    /// What was answered.
    pub answer: Answer,
}

/// A call that was not made, handed back.
#[derive(Drop)]
pub struct Back {
    /// Why: O3, the trace has no room for it; or X1, which comes before: what lies under the lock
    /// is not of this system.
    pub rule: Rule,
    /// The call.
    pub call: Call,
}
