use iocm_types::{At, Refused, Rule};

/// O1: a change is staged.
pub const STAGED: Refused = Refused {
    rule: Rule::O1,
    node: None,
    at: At::Nothing,
};

/// O2: nothing is staged.
pub const NOTHING_STAGED: Refused = Refused {
    rule: Rule::O2,
    node: None,
    at: At::Nothing,
};
