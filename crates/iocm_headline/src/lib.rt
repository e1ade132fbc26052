//! The headline, as one theorem over running code: what an accepted undo leaves of a core, and at
//! each place of a history, however many threads made its calls; and what threads may rely on.
//!
//! `close_and_tell` closes any core, and says of the machine that is left and of the whole history
//! what the laws of histories say of each part. `an_undo_in_a_legal_history` says the same of each
//! undo in the trace. Begin with `specs/Headline.antt`.
//!
//! Inverses take back what they are kept for: an edit that is performed and taken back at once
//! leaves the whole machine as it was (`specs/WayBack.antt`), and so does the inverse tree of each
//! kept change (`specs/KeptInverses.antt`). Whoever looks beside threads never sees a count fall, a
//! caller is of one system, and callers' names stay apart however often they are split and joined.
//! Nothing that runs calls these.
#![tactic(auto)]

mod closing;
mod edits;
mod in_a_history;
mod names_apart;
mod one_system;
mod trees;
mod watch;

pub use closing::close_and_tell;
pub use edits::{performed_edits_go_back_whole, unapplied_edits_go_back_whole};
pub use in_a_history::an_undo_in_a_legal_history;
pub use names_apart::{all_names_come_home, names_stay_apart};
pub use one_system::{a_caller_is_of_one_system, opened_apart};
pub use trees::{kept_inverses_take_back, told_inverses_take_back};
pub use watch::a_count_never_falls;
