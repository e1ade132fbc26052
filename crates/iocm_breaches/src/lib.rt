//! Every breach of the rules V1 to V14: by rule, then by the key of the record that breaks it.
//!
//! `iocm_rules` answers the first breach, which is enough to refuse a configuration. Whoever is to
//! mend one wants them all, and `all_breaches` lists them, by the numbers that devices have at
//! opening. A record that breaks several rules comes once for each.
//!
//! What the layer above may rely on: the list is exactly what the definition says, in its order. Its
//! first line is the first breach, and it is empty exactly where there is none (`laws.rt`).
//!
//! Each rule is a `Wanted` of `iocm_lookup`, and a walk over the records of its kind finds those that
//! break it. V10 and V14 ask an index who else is on a unit or a path, V13 asks the numbers; both
//! are made only where such a rule may be broken.
//!
//! Begin with `specs/Breaches.antt`, then `all.rt`, then `listed.rt`. What names no source is our own.
#![tactic(auto)]

mod addresses;
mod all;
mod examples;
mod laws;
mod listed;
mod sharing;
mod sought;

pub use all::all_breaches;
pub use examples::breaches_are_as_worked;
pub use laws::the_first_breach_comes_first;
