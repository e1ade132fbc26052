//! What `apply` reports of a change: what it altered, who loses what, the deck afterwards, and how to
//! take it back.
//!
//! `count_altered` says how many subchannels a change altered. `altered_rows` lists them in order,
//! each with what was seen there before the change and what is seen there after it. `write_altered`
//! writes them as lines behind `-` and `+`, `write_counted` how many of each image are gone, came,
//! changed and are the same; both take any rows in order, so some may be left out between.
//! `deck_text` gives the canonical deck of a configuration, and in comments what the deck doesn't say
//! of online paths; `way_back` the change deck of the tree that takes a change back.
//!
//! What the layer above may rely on: each of them is exactly what `specs/` says, and the two that
//! write take no memory. Begin with `specs/Altered.antt` and `altered.rt`; then `specs/Lines.antt`,
//! `specs/Counts.antt`, `specs/Deck.antt` and `specs/WayBack.antt`, each with the file of its name.
//! What names no source is our own.
#![tactic(auto)]

mod altered;
mod back;
mod change;
mod counts;
mod deck;
mod laws;
mod lines;
mod memory;
mod remarks;

pub use altered::{altered_rows, count_altered};
pub use back::way_back;
pub use change::write_change;
pub use counts::write_counted;
pub use deck::deck_text;
pub use laws::{
    counts_sum_up, lines_are_as_worked, only_a_deck_says_all, remark_of_a_subchannel_is_as_worked,
    rows_lead_to_the_table,
};
pub use lines::write_altered;
