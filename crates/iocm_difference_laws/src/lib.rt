//! What the difference of two configurations means on the machine that is opened from the old one,
//! and that the loop of `diff`, `apply` and `write` closes: laws, and no code that runs.
//!
//! `specs/Meaning.antt` is the change. Each tree of Rows with the edits of the difference is
//! refused with C2 or V13, or it reaches the new configuration. So E1, E2, E4 and B1 never come,
//! and of the rules only V13 can. `specs/Room.antt` says when V13 doesn't come either, and
//! `specs/Examples.antt` has a change to which it comes. `specs/WayBack.antt` is the inverse tree
//! of the change, and `specs/Again.antt` says that its text is read as the difference.
//!
//! `specs/Loop.antt` is of the bytes that the commands print. Of the old deck and of what `diff`
//! prints, `apply --deck` prints what `write` prints of the new deck, or V13; `specs/LoopRoom.antt`
//! says when. `specs/Accepted.antt` says which bytes are a deck that `check` accepts, and
//! `specs/Online.antt` that the deck of its configuration says all of what is online.
//!
//! The functions here have empty bodies: their contracts are these laws. Begin with
//! `specs/Meaning.antt`. What names no source is our own.
#![tactic(auto)]

mod examples;
mod laws;
mod loop_laws;

pub use examples::a_device_keeps_its_number;
pub use laws::{
    the_difference_has_room, the_difference_means_the_new_configuration,
    the_inverse_is_the_other_difference, the_least_device_without_room_is_named,
    the_text_means_the_difference,
};
pub use loop_laws::{
    a_deck_says_all, accepted_decks_are_of_decks, room_closes_the_loop, the_loop_closes,
};
