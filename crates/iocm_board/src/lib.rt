//! The board: the one word that threads share beside the lock, the count of the calls that were
//! published, and the seats from which it is read.
//!
//! A seat has no bytes that matter: what it knows, its view, stands in proofs alone. The keeper's
//! seat, which lies under the lock, knows every call that was recorded; a caller's seat knows the
//! calls that were made from it, its receipts, and how many calls it has seen. The rule
//! (`specs/Rule.antt`) ties them to the word, and each step keeps it: opening (`Blank::new`),
//! `look`, `split` and `join`, the three of a call under the lock, `take_up`, `publish` and
//! `set_back`, and `compare`, with which a board is closed.
//!
//! What the layer above may rely on: the contracts of these steps. The hard one is that of
//! `compare`: the receipts of a whole seat are all entries since the board was made, each at its
//! number, once.
//!
//! Begin with `view.rt`, `specs/Views.antt` and `specs/Rule.antt`. What names no source is our own.
#![tactic(auto)]

mod blank;
mod board;
mod calling;
mod identity;
mod law;
mod seat;
mod view;

pub use blank::Blank;
pub use board::Board;
pub use identity::Identity;
pub use law::{BothViews, Compare, Law, Lend, Look, Publish, SetBack, TakeUp};
pub use seat::Seat;
pub use view::{Borne, Made, View};
