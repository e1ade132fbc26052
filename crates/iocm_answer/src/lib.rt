//! What each command gives, and the one printer.
//!
//! A command is a function from the bytes of its texts to an `Answer`, or to the `Refusal` that says
//! why there is none: `open_deck` of `iocm_console` or `open_machine` opens the first deck; then
//! `check`, `show`, `list`, `write`, `diff`, `plan`, `vary`, `apply` and `run` go on. `begin` and
//! `finish` do this for a command, whichever it is. `print` writes what they give, and is all that
//! writes to standard output. `carry_out` is a whole command, from readers to a writer.
//!
//! The program above may rely on this: what is printed of an answer is exactly what the definition of
//! the command says of the bytes, and only lack of memory (M1) may come instead, before the first
//! byte is written.
//!
//! Begin with `specs/Answer.antt`, `specs/Commands.antt`, `answering.rt` and `printing.rt`. Then each
//! command has a file in `specs/Commands` and one here (`checking.rt`, ..); `change.rt` says in which
//! heaps a change deck is read. What names no source is our own.
#![tactic(auto)]

mod altered;
mod answer;
mod answer_text;
mod answering;
mod applying;
mod asked;
mod census;
mod change;
mod checking;
mod copying;
mod differing;
mod examples;
mod laws;
mod listing;
mod manner;
mod planning;
mod printing;
mod running;
mod showing;
mod sifting;
mod single;
mod varying;
mod whole;
mod writing;

pub use altered::Altered;
pub use answer::{Answer, Difference, Ran};
pub use answering::{Begun, begin, finish};
pub use applying::{apply, open_machine};
pub use asked::Asked;
pub use census::Census;
pub use change::{Unread, read_change};
pub use checking::{check, check_all};
pub use differing::diff;
pub use examples::{
    answers_to_images_are_as_worked, answers_to_operators_are_as_worked, refusals_are_as_worked,
};
pub use laws::{
    all_breaches_begin_with_the_first, altered_rows_are_asked_for_as_worked,
    what_is_written_is_read_again,
};
pub use listing::list;
pub use manner::Manner;
pub use planning::{plan, plan_change};
pub use printing::print;
pub use running::run;
pub use showing::show;
pub use varying::vary;
pub use whole::carry_out;
pub use writing::write;
