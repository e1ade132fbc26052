//! Scripts: who says what, line by line, to a machine that is run.
//!
//! A script has the lines of a deck. In a `Line` an actor says something: two threads of images
//! give orders and tell what devices do, two threads of operators change the machine. A line `sync`
//! ends a round. `Script` has the rounds, and each has its lines in the order of the text.
//! `read_script` reads one from its bytes.
//!
//! The layer above may rely on this: the answer is exactly the script that the definition
//! `script_in` finds in the bytes, or their first fault. No round has more lines of operators than
//! their queue has room for. An image never says what an operator does, nor the other way round.
//! Only lack of memory may come instead.
//!
//! Begin with `specs/Verbs.antt`, the table of commands, and `specs/Commands.antt`; then
//! `specs/Lines.antt` and `specs/Scripts.antt`. What names no source is our own.
#![tactic(auto)]

mod commands;
mod laws;
mod line;
mod lines;
mod operands;
mod reading;
mod said;
mod script;
mod verb;
mod words;

pub use laws::{
    commands_are_read, lines_are_refused, rounds_keep_all_lines, scripts_are_read,
    what_is_written_is_read_again,
};
pub use line::Line;
pub use reading::read_script;
pub use said::{ImageCommand, ImageThread, OperatorCommand, OperatorThread, Said};
pub use script::Script;
