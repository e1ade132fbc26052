//! Lines of JSON, for programs that read what the program tells: one object in each line.
//!
//! There is a line for a subchannel and what its image sees there, for an altered subchannel, for a
//! change and what it altered of an image, for a deck that is accepted, for a refusal, for an answer to
//! a line of a script, and for the trace of a script. The members of an object are in the order of
//! their names. Lines of subchannels are put into a `JsonLine` with their end; the others are `Display`
//! without it.
//!
//! The layer above may rely on this: each line is exactly the text of its value, and each value is
//! read back from its text. No line takes memory. A row can be told by its line: no other row has the
//! same.
//!
//! Nothing here knows a configuration. Begin with `specs/Subchannel.antt` and `specs/Examples.antt`,
//! then `subchannel.rt` and `refused.rt`. What names no source is our own.
#![tactic(auto)]

mod accepted;
mod altered;
mod answer;
mod change;
mod form;
mod hexadecimal;
mod json_line;
mod laws;
mod names;
mod order_answer;
mod parts;
mod quoted;
mod refused;
mod subchannel;
mod titles;
mod trace;

pub use accepted::AcceptedLine;
pub use altered::put_altered;
pub use answer::AnswerLine;
pub use change::{AlteredCounts, ChangeLine, CountLine};
pub use form::Form;
pub use hexadecimal::{digit, digits};
pub use json_line::JsonLine;
pub use laws::{
    line_tells_the_row, lines_are_as_worked, lines_are_read_back, plain_values_are_read_back,
};
pub use names::{ImageName, SubchannelName};
pub use quoted::Quoted;
pub use refused::{Input, RefusedLine};
pub use subchannel::SubchannelLines;
pub use titles::title_of;
pub use trace::TraceLine;
