ghost use Rattle.std.specs.Prelude.{◌≡◌};
ghost use Rattle.iocm_lines.specs.Titles as meaning;

use iocm_types::Rule;

/// What is wrong, in a few words. Programs may compare these texts, so they stay as they are when pages
/// are reworded.
pub fn title_of(rule: Rule) -> &'static str
    ensures { result.now ≡ meaning.title_of rule }
{
    match rule {
        Rule::L1 => "a byte that is no printable character",
        Rule::L2 => "a line of more than 80 bytes",
        Rule::L3 => "a continuation that doesn't begin in column 16",
        Rule::L4 => "a continuation that isn't there",
        Rule::L5 => "a file can't be read",
        Rule::L6 => "the output can't be written",
        Rule::S1 => "an operation that isn't known here",
        Rule::S2 => "a keyword twice",
        Rule::S3 => "a required operand is missing",
        Rule::S4 => "a value that is malformed",
        Rule::S5 => "a form that this product leaves out",
        Rule::S6 => "parentheses or quotes that don't match",
        Rule::S7 => "a second ID or RESOURCE",
        Rule::S8 => "a record that comes twice",
        Rule::S9 => "END without its beginning, or a beginning without END",
        Rule::S10 => "a change statement without its verb",
        Rule::V1 => "an image's name twice",
        Rule::V2 => "a list names no image",
        Rule::V3 => "more images than the path's kind allows",
        Rule::V4 => "an image online where it can't be",
        Rule::V5 => "a control unit's paths",
        Rule::V6 => "links and paths don't match",
        Rule::V7 => "ranges of unit addresses",
        Rule::V8 => "a device's control units",
        Rule::V9 => "a unit address that a control unit doesn't have",
        Rule::V10 => "two devices at one unit address",
        Rule::V11 => "a path list that is too long",
        Rule::V12 => "a candidate that is no image",
        Rule::V13 => "more devices than MAXDEV allows",
        Rule::V14 => "two control units at one address",
        Rule::E1 => "what is to be added is there",
        Rule::E2 => "what is to be deleted or modified isn't there",
        Rule::E3 => "a CHOOSE without parts",
        Rule::E4 => "a subchannel number is taken",
        Rule::B1 => "a subchannel is busy or has status pending",
        Rule::C1 => "a change tree too deep",
        Rule::C2 => "a change tree too large",
        Rule::J1 => "there is no such change",
        Rule::J2 => "a change stands on it",
        Rule::J3 => "the redo comes too late, or too early",
        Rule::O1 => "a change is being staged",
        Rule::O2 => "no change is being staged",
        Rule::O3 => "the trace is full",
        Rule::K1 => "a line that is no command",
        Rule::K2 => "a change deck that isn't there",
        Rule::K3 => "too many operator lines in one round",
        Rule::M1 => "not enough storage",
        Rule::Q1 => "the operators' queue is full",
        Rule::X1 => "a seat of another board",
        Rule::G1 => "a gate gave up",
    }
}
