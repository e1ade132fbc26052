//! What holds of the definitions themselves. Each law is the contract of a function that does
//! nothing.
ghost use Rattle.iocm_deck_writer.specs.Again.{ReadsOperandsAgain, WritesCarriedAgain, WritesOperandsAgain};

/// The operand part of a canonical statement is read as the operands that were written, each under
/// its keyword or bare at its place. That holds of operands that can stand in one: parentheses
/// match, quotes end and commas stand inside them, a keyword is one and stands once, and a bare
/// text isn't empty and has no equal sign that would make it a value.
pub fn operands_are_read_again()
    ensures { ReadsOperandsAgain }
{}

/// What is read of an operand part is written as that part: its operands, carried as they stand,
/// can stand in one, each at its place, and so can those that a statement of any operation carries.
pub fn operands_are_written_again()
    ensures all { WritesOperandsAgain }
    ensures carried { WritesCarriedAgain }
{}
