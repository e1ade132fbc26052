ghost use Rattle.iocm_statements.specs.Operation.{IsNamedByItsName};
ghost use Rattle.iocm_statements.specs.Splitting.{FindsOperand, FindsNoOtherOperand};
ghost use Rattle.iocm_statements.specs.Cutting.{FindsPieces, FindsNoOthers, CutsBalanced, CutsNoOthers};

/// What cutting means, in plain words: a text is cut exactly if its parentheses match and its
/// quotes end, and its pieces are then the one list of balanced texts, none with a comma outside
/// parentheses and quotes, that gives the text when commas join them.
pub fn pieces_are_those_of_the_text()
    ensures found { FindsPieces }
    ensures only { FindsNoOthers }
    ensures balanced { CutsBalanced }
    ensures unbalanced { CutsNoOthers }
{}

/// What an operand's text says, in plain words: it is a keyword, an equal sign and the value; or it
/// is not empty, has no equal sign outside parentheses and quotes, and is a bare text.
pub fn operands_are_what_their_texts_say()
    ensures found { FindsOperand }
    ensures only { FindsNoOtherOperand }
{}

/// The name of an operation is that of no other.
pub fn operations_are_named()
    ensures { IsNamedByItsName }
{}
