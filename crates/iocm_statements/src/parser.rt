ghost use Rattle.std.specs.Prelude.{◌≡◌};
ghost use Rattle.iocm_types.specs.Fault.{Gives};
ghost use Rattle.iocm_statements.specs.Operands.{operands_of};
ghost use Rattle.iocm_statements.specs.Statement.{statement_of, parsed};

use crate::keying::keyed;
use crate::operand::{make_operands, operand_texts};
use crate::{Operands, Operation, Statement};
use iocm_columns::Joined;
use iocm_types::{Fault, Rule};
use std::alloc::Global;

/// The operands of the operand part `text` of a statement at `line`.
fn make_operands_of(alloc: Global, line: usize, text: &[u8]) -> Result<Operands, Fault>
    ensures { Gives (λ o. o) result (operands_of line text.now) }
{
    let unmatched = Fault {
        rule: Rule::S6,
        line,
    };
    let malformed = Fault {
        rule: Rule::S4,
        line,
    };
    let twice = Fault {
        rule: Rule::S2,
        line,
    };
    let texts = operand_texts(alloc, text, unmatched)?;
    let operands = make_operands(alloc, texts.as_slice(), malformed)?;
    keyed(alloc, operands, twice)
}

/// The statement that `joined` says.
fn make_statement(alloc: Global, joined: &Joined) -> Result<Statement, Fault>
    ensures { Gives (λ s. s) result (statement_of joined.now) }
{
    let unknown = Fault {
        rule: Rule::S1,
        line: joined.line,
    };
    let operation = Operation::named(joined.operation.as_slice()).ok_or(unknown)?;
    let operands = make_operands_of(alloc, joined.line, joined.text.as_slice())?;
    Ok(Statement {
        name: joined.name.copy_in(alloc)?,
        operation,
        operands,
        line: joined.line,
    })
}

/// The statements of a deck, in order, each with the line of its first record.
///
/// The first statement with a fault decides, and in it the first of these: S1, an operation that is
/// not known here; S6, parentheses that do not match or a quote that does not end; S4, an empty
/// operand or a bad keyword; S2, a keyword twice. A bare text may be repeated. M1 without memory.
/// (IOCP User's Guide, coding of control statements; the numbers and the order of the faults are
/// own.)
///
/// Promise: operands are cut exactly, or the first of S1, S6, S4 and S2 is answered.
#[tactic(auto, using(iocm_types::proofs::Each::each_steps))]
pub fn parse(alloc: Global, joined: &[Joined]) -> Result<Vec<Statement>, Fault>
    ensures { Gives (λ v. v.items) result (parsed joined.now) }
{
    let mut statements = Vec::new(alloc);
    for statement in joined {
        statements.push(make_statement(alloc, statement)?)?;
    }
    Ok(statements)
}
