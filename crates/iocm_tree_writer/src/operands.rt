ghost use Rattle.std.specs.Prelude.{◌≡◌, ◌∷◌, [], IfOk, codes};
ghost use Rattle.iocm_operands.specs.ChpidPath.{path_text};
ghost use Rattle.iocm_values.specs.NameSet as names;
ghost use Rattle.iocm_deck_writer.specs.Statement as statements;
ghost use Rattle.iocm_tree_writer.specs.Leaves as meaning;

use iocm_deck_writer::CanonicalStatement;
use iocm_record::Carried;
use iocm_statements::Operation;
use iocm_types::{Chpid, Css, Name, Text};
use iocm_values::{css_text, list_text, names_text, printed};
use std::alloc::{AllocError, Global};

/// An operand with its keyword. Answers the lack of memory alone.
pub fn valued(alloc: Global, keyword: &[u8], text: Text) -> Result<Carried, AllocError>
    ensures { IfOk result (λ operand. operand ≡ statements.keyed keyword.now text) }
{
    Ok(Carried::new(Some(Text::from_slice(alloc, keyword)?), text))
}

/// PATH of a channel path. Answers the lack of memory alone.
pub fn path_operand(alloc: Global, css: Css, number: Chpid) -> Result<Carried, AllocError>
    ensures { IfOk result (λ operand. operand
        ≡ statements.keyed (codes "PATH") (path_text (record { css = css; path = number }))) }
{
    let items = vec![in alloc; css_text(alloc, css)?, printed(alloc, &number)?]?;
    valued(alloc, b"PATH", list_text(alloc, &items)?)
}

// PARTITION of one image.
fn name_operand(alloc: Global, name: Name) -> Result<Carried, AllocError>
    ensures { IfOk result (λ operand. operand ≡ statements.keyed (codes "PARTITION") (names.names_text (name ∷ []))) }
{
    valued(alloc, b"PARTITION", names_text(alloc, &[name])?)
}

/// The statement that a path is online to an image, or that it isn't any more. Answers the lack of
/// memory alone.
pub fn online_statement(
    alloc: Global,
    css: Css,
    number: Chpid,
    name: Name,
) -> Result<CanonicalStatement, AllocError>
    ensures { IfOk result (λ s. s ≡ meaning.online_statement css number name) }
{
    let operands = vec![in alloc;
        path_operand(alloc, css, number)?,
        name_operand(alloc, name)?,
    ]?;
    Ok(CanonicalStatement::new(Operation::Online, operands))
}
