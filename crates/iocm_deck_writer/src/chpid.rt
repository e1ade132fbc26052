ghost use Rattle.std.specs.Prelude.{◌≡◌, ◌++◌, IfOk, OnOk};
ghost use Rattle.iocm_operands.specs.ChpidPath as path_operand;
ghost use Rattle.iocm_operands.specs.ChpidPartition as partition_operand;
ghost use Rattle.iocm_deck_writer.specs.Canonical as meaning;
ghost use Rattle.iocm_record.specs.Meaning.{path_of};

use crate::operands::{put_alone, put_valued};
use iocm_record::{Carried, PathFields};
use iocm_types::{CssPath, Name, PathKind, Text};
use iocm_values::{css_text, list_text, names_text, printed};
use std::alloc::{AllocError, Allocator, Global};

fn path_text(alloc: Global, path: CssPath) -> Result<Text, AllocError>
    ensures { IfOk result (λ text. text ≡ path_operand.path_text path) }
{
    let items = vec![in alloc; css_text(alloc, path.css)?, printed(alloc, &path.path)?]?;
    list_text(alloc, &items)
}

// The word REC of a reconfigurable path.
fn put_rec(alloc: Global, items: &mut Vec<Text>, kind: PathKind) -> Result<(), AllocError>
    ensures { OnOk result
        (items.new.items ≡ items.old.items ++ partition_operand.rec_texts (meaning.is_reconfigurable kind)) }
{
    match kind {
        PathKind::Reconfigurable => items.push(Text::from_slice(alloc, b"REC")?)?,
        PathKind::Dedicated => {}
        PathKind::Shared => {}
    }
    Ok(())
}

fn partition_text(
    alloc: Global,
    access: &[Name],
    candidates: &[Name],
    kind: PathKind,
) -> Result<Text, AllocError>
    ensures { IfOk result (λ text. text
        ≡ partition_operand.partition_text access.now candidates.now (meaning.is_reconfigurable kind)) }
{
    let mut items = vec![in alloc; names_text(alloc, access)?, names_text(alloc, candidates)?]?;
    put_rec(alloc, &mut items, kind)?;
    list_text(alloc, &items)
}

// The word SHARED of a shared path.
fn put_shared(alloc: Global, operands: &mut Vec<Carried>, kind: PathKind) -> Result<(), AllocError>
    ensures { OnOk result (operands.new.items ≡ operands.old.items ++ meaning.shared_words kind) }
{
    match kind {
        PathKind::Shared => put_alone(alloc, operands, b"SHARED"),
        PathKind::Dedicated => Ok(()),
        PathKind::Reconfigurable => Ok(()),
    }
}

/// The operands of a channel path, without what it carries.
pub fn chpid_operands<A: Allocator>(
    alloc: Global,
    path: &PathFields<A>,
) -> Result<Vec<Carried>, AllocError>
    ensures { IfOk result (λ operands. operands.items ≡ meaning.chpid_operands (path_of path.now)) }
{
    let mut operands = Vec::new(alloc);
    let number = path_text(
        alloc,
        CssPath {
            css: path.css,
            path: path.number,
        },
    )?;
    put_valued(alloc, &mut operands, b"PATH", Some(number))?;
    put_shared(alloc, &mut operands, path.kind)?;
    let access = path.access.as_slice();
    let lists = partition_text(alloc, access, path.candidates.as_slice(), path.kind)?;
    put_valued(alloc, &mut operands, b"PARTITION", Some(lists))?;
    Ok(operands)
}
