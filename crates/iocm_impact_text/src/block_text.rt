ghost use Rattle.std.specs.Prelude.{◌≡◌, ◌++◌, OnOk};
ghost use Rattle.std.specs.List.{flat_map};
ghost use Rattle.iocm_impact_text.specs.Texts as meaning;

use crate::image_list::put_image_list;
use crate::row_text::put_row;
use iocm_impact::{Block, Row};
use std::alloc::{AllocError, Global};

/// Puts blocks of images with their rows behind a text, with an empty line between them. Of `all` images there are,
/// many are told in short.
///
/// `AllocError` (M1): memory ran out.
pub fn put_blocks(
    text: &mut Vec<u8>,
    alloc: Global,
    blocks: &[Block],
    all: usize,
) -> Result<(), AllocError>
    ensures { OnOk result (text.new.items ≡ text.old.items ++ meaning.blocks_text all blocks.now) }
{
    if let [first, others @ ..] = blocks {
        put_block(text, alloc, first, all)?;
        put_others(text, alloc, others, all)?;
    }
    Ok(())
}

/// Puts blocks behind a text, each behind an empty line.
fn put_others(
    text: &mut Vec<u8>,
    alloc: Global,
    blocks: &[Block],
    all: usize,
) -> Result<(), AllocError>
    ensures { OnOk result (text.new.items ≡ text.old.items ++ flat_map (meaning.next_block all) blocks.now) }
{
    for block in blocks {
        put_next(text, alloc, block, all)?;
    }
    Ok(())
}

fn put_next(text: &mut Vec<u8>, alloc: Global, block: &Block, all: usize) -> Result<(), AllocError>
    ensures { OnOk result (text.new.items ≡ text.old.items ++ meaning.next_block all block.now) }
{
    text.push(b'\n')?;
    put_block(text, alloc, block, all)?;
    Ok(())
}

/// Puts a line with the images of a block behind a text, and a line for each of its rows.
fn put_block(text: &mut Vec<u8>, alloc: Global, block: &Block, all: usize) -> Result<(), AllocError>
    ensures { OnOk result (text.new.items ≡ text.old.items ++ meaning.block_text all block.now) }
{
    put_image_list(text, alloc, block.images(), all)?;
    text.extend_from_slice(b":\n")?;
    put_lines(text, alloc, block.rows())?;
    Ok(())
}

fn put_lines(text: &mut Vec<u8>, alloc: Global, rows: &[Row]) -> Result<(), AllocError>
    ensures { OnOk result (text.new.items ≡ text.old.items ++ flat_map meaning.row_line rows.now) }
{
    for row in rows {
        put_line(text, alloc, row)?;
    }
    Ok(())
}

fn put_line(text: &mut Vec<u8>, alloc: Global, row: &Row) -> Result<(), AllocError>
    ensures { OnOk result (text.new.items ≡ text.old.items ++ meaning.row_line row.now) }
{
    put_row(text, alloc, row)?;
    text.push(b'\n')?;
    Ok(())
}
