ghost use Rattle.std.specs.Prelude.{◌≡◌, ◌<◌, ◌∷◌, [], IfOk, OnOk, not, slice_index_or, slice_set, vec_len};
ghost use Rattle.std.specs.List.{list_all, prefix_len, zip};
ghost use Rattle.iocm_impact.specs.Blocks as meaning;
ghost use Rattle.iocm_impact.specs.Blocks.{Told};

use crate::named_image::NamedImage;
use crate::row::{Row, tells_same};
use std::alloc::{AllocError, Global};
use std::marker::Model;

/// Images with equal rows, and their rows. Contracts see both lists.
#[derive(Drop)]
pub struct Block {
    images: Vec<NamedImage>,
    rows: Vec<Row>,
}

impl Model for Block {
    ghost use Rattle.iocm_impact.specs.Blocks.{Told};

    ghost Value = { Told };

    ghost view = { λ b. record { images = b.images.items; rows = b.rows.items } };
}

impl Block {
    /// The images, in the order of keys.
    pub fn images(&self) -> &[NamedImage]
        ensures { result.now ≡ self.now.images }
    {
        self.images.as_slice()
    }

    /// The rows that each of them has.
    pub fn rows(&self) -> &[Row]
        ensures { result.now ≡ self.now.rows }
    {
        self.rows.as_slice()
    }

    /// The block of one image.
    fn of_one(alloc: Global, image: NamedImage, rows: Vec<Row>) -> Result<Block, AllocError>
        ensures { IfOk result (λ block. block ≡ record { images = image ∷ []; rows = rows.items }) }
    {
        let mut images = Vec::new(alloc);
        images.push(image)?;
        Ok(Block { images, rows })
    }

    /// Puts an image with the same rows behind the others.
    fn put(&mut self, image: NamedImage) -> Result<(), AllocError>
        ensures { OnOk result (self.new ≡ meaning.with_image self.old image) }
    {
        self.images.push(image)?;
        Ok(())
    }
}

/// Puts an image with its rows into the first block with equal rows, or into a block of its own behind the others; an
/// image without rows into none.
///
/// `AllocError` (M1): memory ran out.
pub fn put_told(
    blocks: &mut Vec<Block>,
    alloc: Global,
    image: NamedImage,
    rows: Vec<Row>,
) -> Result<(), AllocError>
    ensures { OnOk result (blocks.new.items ≡ meaning.with_told blocks.old.items image rows.items) }
{
    if rows.is_empty() {
        return Ok(());
    }
    put_in(blocks, alloc, image, rows)?;
    Ok(())
}

/// Puts an image with its rows into the first block with equal rows, or into a block of its own.
fn put_in(
    blocks: &mut Vec<Block>,
    alloc: Global,
    image: NamedImage,
    rows: Vec<Row>,
) -> Result<(), AllocError>
    ensures { OnOk result (blocks.new.items ≡ meaning.told_in blocks.old.items image rows.items) }
{
    let place = place_of(blocks.as_slice(), &rows);
    if place < blocks.len() {
        put_at(blocks, place, image)?;
        return Ok(());
    }
    let block = Block::of_one(alloc, image, rows)?;
    blocks.push(block)?;
    Ok(())
}

/// Puts an image into the block at a place.
fn put_at(blocks: &mut Vec<Block>, place: usize, image: NamedImage) -> Result<(), AllocError>
    requires { place < vec_len blocks.old }
    ensures { (d : Told) → OnOk result (blocks.new.items
        ≡ slice_set blocks.old.items place (meaning.with_image (slice_index_or blocks.old.items place d) image)) }
{
    blocks[place].put(image)?;
    Ok(())
}

/// The place of the first block with equal rows, or behind all of them.
fn place_of(blocks: &[Block], rows: &[Row]) -> usize
    ensures { result ≡ prefix_len (λ b. not (meaning.same_rows b.rows rows.now)) blocks.now }
{
    blocks
        .iter()
        .take_while(|block| !are_same_rows(block.rows(), rows))
        .count()
}

/// Whether rows are equal.
fn are_same_rows(rows: &[Row], others: &[Row]) -> bool
    ensures { result ≡ meaning.same_rows rows.now others.now }
{
    rows.len() == others.len() && are_each_same(rows, others)
}

fn are_each_same(rows: &[Row], others: &[Row]) -> bool
    ensures { result ≡ list_all meaning.same_row (zip rows.now others.now) }
{
    rows.iter()
        .zip(others)
        .all(|(row, other)| is_same_row(row, other))
}

/// Whether of the same devices the same is told.
fn is_same_row(row: &Row, other: &Row) -> bool
    ensures { result ≡ meaning.same_row (row.now, other.now) }
{
    row.run.first.set == other.run.first.set
        && row.run.first.number == other.run.first.number
        && row.run.count == other.run.count
        && tells_same(&row.effect, &other.effect)
}
