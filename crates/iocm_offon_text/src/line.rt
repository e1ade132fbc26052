ghost use Rattle.std.specs.Prelude.{◌≡◌, ◌<◌, ◌∷◌, [], not, if◌then◌else◌, slice_index_or, slice_set, vec_len};
ghost use Rattle.std.specs.Prelude.{IfOk, OnOk};
ghost use Rattle.std.specs.List.{list_all, prefix_len, zip};
ghost use Rattle.iocm_objects.specs.Runs.{run_of};
ghost use Rattle.iocm_offon_text.specs.Kinds.{is_path};
ghost use Rattle.iocm_offon_text.specs.Lines as meaning;
ghost use Rattle.iocm_offon.specs.Reached as reached;

use crate::fields::fields_text;
use crate::kind::{Kind, is_path, is_same_kind, kind_of};
use iocm_impact::NamedImage;
use iocm_objects::{Change, Run};
use iocm_offon::{Reason, images_in, is_over, paths_text};
use iocm_types::{Key, Text};
use std::alloc::{AllocError, Global};
use std::marker::Model;

/// Objects of which the same is told: devices whose numbers follow each other, or one object.
#[derive(Clone, Copy)]
pub struct ObjectRange {
    /// The key of the first.
    pub first: Key,
    /// What becomes of them.
    pub change: Change,
    /// How many there are.
    pub count: u32,
}

/// Objects that are reasons, of which the same is told. Contracts see the lists.
#[derive(Drop)]
pub struct Line {
    kind: Kind,
    fields: Text,
    paths: Text,
    images: Vec<NamedImage>,
    ranges: Vec<ObjectRange>,
    reasons: Vec<Reason>,
}

impl Model for Line {
    ghost use Rattle.iocm_offon_text.specs.Lines as meaning;

    ghost Value = { meaning.Line };

    ghost view = { λ l. record {
      kind = l.kind;
      fields = l.fields;
      paths = l.paths;
      images = l.images.items;
      ranges = l.ranges.items;
      reasons = l.reasons.items;
    } };
}

impl Line {
    /// The fields of the objects that lead to devices.
    pub fn fields(&self) -> &[u8]
        ensures { result.now ≡ self.now.fields }
    {
        self.fields.as_slice()
    }

    /// The objects, in the order of keys.
    pub fn ranges(&self) -> &[ObjectRange]
        ensures { result.now ≡ self.now.ranges }
    {
        self.ranges.as_slice()
    }

    /// The reasons that they are.
    pub fn reasons(&self) -> &[Reason]
        ensures { result.now ≡ self.now.reasons }
    {
        self.reasons.as_slice()
    }

    /// Puts the objects and the reasons of another line behind those that are there.
    fn put(&mut self, other: &Line) -> Result<(), AllocError>
        ensures { OnOk result (self.new ≡ meaning.both self.old other.now) }
    {
        self.ranges.extend_from_slice(&other.ranges)?;
        self.reasons.extend_from_slice(&other.reasons)?;
        Ok(())
    }
}

/// The line of a run of objects that are these reasons.
pub(crate) fn line_of(
    alloc: Global,
    images: &[NamedImage],
    run: &Run<'_>,
    reasons: Vec<Reason>,
) -> Result<Line, AllocError>
    ensures { IfOk result (λ line. line ≡ meaning.line_of images.now (run_of run.now) reasons.items) }
{
    let kind = kind_of(&run.first.key);
    let fields = fields_text(
        alloc,
        &kind,
        is_over(&reasons),
        run.count,
        run.first.told.as_slice(),
    )?;
    let paths = paths_unless(alloc, is_path(&kind), &reasons)?;
    let own = images_unless(alloc, is_path(&kind), images, &reasons)?;
    let ranges = one_range(alloc, run)?;
    Ok(Line {
        kind,
        fields,
        paths,
        images: own,
        ranges,
        reasons,
    })
}

fn one_range(alloc: Global, run: &Run<'_>) -> Result<Vec<ObjectRange>, AllocError>
    ensures { IfOk result (λ ranges. ranges.items ≡ meaning.range_of (run_of run.now) ∷ []) }
{
    let mut ranges = Vec::new(alloc);
    ranges.push(ObjectRange {
        first: run.first.key,
        change: run.first.change,
        count: run.count,
    })?;
    Ok(ranges)
}

fn paths_unless(alloc: Global, is_path: bool, reasons: &[Reason]) -> Result<Text, AllocError>
    ensures { IfOk result (λ text. text ≡ (if is_path then [] else reached.paths_text reasons.now)) }
{
    if is_path {
        Ok(Text::from_vec(Vec::new(alloc)))
    } else {
        paths_text(alloc, reasons)
    }
}

fn images_unless(
    alloc: Global,
    is_path: bool,
    images: &[NamedImage],
    reasons: &[Reason],
) -> Result<Vec<NamedImage>, AllocError>
    ensures { IfOk result
        (λ own. own.items ≡ (if is_path then [] else reached.images_in images.now reasons.now)) }
{
    if is_path {
        Ok(Vec::new(alloc))
    } else {
        images_in(alloc, images, reasons)
    }
}

/// Puts a line to the first of which the same is told, or behind all of them.
pub(crate) fn put_line(lines: &mut Vec<Line>, line: Line) -> Result<(), AllocError>
    ensures { OnOk result (lines.new.items ≡ meaning.with_line lines.old.items line) }
{
    let place = place_of(lines.as_slice(), &line);
    if place < lines.len() {
        put_at(lines, place, &line)?;
        return Ok(());
    }
    lines.push(line)?;
    Ok(())
}

/// Puts a line to the one at a place.
fn put_at(lines: &mut Vec<Line>, place: usize, line: &Line) -> Result<(), AllocError>
    requires { place < vec_len lines.old }
    ensures { (d : meaning.Line) → OnOk result (lines.new.items
        ≡ slice_set lines.old.items place (meaning.both (slice_index_or lines.old.items place d) line.now)) }
{
    lines[place].put(line)?;
    Ok(())
}

/// The place of the first line of which the same is told, or behind all of them.
fn place_of(lines: &[Line], line: &Line) -> usize
    ensures { result ≡ prefix_len (λ m. not (meaning.is_told_with m line.now)) lines.now }
{
    lines
        .iter()
        .take_while(|other| !is_told_with(other, line))
        .count()
}

/// Whether the same is told of two lines.
fn is_told_with(line: &Line, other: &Line) -> bool
    ensures { result ≡ meaning.is_told_with line.now other.now }
{
    is_same_kind(&line.kind, &other.kind)
        && line.fields == other.fields
        && line.paths == other.paths
        && are_same_images(&line.images, &other.images)
}

fn are_same_images(images: &[NamedImage], others: &[NamedImage]) -> bool
    ensures { result ≡ meaning.same_images images.now others.now }
{
    images.len() == others.len() && are_each_same(images, others)
}

fn are_each_same(images: &[NamedImage], others: &[NamedImage]) -> bool
    ensures { result ≡ list_all meaning.same_image (zip images.now others.now) }
{
    images
        .iter()
        .zip(others)
        .all(|(image, other)| is_same_image(image, other))
}

fn is_same_image(image: &NamedImage, other: &NamedImage) -> bool
    ensures { result ≡ meaning.same_image (image.now, other.now) }
{
    image.image.css == other.image.css && image.image.mif == other.image.mif
}
