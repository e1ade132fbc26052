ghost use Rattle.std.specs.Prelude.{◌≡◌, ◌++◌, ◌∷◌, ◌<◌, ◌^◌, [], if◌then◌else◌, map, sum_by, IfOk, OnOk};
ghost use Rattle.std.specs.List.{zip};
ghost use Rattle.iocm_model.specs.Machine.Configuration.{lookup_of};
ghost use Rattle.iocm_plan.specs.RunEffects.{is_affected};
ghost use Rattle.iocm_impact.specs.Blocks.{with_told};
ghost use Rattle.iocm_impact.specs.Counts.{counts_of};
ghost use Rattle.iocm_impact.specs.Gathered as parts;
ghost use Rattle.iocm_impact.specs.Impact as meaning;
ghost use Rattle.iocm_impact.specs.Marks.{either, no_marks};
ghost use Rattle.iocm_impact.specs.Rows.{rows};

use crate::block::{Block, put_told};
use crate::counts::{Counts, ImageCounts, counts_of};
use crate::marks::{Marks, either_of_all, marks_of_all};
use crate::named_image::{NamedImage, named_images};
use crate::rows::rows_of;
use iocm_config::Config;
use iocm_filter::Filters;
use iocm_plan::{DeviceRun, Effect, effects_on_runs, is_affected, runs_asked};
use std::alloc::{AllocError, Global};
use std::marker::Model;

/// What a change of a configuration does to images and devices. Contracts see the lists.
#[derive(Drop)]
pub struct Impact {
    images: Vec<ImageCounts>,
    blocks: Vec<Block>,
    devices: Counts,
    all: usize,
}

impl Model for Impact {
    ghost use Rattle.iocm_impact.specs.Impact as meaning;

    ghost Value = { meaning.Impact };

    ghost view = { λ i. record {
      images = i.images.items;
      blocks = i.blocks.items;
      devices = i.devices;
      all = i.all;
    } };
}

impl Impact {
    /// The images that are affected, in the order of keys, each with the counts of its devices.
    pub fn images(&self) -> &[ImageCounts]
        ensures { result.now ≡ self.now.images }
    {
        self.images.as_slice()
    }

    /// Images with equal rows, in the order of their first.
    pub fn blocks(&self) -> &[Block]
        ensures { result.now ≡ self.now.blocks }
    {
        self.blocks.as_slice()
    }

    /// How many devices have each mark for some image: each device counts once.
    pub fn devices(&self) -> Counts
        ensures { result ≡ self.now.devices }
    {
        self.devices
    }

    /// How many images there are before or after, affected or not.
    pub fn all(&self) -> usize
        ensures { result ≡ self.now.all }
    {
        self.all
    }
}

/// What has been gathered of some images. Contracts see the lists.
#[derive(Drop)]
struct Gathered {
    images: Vec<ImageCounts>,
    blocks: Vec<Block>,
    marks: Vec<Marks>,
}

impl Model for Gathered {
    ghost use Rattle.iocm_impact.specs.Gathered as parts;

    ghost Value = { parts.Gathered };

    ghost view = { λ g. record { images = g.images.items; blocks = g.blocks.items; marks = g.marks.items } };
}

/// What a change of a configuration does to images and devices, as filters leave it; with `is_lost`, only what is
/// lost. The time is that of one look at each run of devices for each image. Effects are kept of one image at a time,
/// and equal rows once.
///
/// `AllocError` (M1): memory ran out.
pub fn impact_of(
    alloc: Global,
    filters: &Filters,
    is_lost: bool,
    old: &Config,
    new: &Config,
) -> Result<Impact, AllocError>
    ensures { IfOk result (λ impact. impact
        ≡ meaning.impact (parts.change filters.now is_lost old.now.records new.now.records)) }
{
    let runs = runs_asked(alloc, filters, old, new)?;
    let images = named_images(alloc, old, new)?;
    let gathered = gathered_of(alloc, filters, is_lost, old, new, &images, &runs)?;
    let devices = counts_of(&runs, &gathered.marks);
    Ok(Impact {
        images: gathered.images,
        blocks: gathered.blocks,
        devices,
        all: images.len(),
    })
}

/// What is gathered of all images, by the runs of devices.
fn gathered_of(
    alloc: Global,
    filters: &Filters,
    is_lost: bool,
    old: &Config,
    new: &Config,
    images: &[NamedImage],
    runs: &[DeviceRun],
) -> Result<Gathered, AllocError>
    requires few { sum_by (λ r. r.count) runs.now < 2 ^ 64 }
    requires runs { runs.now
        ≡ meaning.runs_of (parts.change filters.now is_lost old.now.records new.now.records) }
    ensures { IfOk result (λ all. all
        ≡ parts.all (parts.change filters.now is_lost old.now.records new.now.records) images.now) }
{
    let mut gathered = none_gathered(alloc, runs)?;
    for image in images {
        let effects = effects_on_runs(alloc, filters, is_lost, old, new, &image.image, runs)?;
        put_image(&mut gathered, alloc, image, runs, &effects)?;
    }
    Ok(gathered)
}

/// What is gathered of no image.
fn none_gathered(alloc: Global, runs: &[DeviceRun]) -> Result<Gathered, AllocError>
    ensures { IfOk result (λ none. none ≡ parts.none runs.now) }
{
    let marks = no_marks_of(alloc, runs)?;
    Ok(Gathered {
        images: Vec::new(alloc),
        blocks: Vec::new(alloc),
        marks,
    })
}

/// No mark for each run.
fn no_marks_of(alloc: Global, runs: &[DeviceRun]) -> Result<Vec<Marks>, AllocError>
    ensures { IfOk result (λ marks. marks.items ≡ map (λ r. no_marks) runs.now) }
{
    runs.iter().map(|_| Marks::none()).collect(alloc)
}

/// Puts an image with these effects to what is gathered.
fn put_image(
    gathered: &mut Gathered,
    alloc: Global,
    image: &NamedImage,
    runs: &[DeviceRun],
    effects: &[Effect],
) -> Result<(), AllocError>
    requires { sum_by (λ r. r.count) runs.now < 2 ^ 64 }
    ensures { OnOk result (gathered.new ≡ parts.with_image gathered.old image.now runs.now effects.now) }
{
    let own = marks_of_all(alloc, effects)?;
    put_counts(&mut gathered.images, image, runs, effects, &own)?;
    put_marks(&mut gathered.marks, alloc, &own)?;
    put_rows(&mut gathered.blocks, alloc, image, runs, effects)?;
    Ok(())
}

/// Puts an image with its counts behind others, if it is affected.
fn put_counts(
    images: &mut Vec<ImageCounts>,
    image: &NamedImage,
    runs: &[DeviceRun],
    effects: &[Effect],
    marks: &[Marks],
) -> Result<(), AllocError>
    requires { sum_by (λ r. r.count) runs.now < 2 ^ 64 }
    ensures { OnOk result (images.new.items ≡ images.old.items
        ++ parts.counts_if (is_affected effects.now) image.now (counts_of runs.now marks.now)) }
{
    if is_affected(effects) {
        let counts = counts_of(runs, marks);
        images.push(ImageCounts {
            image: image.copied(),
            counts,
        })?;
    }
    Ok(())
}

/// Puts the marks of one more image to those of others, run by run.
fn put_marks(marks: &mut Vec<Marks>, alloc: Global, own: &[Marks]) -> Result<(), AllocError>
    ensures { OnOk result (marks.new.items ≡ map (λ p. either p.0 p.1) (zip marks.old.items own.now)) }
{
    let all = either_of_all(alloc, marks.as_slice(), own)?;
    *marks = all;
    Ok(())
}

/// Puts an image with its rows into its block.
fn put_rows(
    blocks: &mut Vec<Block>,
    alloc: Global,
    image: &NamedImage,
    runs: &[DeviceRun],
    effects: &[Effect],
) -> Result<(), AllocError>
    requires { sum_by (λ r. r.count) runs.now < 2 ^ 64 }
    ensures { OnOk result (blocks.new.items ≡ with_told blocks.old.items image.now (rows runs.now effects.now)) }
{
    let rows = rows_of(alloc, runs, effects)?;
    put_told(blocks, alloc, image.copied(), rows)?;
    Ok(())
}
