ghost use Rattle.std.specs.Prelude.{◌≡◌, ◌++◌, IfOk, OnOk};
ghost use Rattle.std.specs.List.{flat_map};
ghost use Rattle.std.specs.Option.{option_map};
ghost use Rattle.iocm_plan.specs.Seen.{paths_of, view_in};
ghost use Rattle.iocm_plan.specs.Sides.{side_of};
ghost use Rattle.iocm_impact.specs.Gathered.{change};
ghost use Rattle.iocm_offon.specs.Rerouted as meaning;

use crate::online::is_on;
use crate::reason::{Reason, Spot, put_reasons_at};
use crate::side_on::side_on;
use iocm_config::Config;
use iocm_filter::Filters;
use iocm_impact::{NamedImage, named_images};
use iocm_plan::{DeviceRun, Side, left_between, runs_asked, sight_at};
use iocm_types::{Chpid, CssPath, Image};
use std::alloc::{AllocError, Global};

/// The reasons why paths may go off and on again, as filters leave them; with `is_lost`, only those of devices that are
/// lost. The time is that of one look at each run of devices for each image, and of one at each path of another route.
///
/// `AllocError` (M1): memory ran out.
pub fn reasons_of(
    alloc: Global,
    filters: &Filters,
    is_lost: bool,
    old: &Config,
    new: &Config,
) -> Result<Vec<Reason>, AllocError>
    ensures { IfOk result (λ reasons. reasons.items
        ≡ meaning.reasons (change filters.now is_lost old.now.records new.now.records)) }
{
    let runs = runs_asked(alloc, filters, old, new)?;
    let images = named_images(alloc, old, new)?;
    reasons_among(alloc, filters, is_lost, old, new, &images, &runs)
}

/// The same of some images and runs.
///
/// `AllocError` (M1): memory ran out.
pub fn reasons_among(
    alloc: Global,
    filters: &Filters,
    is_lost: bool,
    old: &Config,
    new: &Config,
    images: &[NamedImage],
    runs: &[DeviceRun],
) -> Result<Vec<Reason>, AllocError>
    ensures { IfOk result (λ reasons. reasons.items ≡ flat_map (meaning.reasons_on_runs
        (change filters.now is_lost old.now.records new.now.records) runs.now) images.now) }
{
    let mut reasons = Vec::new(alloc);
    for image in images {
        put_on_runs(&mut reasons, filters, is_lost, old, new, image, runs)?;
    }
    Ok(reasons)
}

/// Puts the reasons of an image and some runs behind others.
fn put_on_runs(
    reasons: &mut Vec<Reason>,
    filters: &Filters,
    is_lost: bool,
    old: &Config,
    new: &Config,
    image: &NamedImage,
    runs: &[DeviceRun],
) -> Result<(), AllocError>
    ensures { OnOk result (reasons.new.items ≡ reasons.old.items ++ meaning.reasons_on_runs
        (change filters.now is_lost old.now.records new.now.records) runs.now image.now) }
{
    let (css, mif) = (image.image.css, image.image.mif);
    let mut before = sight_at(old, Image { css, mif });
    let mut after = sight_at(new, Image { css, mif });
    for run in runs {
        let side = side_on(&mut before, old, run);
        let other = side_on(&mut after, new, run);
        put_between(reasons, filters, is_lost, image, run, &side, &other)?;
    }
    Ok(())
}

/// Puts the reasons of an image and a run behind others, if filters leave it.
fn put_between(
    reasons: &mut Vec<Reason>,
    filters: &Filters,
    is_lost: bool,
    image: &NamedImage,
    run: &DeviceRun,
    before: &Option<Side<'_>>,
    after: &Option<Side<'_>>,
) -> Result<(), AllocError>
    ensures { OnOk result (reasons.new.items ≡ reasons.old.items ++ meaning.reasons_between filters.now is_lost
        image.now run.now (option_map side_of before.now) (option_map side_of after.now)) }
{
    if left_between(filters, is_lost, &run.first, before, after).offon {
        put_over_all(reasons, image, run, before, after)?;
    }
    Ok(())
}

/// Puts the reasons of an image and a run behind others.
fn put_over_all(
    reasons: &mut Vec<Reason>,
    image: &NamedImage,
    run: &DeviceRun,
    before: &Option<Side<'_>>,
    after: &Option<Side<'_>>,
) -> Result<(), AllocError>
    ensures { OnOk result (reasons.new.items ≡ reasons.old.items ++ meaning.reasons_over_all image.now run.now
        (option_map side_of before.now) (option_map side_of after.now)) }
{
    match (before, after) {
        (Some(before), Some(after)) => put_over_paths(reasons, image, run, before, after),
        _ => Ok(()),
    }
}

/// Puts the reasons of the paths in the view before behind others.
fn put_over_paths(
    reasons: &mut Vec<Reason>,
    image: &NamedImage,
    run: &DeviceRun,
    before: &Side<'_>,
    after: &Side<'_>,
) -> Result<(), AllocError>
    ensures { OnOk result (reasons.new.items ≡ reasons.old.items
        ++ flat_map (meaning.reasons_over image.now run.now (side_of before.now) (side_of after.now))
        (paths_of (view_in (side_of before.now)))) }
{
    let Some(view) = &before.view else {
        return Ok(());
    };
    for path in view.paths.as_slice() {
        put_over(reasons, image, run, before, after, *path)?;
    }
    Ok(())
}

/// Puts the reasons of a path behind others, if it is online before and after; there are none if its route is one.
fn put_over(
    reasons: &mut Vec<Reason>,
    image: &NamedImage,
    run: &DeviceRun,
    before: &Side<'_>,
    after: &Side<'_>,
    path: Chpid,
) -> Result<(), AllocError>
    ensures { OnOk result (reasons.new.items ≡ reasons.old.items
        ++ meaning.reasons_over image.now run.now (side_of before.now) (side_of after.now) path) }
{
    if !(is_on(before, path) && is_on(after, path)) {
        return Ok(());
    }
    let css = before.image.css;
    let spot = Spot {
        image: image.copied(),
        run: *run,
        path: CssPath { css, path },
    };
    put_reasons_at(reasons, &spot, before, after)?;
    Ok(())
}
