ghost use Rattle.std.specs.Prelude.{◌≡◌, [], ◌∷◌, ◌++◌, map, None, Some, IfOk, OnOk};
ghost use Rattle.std.specs.List.{cons_option, list_any, AllByRecursion};
ghost use Rattle.std.specs.List.Sorted.{IsStrictlySortedBy};
ghost use Rattle.std.specs.Option.{option_and_then};
ghost use Rattle.std.specs.FinMap.{get};
ghost use Rattle.iocm_types.specs.SubId.{image_cmp};
ghost use Rattle.iocm_types.specs.Place.{cell_cmp};
ghost use Rattle.iocm_model.specs.Machine.Configuration.{IsKeyed, lookup_of};
ghost use Rattle.iocm_model.specs.Machine.View as model;
ghost use Rattle.iocm_derive.specs.Derived.{name_at};
ghost use Rattle.iocm_reach.specs.SightedCells.{sighted_cell, seen_there};
ghost use Rattle.iocm_reach.specs.Tabled.{IsReachOf};
ghost use Rattle.iocm_model.specs.Operation.State.{views_of};
ghost use Rattle.iocm_seats.specs.Seated.{views_seated, lives_seated};
ghost use Rattle.iocm_seats.specs.Settling.{lives_met, met_at};
ghost use Rattle.iocm_seats.specs.Changes.{candidates, changes_at, change_from, changes_between, AreCandidates};
ghost use Rattle.iocm_seats.specs.Sights.{cells_of_sights, has_device, AreSights, IsIn, IsNamedAt};

use crate::own_sights::OwnSights;
use crate::{KeptSeat, Seats, ViewChange};
use iocm_config::Config;
use iocm_derive::ImageNames;
use iocm_numbers::Numbers;
use iocm_reach::{ReachTable, ReachedCell};
use iocm_types::{Css, Image, Live, Name, NumberCell, SubId, View};
use std::alloc::{AllocError, Allocator, Global};

/// A change that is tried. The seats are as they were before it. The configuration, the numbers and
/// the table of who reaches which path are as they are after it.
#[derive(Drop)]
pub struct Tried<'a, A: Allocator, B: Allocator, C: Allocator> {
    pub seats: &'a Seats<A>,
    pub config: &'a Config<B>,
    pub numbers: &'a Numbers<C>,
    pub reach: &'a ReachTable,
}

/// What a change alters: the changes of what is seen, in the order of subchannels. Of those
/// subchannels that have a seat it has the live records, too. The word is own.
#[derive(Drop)]
pub struct Altered<D: Allocator> {
    pub changes: Vec<ViewChange, D>,
    pub met: Vec<(SubId, Live), D>,
}

/// An image, and its name if it is there. The name may be left out where the image's channel
/// subsystem has no device at the number cells that are looked at.
#[derive(Drop)]
struct NamedImage {
    image: Image,
    name: Option<Name>,
}

/// All changes of what is seen, in the order of subchannels. They are looked for at the subchannels
/// of some images and number cells alone, and are among these. Images and cells are given in order,
/// each once.
///
/// What the images of a channel subsystem share at a number cell is looked up once. Its number
/// cells are found by two walks over all. Beside that the time is that of one view for each of
/// these subchannels, by its seat and by the table. The live records are those of the same seats.
///
/// `AllocError` (M1): memory ran out.
pub fn list_changes<A: Allocator, B: Allocator, C: Allocator, D: Allocator + Clone>(
    alloc: D,
    tried: &Tried<'_, A, B, C>,
    images: &[Image],
    cells: &[NumberCell],
) -> Result<Altered<D>, AllocError>
    requires reach { IsReachOf tried.now.config.now.records tried.now.reach.now }
    requires images { IsStrictlySortedBy image_cmp images.now }
    requires cells { IsStrictlySortedBy cell_cmp cells.now }
    requires all { AreCandidates (get (views_seated tried.now.seats.now.seats))
        (model.view_at tried.now.config.now.records tried.now.numbers.now.numbers)
        (candidates images.now cells.now) }
    ensures changes { IfOk result (λ altered. altered.changes.items ≡ changes_between
        (views_seated tried.now.seats.now.seats)
        (views_of tried.now.config.now.records tried.now.numbers.now.numbers)) }
    ensures met { IfOk result (λ altered. altered.met.items
        ≡ lives_met (lives_seated tried.now.seats.now.seats) altered.changes.items) }
{
    // For the proof alone: each record stands under its own key.
    tried.config.has_own_keys();
    let sights = sight_cells(alloc.clone()?, tried, cells)?;
    list_at_images(alloc, tried, images, sights.as_slice())
}

/// What the images of a channel subsystem share at each of some number cells.
fn sight_cells<'a, A: Allocator, B: Allocator, C: Allocator, D: Allocator>(
    alloc: D,
    tried: &Tried<'a, A, B, C>,
    cells: &[NumberCell],
) -> Result<Vec<ReachedCell<'a, B, Global>, D>, AllocError>
    requires { IsReachOf tried.now.config.now.records tried.now.reach.now }
    ensures { IfOk result (λ sights. sights.items
        ≡ map (sighted_cell tried.now.config.now.records tried.now.numbers.now.numbers) cells.now) }
{
    let mut sights = Vec::with_capacity(alloc, cells.len())?;
    for cell in cells {
        sights.push(ReachedCell::new(tried.reach, tried.config, tried.numbers, cell))?;
    }
    Ok(sights)
}

/// The changes at the subchannels of some images and number cells.
fn list_at_images<A: Allocator, B: Allocator, C: Allocator, D: Allocator + Clone>(
    alloc: D,
    tried: &Tried<'_, A, B, C>,
    images: &[Image],
    sights: &[ReachedCell<'_, B, Global>],
) -> Result<Altered<D>, AllocError>
    requires keyed { IsKeyed tried.now.config.now.records }
    requires sights { AreSights tried.now.config.now.records tried.now.numbers.now.numbers sights.now }
    requires order { IsStrictlySortedBy cell_cmp (cells_of_sights sights.now) }
    ensures changes { IfOk result (λ altered. altered.changes.items ≡ changes_at
        tried.now.seats.now.seats tried.now.config.now.records tried.now.numbers.now.numbers
        (candidates images.now (cells_of_sights sights.now))) }
    ensures met { IfOk result (λ altered. altered.met.items
        ≡ lives_met (lives_seated tried.now.seats.now.seats) altered.changes.items) }
{
    let mut altered = Altered {
        changes: Vec::with_capacity(alloc.clone()?, images.len())?,
        met: Vec::with_capacity(alloc, images.len())?,
    };
    let mut names = ImageNames::new(tried.config);
    let mut own = OwnSights::find(Css::FIRST, sights);
    for image in images {
        own = own.follow(image.css, sights);
        let here = own.as_slice();
        let named = NamedImage {
            image: *image,
            name: name_for(&mut names, image, here),
        };
        list_at_cells(&mut altered, tried, &named, here)?;
    }
    Ok(altered)
}

/// The name of an image, if it is there. It is looked up only where it is needed: where one of
/// these number cells has a device.
fn name_for<A: Allocator, B: Allocator>(
    names: &mut ImageNames<'_, A>,
    image: &Image,
    sights: &[ReachedCell<'_, A, B>],
) -> Option<Name>
    requires { AllByRecursion (λ s. s.records ≡ names.old) sights.now }
    ensures name { AllByRecursion (IsNamedAt image.now result) sights.now }
    ensures same { names.new ≡ names.old }
{
    if !any_has_device(sights) {
        return None;
    }
    names.name(image)
}

/// Whether one of some number cells has a device.
fn any_has_device<A: Allocator, B: Allocator>(sights: &[ReachedCell<'_, A, B>]) -> bool
    ensures { result ≡ list_any has_device sights.now }
{
    sights.iter().any(|sight| has_device(sight))
}

/// Whether a number cell has a device.
fn has_device<A: Allocator, B: Allocator>(sight: &ReachedCell<'_, A, B>) -> bool
    ensures { result ≡ has_device sight.now }
{
    sight.has_device()
}

/// Puts the changes of an image at some number cells of its channel subsystem after those that are
/// listed.
fn list_at_cells<A: Allocator, B: Allocator, C: Allocator, D: Allocator>(
    altered: &mut Altered<D>,
    tried: &Tried<'_, A, B, C>,
    named: &NamedImage,
    sights: &[ReachedCell<'_, B, Global>],
) -> Result<(), AllocError>
    requires met { altered.old.met.items
        ≡ lives_met (lives_seated tried.now.seats.now.seats) altered.old.changes.items }
    requires keyed { IsKeyed tried.now.config.now.records }
    requires own { AllByRecursion (IsIn named.now.image.css) sights.now }
    requires name { AllByRecursion (IsNamedAt named.now.image named.now.name) sights.now }
    requires sights { AreSights tried.now.config.now.records tried.now.numbers.now.numbers sights.now }
    ensures changes { OnOk result (altered.new.changes.items ≡ altered.old.changes.items ++ changes_at
        tried.now.seats.now.seats tried.now.config.now.records tried.now.numbers.now.numbers
        (candidates (named.now.image ∷ []) (cells_of_sights sights.now))) }
    ensures met { OnOk result (altered.new.met.items
        ≡ lives_met (lives_seated tried.now.seats.now.seats) altered.new.changes.items) }
{
    for sight in sights {
        list_at_cell(altered, tried, named, sight)?;
    }
    Ok(())
}

/// Puts the change of an image at a number cell of its channel subsystem after those that are
/// listed, if something else is seen there.
fn list_at_cell<A: Allocator, B: Allocator, C: Allocator, D: Allocator>(
    altered: &mut Altered<D>,
    tried: &Tried<'_, A, B, C>,
    named: &NamedImage,
    sight: &ReachedCell<'_, B, Global>,
) -> Result<(), AllocError>
    requires met { altered.old.met.items
        ≡ lives_met (lives_seated tried.now.seats.now.seats) altered.old.changes.items }
    requires keyed { IsKeyed tried.now.config.now.records }
    requires own { IsIn named.now.image.css sight.now }
    requires name { IsNamedAt named.now.image named.now.name sight.now }
    requires sight { sight.now
        ≡ sighted_cell tried.now.config.now.records tried.now.numbers.now.numbers sight.now.cell }
    ensures changes { OnOk result (altered.new.changes.items ≡ altered.old.changes.items ++ changes_at
        tried.now.seats.now.seats tried.now.config.now.records tried.now.numbers.now.numbers
        (candidates (named.now.image ∷ []) (sight.now.cell ∷ []))) }
    ensures met { OnOk result (altered.new.met.items
        ≡ lives_met (lives_seated tried.now.seats.now.seats) altered.new.changes.items) }
{
    let cell = sight.cell();
    let subchannel = SubId {
        image: named.image,
        set: cell.set,
        number: cell.number,
    };
    let after = view_there(named, sight);
    match tried.seats.get(&subchannel) {
        Some(seat) => list_seated(altered, &subchannel, seat, after)?,
        None => list_new(altered, &subchannel, after)?,
    }
    Ok(())
}

/// What an image sees at a number cell of its channel subsystem.
fn view_there<B: Allocator>(named: &NamedImage, sight: &ReachedCell<'_, B, Global>) -> Option<View>
    requires own { IsIn named.now.image.css sight.now }
    requires name { IsNamedAt named.now.image named.now.name sight.now }
    ensures { result ≡ option_and_then (seen_there sight.now) (name_at (lookup_of sight.now.records) named.now.image) }
{
    if !sight.has_device() {
        return None;
    }
    match &named.name {
        Some(name) => sight.view(named.image.mif, *name),
        None => None,
    }
}

/// Puts the change at a subchannel with this seat, and the seat's live record, after those that are
/// listed, if something else is seen there afterwards.
fn list_seated<D: Allocator>(
    altered: &mut Altered<D>,
    subchannel: &SubId,
    seat: &KeptSeat,
    after: Option<View>,
) -> Result<(), AllocError>
    ensures changes { OnOk result (altered.new.changes.items
        ≡ altered.old.changes.items ++ cons_option (change_from (Some seat.now.view) after subchannel.now) []) }
    ensures met { OnOk result (altered.new.met.items ≡ altered.old.met.items
        ++ met_at seat.now.live (cons_option (change_from (Some seat.now.view) after subchannel.now) [])) }
{
    let Some(view) = after else {
        return list_gone(altered, subchannel, seat);
    };
    if seat.view() == view {
        return Ok(());
    }
    list_met(altered, subchannel, seat)?;
    altered.changes.reserve(1)?;
    altered.changes.push_reserved(ViewChange {
        subchannel: *subchannel,
        before: Some(seat.view()),
        after: Some(view),
    });
    Ok(())
}

/// Puts the change at a subchannel with this seat, where nothing is seen afterwards, and the seat's
/// live record, after those that are listed.
fn list_gone<D: Allocator>(
    altered: &mut Altered<D>,
    subchannel: &SubId,
    seat: &KeptSeat,
) -> Result<(), AllocError>
    ensures changes { OnOk result (altered.new.changes.items
        ≡ altered.old.changes.items ++ cons_option (change_from (Some seat.now.view) None subchannel.now) []) }
    ensures met { OnOk result (altered.new.met.items ≡ altered.old.met.items
        ++ met_at seat.now.live (cons_option (change_from (Some seat.now.view) None subchannel.now) [])) }
{
    let view = seat.view();
    list_met(altered, subchannel, seat)?;
    altered.changes.reserve(1)?;
    altered.changes.push_reserved(ViewChange {
        subchannel: *subchannel,
        before: Some(view),
        after: None,
    });
    Ok(())
}

/// Puts the live record of an altered subchannel after those that are listed.
fn list_met<D: Allocator>(
    altered: &mut Altered<D>,
    subchannel: &SubId,
    seat: &KeptSeat,
) -> Result<(), AllocError>
    ensures met { OnOk result
        (altered.new.met.items ≡ altered.old.met.items ++ (subchannel.now, seat.now.live) ∷ []) }
    ensures changes { altered.new.changes.items ≡ altered.old.changes.items }
{
    altered.met.reserve(1)?;
    altered.met.push_reserved((*subchannel, seat.live()));
    Ok(())
}

/// Puts the change at a subchannel without a seat after those that are listed, if something is seen
/// there afterwards.
fn list_new<D: Allocator>(
    altered: &mut Altered<D>,
    subchannel: &SubId,
    after: Option<View>,
) -> Result<(), AllocError>
    ensures changes { OnOk result (altered.new.changes.items
        ≡ altered.old.changes.items ++ cons_option (change_from None after subchannel.now) []) }
    ensures met { altered.new.met.items ≡ altered.old.met.items }
{
    let Some(view) = after else {
        return Ok(());
    };
    altered.changes.reserve(1)?;
    altered.changes.push_reserved(ViewChange {
        subchannel: *subchannel,
        before: None,
        after: Some(view),
    });
    Ok(())
}
