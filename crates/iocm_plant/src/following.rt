ghost use Rattle.std.specs.Prelude.{◌≡◌, ◌++◌, None, IfOk, IfErr, OnOk, OnErr};
ghost use Rattle.iocm_types.specs.declared.refused.At.TheVariants as at;
ghost use Rattle.iocm_types.specs.declared.rule.Rule.TheVariants as rule;
ghost use Rattle.iocm_model.specs.Machine.Numbering.{Numbering};
ghost use Rattle.iocm_model.specs.Change.Renumbering.{numbers_after};
ghost use Rattle.iocm_model.specs.Change.Refusal.{refusal_at};
ghost use Rattle.iocm_numbers.specs.Numbered.{KeepsRoom};
ghost use Rattle.iocm_numbers.specs.NumberChanges.{changes_between, WereBefore};
ghost use Rattle.iocm_reach.specs.Tabled.{IsReachOf};
ghost use Rattle.iocm_seats.specs.Seated.{lives_seated, KeepsPlaces};
ghost use Rattle.iocm_seats.specs.Settling.{lives_met};
ghost use Rattle.iocm_tree.specs.Carried.{AreInOrder};
ghost use Rattle.iocm_plant.specs.Following.{WasChanged, WasRenumbered, ArePlacesInOrder, AreImagesInOrder};
ghost use Rattle.iocm_plant.specs.Following.{cells_given, seen_changes, seats_after, TellsAll, TellsOfSeats};
ghost use Rattle.iocm_plant.specs.Following.{seating_refusal, refusal_with};
ghost use Rattle.iocm_plant.specs.Refusing.{Hinders};

use crate::obstacle::Obstacle;
use crate::quiet::Quiet;
use crate::seating::seat;
use crate::touched::Touched;
use iocm_affected::Affected;
use iocm_config::Config;
use iocm_numbers::{Numbers, Renumbered, sort_apart};
use iocm_reach::ReachTable;
use iocm_seats::{Altered, Seats, Tried, list_changes};
use iocm_types::{At, Key, Live, NumberCell, Place, Refused, Rule, SubId};
use std::alloc::{AllocError, Global};

/// Where a change of the configuration is looked for: at the places and images that it may affect,
/// and at the number cells that these places had.
#[derive(Drop)]
pub struct LookedAt {
    pub affected: Affected<Global>,
    pub cells: Vec<NumberCell>,
}

/// What comes along with an edit beside its record, and whether the altered subchannels are wanted
/// quiet.
#[derive(Drop)]
pub struct Brought {
    pub key: Key,
    pub places: Vec<(Place, u16)>,
    pub kept: Vec<(SubId, Live)>,
    pub quiet: Quiet,
}

/// What a change of the configuration did to the seats, and what is told of it.
#[derive(Drop)]
pub struct Told {
    /// The live records that altered subchannels had.
    pub kept: Vec<(SubId, Live)>,
    /// A row for each altered subchannel that is left.
    pub meets: Vec<(SubId, Live)>,
    pub touched: Touched,
}

/// What a change of the configuration did to the numbers and to the seats.
#[derive(Drop)]
pub struct Followed {
    pub renumbered: Renumbered<Global>,
    pub told: Told,
}

/// Lets the numbers and the seats follow a change of the configuration, with what comes along. The
/// table of who reaches which path is that of the configuration as it is now.
///
/// E4: a number that comes along is taken. B1, where altered subchannels are wanted quiet: the
/// first that isn't. M1: memory ran out. Then numbers and seats are as before, but some may have
/// got places.
pub fn follow(
    alloc: Global,
    numbers: &mut Numbers,
    seats: &mut Seats,
    config: &Config,
    reach: &ReachTable,
    at: LookedAt,
    brought: Brought,
) -> Result<Followed, Obstacle>
    requires reach { IsReachOf config.now.records reach.now }
    requires changed { WasChanged config.now.records numbers.old.numbers seats.old.seats at }
    requires places { ArePlacesInOrder at }
    requires images { AreImagesInOrder at }
    requires kept { AreInOrder brought.kept.items }
    ensures numbers { OnOk result (numbers.new.numbers
        ≡ numbers_after config.now.records brought.places.items numbers.old.numbers) }
    ensures seats { OnOk result (seats.new.seats
        ≡ seats_after config.now.records numbers.new.numbers brought seats.old.seats) }
    ensures told { IfOk result (TellsAll config.now.records numbers.old.numbers numbers.new.numbers seats.old.seats) }
    ensures clear { OnOk result (refusal_with config.now.records numbers.old.numbers seats.old.seats brought ≡ None) }
    ensures refused { IfErr result (Hinders
        (refusal_with config.now.records numbers.old.numbers seats.old.seats brought)) }
    ensures same_numbers { OnErr result (numbers.new.numbers ≡ numbers.old.numbers) }
    ensures same_seats { OnErr result (seats.new.seats ≡ seats.old.seats) }
    ensures room { KeepsRoom numbers.old numbers.new }
    ensures subchannels_placed { KeepsPlaces seats.old seats.new }
{
    // For the proof alone: what always holds of a configuration and of numbers.
    config.has_own_keys();
    numbers.are_apart();
    numbers.have_room();
    if numbers.is_taken(alloc, config, brought.places.as_slice())? {
        return Err(Obstacle::Refused(number_refusal(brought.key)));
    }
    let renumbered = numbers.renumber(
        alloc,
        config,
        at.affected.places.as_slice(),
        brought.places.as_slice(),
    )?;
    match follow_numbers(
        alloc,
        numbers,
        seats,
        config,
        reach,
        at,
        brought,
        &renumbered,
    ) {
        Ok(told) => Ok(Followed { renumbered, told }),
        Err(obstacle) => {
            numbers.exchange(renumbered.given.as_slice(), renumbered.freed.as_slice());
            Err(obstacle)
        }
    }
}

/// E4 for a key.
fn number_refusal(key: Key) -> Refused
    ensures { result ≡ refusal_at rule.E4 (at.Key key) }
{
    Refused::about(Rule::E4, At::Key(key))
}

/// Lets the seats follow numbers that have followed a change of the configuration.
fn follow_numbers(
    alloc: Global,
    numbers: &Numbers,
    seats: &mut Seats,
    config: &Config,
    reach: &ReachTable,
    at: LookedAt,
    brought: Brought,
    renumbered: &Renumbered<Global>,
) -> Result<Told, Obstacle>
    requires reach { IsReachOf config.now.records reach.now }
    requires changed { WasRenumbered config.now.records numbers.now.numbers seats.old.seats at
        renumbered.now.given.items }
    requires images { AreImagesInOrder at }
    requires kept { AreInOrder brought.kept.items }
    ensures seats { OnOk result (seats.new.seats
        ≡ seats_after config.now.records numbers.now.numbers brought seats.old.seats) }
    ensures told { IfOk result (TellsOfSeats config.now.records numbers.now.numbers seats.old.seats) }
    ensures cells { IfOk result (λ t. (n : Numbering)
        → WereBefore n numbers.now.numbers renumbered.now.freed.items renumbered.now.given.items
        → t.touched.numbers.items ≡ changes_between n numbers.now.numbers) }
    ensures clear { OnOk result (seating_refusal config.now.records numbers.now.numbers
        seats.old.seats brought.quiet ≡ None) }
    ensures refused { IfErr result (Hinders
        (seating_refusal config.now.records numbers.now.numbers seats.old.seats brought.quiet)) }
    ensures same { OnErr result (seats.new.seats ≡ seats.old.seats) }
    ensures places { KeepsPlaces seats.old seats.new }
{
    let given = renumbered.given.as_slice();
    let Altered { changes, met } = list_altered(alloc, numbers, seats, config, reach, at, given)?;
    let changed = numbers.list_changes(alloc, renumbered.freed.as_slice(), given)?;
    match seat(
        alloc,
        seats,
        changes.as_slice(),
        met,
        brought.kept.as_slice(),
        brought.quiet,
    ) {
        Ok(seated) => Ok(Told {
            kept: seated.kept,
            meets: seated.meets,
            touched: Touched {
                numbers: changed,
                subchannels: changes,
            },
        }),
        Err(obstacle) => Err(obstacle),
    }
}

/// The subchannels at which another view is seen, with their live records. The configuration and
/// the numbers are those after a change, which gave these numbers. A place has the number that it
/// had, or was given one. So its cell is among those from before, or of the numbers given.
fn list_altered(
    alloc: Global,
    numbers: &Numbers,
    seats: &Seats,
    config: &Config,
    reach: &ReachTable,
    at: LookedAt,
    given: &[(Place, u16)],
) -> Result<Altered<Global>, AllocError>
    requires reach { IsReachOf config.now.records reach.now }
    requires changed { WasRenumbered config.now.records numbers.now.numbers seats.now.seats at given.now }
    requires images { AreImagesInOrder at }
    ensures changes { IfOk result (λ altered. altered.changes.items
        ≡ seen_changes config.now.records numbers.now.numbers seats.now.seats) }
    ensures met { IfOk result (λ altered. altered.met.items
        ≡ lives_met (lives_seated seats.now.seats) altered.changes.items) }
{
    let mut cells = at.cells;
    list_given(&mut cells, given)?;
    let cells = sort_apart(cells)?;
    let tried = Tried {
        seats,
        config,
        numbers,
        reach,
    };
    list_changes(
        alloc,
        &tried,
        at.affected.images.as_slice(),
        cells.as_slice(),
    )
}

/// Puts the number cells of numbers that were given after those that are listed.
fn list_given(cells: &mut Vec<NumberCell>, given: &[(Place, u16)]) -> Result<(), AllocError>
    ensures { OnOk result (cells.new.items ≡ cells.old.items ++ cells_given given.now) }
{
    cells.reserve(given.len())?;
    for row in given {
        cells.push(NumberCell {
            css: row.0.css,
            set: row.0.set,
            number: row.1,
        })?;
    }
    Ok(())
}
