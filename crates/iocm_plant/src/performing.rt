ghost use Rattle.std.specs.Prelude.{◌≡◌, [], is_some, None, Some, IfOk, IfErr, OnOk, OnErr, if◌then◌else◌};
ghost use Rattle.std.specs.FinMap as map;
ghost use Rattle.std.specs.Option.{option_copied};
ghost use Rattle.std.specs.List.Sorted.{IsStrictlySortedBy};
ghost use Rattle.iocm_types.specs.Key.{key_cmp};
ghost use Rattle.iocm_types.specs.Naming.{naming_cmp};
ghost use Rattle.iocm_types.specs.Place.{place_cmp};
ghost use Rattle.iocm_types.specs.SubId.{image_cmp};
ghost use Rattle.iocm_types.specs.declared.refused.At.TheVariants as at;
ghost use Rattle.iocm_types.specs.declared.rule.Rule as rules;
ghost use Rattle.iocm_table.specs.Slots.{rows};
ghost use Rattle.iocm_model.specs.Change.Edit.{action_key, config_after, record_after};
ghost use Rattle.iocm_model.specs.Change.Refusal.{refusal_at, refusal_by_key, refusal_of};
ghost use Rattle.iocm_affected.specs.Affected.{AreAllAffected};
ghost use Rattle.iocm_lookup.specs.Indexed.{IsIndexOf};
ghost use Rattle.iocm_numbers.specs.LookedAt.{cells_at};
ghost use Rattle.iocm_tree.specs.Carried.{action_of};
ghost use Rattle.iocm_plant.specs.Alike.{IsPutAlike};
ghost use Rattle.iocm_plant.specs.Operating.{HasNamingRoom, HasPlaceIn, KeepsPlaces, KeepsRoom};
ghost use Rattle.iocm_plant.specs.Performing.{HasMadeOrder, Performs, made_of};
ghost use Rattle.iocm_plant.specs.Refusing.{refusal_when, Hinders, IsDue};
ghost use Rattle.iocm_plant.specs.declared.alike.Likeness.TheVariants.{Alike};
ghost use Rattle.iocm_plant.specs.declared.quiet.Quiet.TheVariants as quiet;

use crate::alike::{Likeness, likeness_of};
use crate::following::{Brought, Followed, LookedAt, Told, follow};
use crate::obstacle::Obstacle;
use crate::quiet::Quiet;
use crate::record::{change_back, exchange_known};
use crate::{Applied, Plant};
use iocm_affected::{Affected, affected_by};
use iocm_config::Config;
use iocm_index::Index;
use iocm_numbers::{Numbers, Renumbered};
use iocm_record::Record;
use iocm_tree::{Action, Edit, Parts, Verb};
use iocm_types::{At, Key, Refused, Rule};
use std::alloc::{AllocError, Global};

impl Plant {
    /// Performs an edit, and gives the edit that takes it back with what it did.
    ///
    /// Refused by the first that applies: E1 (add, the key is there), E2 (delete or modify, it
    /// isn't), E4 (a number that comes along is taken), B1 (an altered subchannel isn't quiet; the
    /// least is named). M1, which may stand in place of any other: memory ran out. A refused
    /// edit leaves the state as it was.
    ///
    /// Promise: an edit is performed exactly, or it is refused and nothing is changed.
    pub fn apply(&mut self, alloc: Global, edit: Edit) -> Result<Applied, Refused>
        ensures accepted { OnOk result (refusal_of edit.edit self.old.state ≡ None) }
        ensures refused { IfErr result (IsDue (refusal_of edit.edit self.old.state)) }
        ensures performs { IfOk result (λ applied. Performs edit.edit self.old applied self.new) }
        ensures same { OnErr result (self.new.state ≡ self.old.state) }
        ensures room { KeepsRoom self.old.room self.new.room }
    {
        match self.perform(alloc, edit, Quiet::Wanted) {
            Ok(applied) => Ok(applied),
            Err(obstacle) => Err(obstacle.refusal()),
        }
    }

    /// Performs an edit as `apply` does, also where altered subchannels are busy or status pending:
    /// it isn't refused by B1.
    pub fn force(&mut self, alloc: Global, edit: Edit) -> Result<Applied, Refused>
        ensures accepted { OnOk result (refusal_when quiet.Whatever edit.edit self.old.state ≡ None) }
        ensures refused { IfErr result (IsDue (refusal_when quiet.Whatever edit.edit self.old.state)) }
        ensures performs { IfOk result (λ applied. Performs edit.edit self.old applied self.new) }
        ensures same { OnErr result (self.new.state ≡ self.old.state) }
        ensures room { KeepsRoom self.old.room self.new.room }
    {
        match self.perform(alloc, edit, Quiet::Whatever) {
            Ok(applied) => Ok(applied),
            Err(obstacle) => Err(obstacle.refusal()),
        }
    }

    /// Performs an edit, where altered subchannels are wanted quiet or not.
    fn perform(&mut self, alloc: Global, edit: Edit, quiet: Quiet) -> Result<Applied, Obstacle>
        ensures accepted { OnOk result (refusal_when quiet edit.edit self.old.state ≡ None) }
        ensures refused { IfErr result (Hinders (refusal_when quiet edit.edit self.old.state)) }
        ensures performs { IfOk result (λ applied. Performs edit.edit self.old applied self.new) }
        ensures same { OnErr result (self.new.state ≡ self.old.state) }
        ensures room { KeepsRoom self.old.room self.new.room }
    {
        // For the proof alone: whatever is there has a place.
        self.numbers.have_room();
        self.index.has_places();
        self.seats.has_places();
        let key = edit.key();
        let before = self.config.get(&key);
        if let Some(why) = key_refusal(before, &edit) {
            return Err(Obstacle::Refused(why));
        }
        let likeness = likeness_of(before, edit.after());
        let at = prepare(
            alloc,
            &mut self.config,
            &mut self.index,
            &self.numbers,
            &edit,
            likeness,
        )?;
        let Parts {
            action,
            places,
            kept,
            frees: _frees,
            meets: _meets,
        } = edit.into_parts();
        let brought = Brought {
            key,
            places,
            kept,
            quiet,
        };
        let back = exchange_known(&mut self.config, &mut self.index, action, likeness);
        self.reach.renew(&self.config, &key);
        match follow(
            alloc,
            &mut self.numbers,
            &mut self.seats,
            &self.config,
            &self.reach,
            at,
            brought,
        ) {
            Ok(followed) => Ok(applied(back, followed)),
            Err(obstacle) => {
                change_back(&mut self.config, &mut self.index, back);
                self.reach.renew(&self.config, &key);
                Err(obstacle)
            }
        }
    }
}

/// E1 or E2, if what stands under the key of an edit is in its way.
fn key_refusal(before: Option<&Record>, edit: &Edit) -> Option<Refused>
    ensures { result ≡ refusal_by_key edit.now.edit.action (is_some (option_copied before.entry)) }
{
    let key = edit.key();
    let is_there = before.is_some();
    match edit.verb() {
        Verb::Add => refusal_if(is_there, Rule::E1, key),
        Verb::Delete => refusal_if(!is_there, Rule::E2, key),
        Verb::Modify => refusal_if(!is_there, Rule::E2, key),
    }
}

/// A refusal about a key, where something is so.
fn refusal_if(is_so: bool, rule: Rule, key: Key) -> Option<Refused>
    ensures { result ≡ (if is_so then Some (refusal_at rule (at.Key key)) else None) }
{
    if !is_so {
        return None;
    }
    Some(Refused::about(rule, At::Key(key)))
}

/// Where an edit is looked for; and places for its key and for what its record names.
fn prepare(
    alloc: Global,
    config: &mut Config,
    index: &mut Index,
    numbers: &Numbers,
    edit: &Edit,
    likeness: Likeness,
) -> Result<LookedAt, AllocError>
    requires index { IsIndexOf config.old.records index.old }
    requires alike { likeness ≡ Alike → IsPutAlike
        (map.get config.old.records (action_key edit.now.edit.action)) (record_after edit.now.edit.action) }
    ensures affected { IfOk result (λ at. AreAllAffected config.old.records
        (config_after edit.now.edit.action config.old.records) at.affected.places.items at.affected.images.items) }
    ensures places { IfOk result (λ at. IsStrictlySortedBy place_cmp at.affected.places.items) }
    ensures images { IfOk result (λ at. IsStrictlySortedBy image_cmp at.affected.images.items) }
    ensures cells { IfOk result (λ at. at.cells.items ≡ cells_at numbers.now.numbers at.affected.places.items) }
    ensures config { config.new.records ≡ config.old.records }
    ensures index { rows naming_cmp index.new ≡ rows naming_cmp index.old }
    ensures key { OnOk result (HasPlaceIn key_cmp config.new.places (action_key edit.now.edit.action)) }
    ensures namings { OnOk result (HasNamingRoom index.new.places (record_after edit.now.edit.action)) }
    ensures same_keys { KeepsPlaces key_cmp config.old.places config.new.places }
    ensures same_namings { KeepsPlaces naming_cmp index.old.places index.new.places }
{
    let at = look(alloc, config, index, numbers, edit, likeness)?;
    make_record_places(config, index, edit, likeness)?;
    Ok(at)
}

/// Where an edit is looked for: nowhere, where it puts a device in the place of one that is seen
/// alike and names the same things.
fn look(
    alloc: Global,
    config: &Config,
    index: &Index,
    numbers: &Numbers,
    edit: &Edit,
    likeness: Likeness,
) -> Result<LookedAt, AllocError>
    requires index { IsIndexOf config.now.records index.now }
    requires alike { likeness ≡ Alike → IsPutAlike
        (map.get config.now.records (action_key edit.now.edit.action)) (record_after edit.now.edit.action) }
    ensures affected { IfOk result (λ at. AreAllAffected config.now.records
        (config_after edit.now.edit.action config.now.records) at.affected.places.items at.affected.images.items) }
    ensures places { IfOk result (λ at. IsStrictlySortedBy place_cmp at.affected.places.items) }
    ensures images { IfOk result (λ at. IsStrictlySortedBy image_cmp at.affected.images.items) }
    ensures cells { IfOk result (λ at. at.cells.items ≡ cells_at numbers.now.numbers at.affected.places.items) }
{
    if let Likeness::Alike = likeness {
        // For the proof alone: each record stands under its own key.
        config.has_own_keys();
        return Ok(nowhere(alloc));
    }
    let key = edit.key();
    let affected = affected_by(alloc, config, index, &key, edit.after())?;
    let mut cells = Vec::new(alloc);
    numbers.list_cells(&mut cells, affected.places.as_slice())?;
    Ok(LookedAt { affected, cells })
}

/// No place, no image and no number cell.
fn nowhere(alloc: Global) -> LookedAt
    ensures places { result.affected.places.items ≡ [] }
    ensures images { result.affected.images.items ≡ [] }
    ensures cells { result.cells.items ≡ [] }
{
    LookedAt {
        affected: Affected {
            places: Vec::new(alloc),
            images: Vec::new(alloc),
        },
        cells: Vec::new(alloc),
    }
}

/// Gives the key of an edit and what its record names places, where they have none. They have them
/// where it puts a device in the place of one that names the same things.
fn make_record_places(
    config: &mut Config,
    index: &mut Index,
    edit: &Edit,
    likeness: Likeness,
) -> Result<(), AllocError>
    requires index { IsIndexOf config.old.records index.old }
    requires alike { likeness ≡ Alike → IsPutAlike
        (map.get config.old.records (action_key edit.now.edit.action)) (record_after edit.now.edit.action) }
    ensures config { config.new.records ≡ config.old.records }
    ensures index { rows naming_cmp index.new ≡ rows naming_cmp index.old }
    ensures key { OnOk result (HasPlaceIn key_cmp config.new.places (action_key edit.now.edit.action)) }
    ensures namings { OnOk result (HasNamingRoom index.new.places (record_after edit.now.edit.action)) }
    ensures same_keys { KeepsPlaces key_cmp config.old.places config.new.places }
    ensures same_namings { KeepsPlaces naming_cmp index.old.places index.new.places }
{
    if let Likeness::Alike = likeness {
        // For the proof alone: whatever is there has a place, and each record stands under its own
        // key.
        config.has_places();
        config.has_own_keys();
        index.has_places();
        return Ok(());
    }
    config.room(edit.key())?;
    if let Some(entry) = edit.after() {
        index.room(entry)?;
    }
    Ok(())
}

/// What is told of an edit that was performed, with the edit that takes it back.
fn applied(back: Action, followed: Followed) -> Applied
    requires { HasMadeOrder followed }
    ensures inverse { result.inverse ≡ made_of (action_of back) followed }
    ensures touched { result.touched ≡ followed.told.touched }
{
    let Followed { renumbered, told } = followed;
    let Renumbered { freed, given } = renumbered;
    let Told {
        kept,
        meets,
        touched,
    } = told;
    let inverse = Edit::from_parts(Parts {
        action: back,
        places: freed,
        kept,
        frees: given,
        meets,
    });
    Applied { inverse, touched }
}
