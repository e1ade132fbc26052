ghost use Rattle.std.specs.Prelude.{◌≡◌, true, false, [], ◌∷◌, ◌++◌, nat_eq, replicate, IfSome, IsSome, IsNone};
ghost use Rattle.std.specs.List.{list_any};
ghost use Rattle.iocm_types.specs.declared.key.Key.TheVariants as key;
ghost use Rattle.iocm_model.specs.Machine.Configuration.{lookup_of};
ghost use Rattle.iocm_model.specs.Machine.Numbering as numbering;
ghost use Rattle.iocm_model.specs.Machine.PathList.{paths_in, path_list};
ghost use Rattle.iocm_device_rules.specs.Joining.{AreRight, AreJoined, IsWrongWith, is_wrong_list, all_paths};

use crate::alike::are_on_same_units;
use iocm_config::Config;
use iocm_lookup::{RecordKind, Wanted};
use iocm_record::{Record, RecordBody};
use iocm_types::{Chpid, CssPath, Key, Paths, UnitNo};
use std::alloc::Allocator;

/// V11: in some channel subsystem the path list of a device, the paths of its units there in the
/// order of CUNUMBR, is over eight or has a path twice. Own; the masks of a subchannel have eight
/// bits (Principles of Operation, path-installed mask).
#[derive(Drop)]
pub struct WrongPathList;

impl<A: Allocator> Wanted<A> for WrongPathList {
    ghost use Rattle.std.specs.Prelude.{refl};
    ghost use Rattle.iocm_model.specs.Rules.EachRule.{breaks_v11};
    ghost use Rattle.iocm_lookup.specs.OfKind.{only_devices};

    ghost wants = { λ s c r. breaks_v11 c r };

    ghost fits = { λ s c. Unit {0} };

    ghost place = { 6 };

    ghost of_kind = { λ s c. only_devices (breaks_v11 c)
        (λ _. refl) (λ _. refl) (λ _. refl) (λ _. refl) (λ _. refl) (λ _. refl) (λ _. refl) };

    fn kind(&self) -> RecordKind {
        RecordKind::Device
    }

    fn is_wanted(&self, config: &Config<A>, entry: &Record<A>) -> bool {
        match entry.body() {
            RecordBody::Device(fields) => is_list_wrong(config, fields.lists.units()),
            _ => false,
        }
    }

    fn is_like(&self, entry: &Record<A>, other: &Record<A>) -> bool {
        are_on_same_units(entry, other)
    }
}

/// Whether in some channel subsystem the path list of a device on these units is over eight or has
/// a path twice. Each unit is looked up once.
fn is_list_wrong<A: Allocator>(config: &Config<A>, units: &[UnitNo]) -> bool
    ensures { result ≡ list_any (λ css. is_wrong_list (path_list (lookup_of config.now.records) css units.now))
        numbering.subsystems }
{
    let mut lists = no_paths();
    for unit in units {
        if !join_paths(&mut lists, find_paths(config, *unit)) {
            return true;
        }
    }
    false
}

/// A list without paths for each channel subsystem.
fn no_paths() -> [Paths; 6]
    ensures { result ≡ replicate 6 [] }
{
    [Paths::new(); 6]
}

/// The paths of a unit in all channel subsystems; a unit that isn't there has none.
fn find_paths<A: Allocator>(config: &Config<A>, unit: UnitNo) -> &[CssPath]
    ensures { result.now ≡ all_paths (lookup_of config.now.records (key.Unit unit)) }
{
    let Some(entry) = config.get(&Key::Unit(unit)) else {
        return &[];
    };
    match entry.body() {
        RecordBody::Unit(fields) => fields.paths.as_slice(),
        _ => &[],
    }
}

/// Puts paths at the end of the lists of their channel subsystems, while each then is right.
/// Whether all are.
fn join_paths(lists: &mut [Paths; 6], more: &[CssPath]) -> bool
    requires { AreRight lists.old }
    ensures joined { result ≡ true → AreJoined lists.old lists.new (λ css. paths_in css more.now) }
    ensures wrong { result ≡ false → IsWrongWith lists.old (λ css. paths_in css more.now) }
{
    for path in more {
        if !join_path(lists, *path) {
            return false;
        }
    }
    true
}

/// Puts a path at the end of the list of its channel subsystem, if it then is right. Whether it is.
fn join_path(lists: &mut [Paths; 6], path: CssPath) -> bool
    requires { AreRight lists.old }
    ensures joined { result ≡ true → AreJoined lists.old lists.new (λ css. paths_in css (path ∷ [])) }
    ensures wrong { result ≡ false → IsWrongWith lists.old (λ css. paths_in css (path ∷ [])) }
{
    let place = usize::from(path.css.number());
    match with_path(&lists[place], path.path) {
        Some(list) => {
            lists[place] = list;
            true
        }
        None => false,
    }
}

/// A list with a path more at its end, if it then is right.
fn with_path(list: &Paths, path: Chpid) -> Option<Paths>
    ensures longer { IfSome result (λ longer. longer ≡ list.now ++ path ∷ []) }
    ensures kept { IsSome result → is_wrong_list (list.now ++ path ∷ []) ≡ is_wrong_list list.now }
    ensures wrong { IsNone result → is_wrong_list (list.now ++ path ∷ []) ≡ true }
{
    if list.is_full() || has_number(path, list.as_slice()) {
        return None;
    }
    let mut longer = *list;
    longer.push(path);
    Some(longer)
}

/// Whether a path is among these.
#[tactic(auto, using(iocm_types::proofs::Any::any_steps))]
fn has_number(number: Chpid, paths: &[Chpid]) -> bool
    ensures { result ≡ list_any (nat_eq number) paths.now }
{
    for path in paths {
        if number == *path {
            return true;
        }
    }
    false
}
