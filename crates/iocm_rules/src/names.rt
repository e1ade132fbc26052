ghost use Rattle.std.specs.Prelude.{◌≡◌, not, ◌||◌, ◌++◌};
ghost use Rattle.std.specs.List.{list_any};
ghost use Rattle.iocm_model.specs.Rules.EachRule as model;

use iocm_config::Config;
use iocm_lookup::{RecordKind, SubsystemImages, Wanted};
use iocm_record::{PathFields, Record, RecordBody};
use iocm_types::{Name, PathKind};
use std::alloc::Allocator;

/// V2: a name in the access or candidate list of a path is that of no image of the path's channel
/// subsystem.
#[derive(Drop)]
pub struct NameOfNoImage;

impl<A: Allocator> Wanted<A> for NameOfNoImage {
    ghost use Rattle.std.specs.Prelude.{refl};
    ghost use Rattle.iocm_model.specs.Rules.EachRule.{breaks_v2};
    ghost use Rattle.iocm_lookup.specs.OfKind.{only_paths};

    ghost wants = { λ s c r. breaks_v2 c r };

    ghost fits = { λ s c. Unit {0} };

    ghost place = { 4 };

    ghost of_kind = { λ s c. only_paths (breaks_v2 c)
        (λ _. refl) (λ _. refl) (λ _. refl) (λ _. refl) (λ _. refl) (λ _. refl) (λ _. refl) };

    fn kind(&self) -> RecordKind {
        RecordKind::Path
    }

    fn is_wanted(&self, config: &Config<A>, entry: &Record<A>) -> bool {
        match entry.body() {
            RecordBody::Path(path) => lists_stranger(config, path),
            _ => false,
        }
    }
}

/// Whether a name in one of a path's lists is that of no image of its channel subsystem.
fn lists_stranger<A: Allocator>(config: &Config<A>, path: &PathFields<A>) -> bool
    ensures { result ≡ list_any (λ name. not (model.is_image_in config.now.records path.now.css name))
        (path.now.access ++ path.now.candidates) }
{
    let images = SubsystemImages::new(config, path.css);
    has_stranger(&images, path.access.as_slice())
        || has_stranger(&images, path.candidates.as_slice())
}

/// Whether a name is that of no image of a channel subsystem.
#[tactic(auto, using(iocm_types::proofs::Any::any_steps))]
fn has_stranger<A: Allocator>(images: &SubsystemImages<'_, A>, names: &[Name]) -> bool
    ensures { result ≡ list_any (λ name. not (model.is_image_in images.now.records images.now.css name)) names.now }
{
    for name in names {
        if !images.has(*name) {
            return true;
        }
    }
    false
}

/// V3: a dedicated path, which is one without SHARED and REC, that more than one name reaches, or a
/// REC path with more than one name in its access list. Own; what SHARED and REC mean is the CHPID
/// statement's.
#[derive(Drop)]
pub struct TooManyNames;

impl<A: Allocator> Wanted<A> for TooManyNames {
    ghost use Rattle.std.specs.Prelude.{refl};
    ghost use Rattle.iocm_model.specs.Rules.EachRule.{breaks_v3};
    ghost use Rattle.iocm_lookup.specs.OfKind.{only_paths};

    ghost wants = { λ s c r. breaks_v3 c r };

    ghost fits = { λ s c. Unit {0} };

    ghost place = { 4 };

    ghost of_kind = { λ s c. only_paths (breaks_v3 c)
        (λ _. refl) (λ _. refl) (λ _. refl) (λ _. refl) (λ _. refl) (λ _. refl) (λ _. refl) };

    fn kind(&self) -> RecordKind {
        RecordKind::Path
    }

    fn is_wanted(&self, _config: &Config<A>, entry: &Record<A>) -> bool {
        match entry.body() {
            RecordBody::Path(path) => has_too_many_names(path),
            _ => false,
        }
    }
}

/// Whether a path has more names in its lists than one of its kind may.
fn has_too_many_names<A: Allocator>(path: &PathFields<A>) -> bool
    ensures { result ≡ model.breaks_v3_by_kind path.now.kind path.now.access path.now.candidates }
{
    let access = path.access.as_slice();
    match path.kind {
        PathKind::Dedicated => has_two_names(access, path.candidates.as_slice()),
        PathKind::Reconfigurable => has_two_names(access, &[]),
        PathKind::Shared => false,
    }
}

/// Whether of the names in two lists two differ.
#[tactic(auto, using(crate::proofs::NameLists::two_names))]
fn has_two_names(access: &[Name], candidates: &[Name]) -> bool
    ensures { result ≡ model.has_two_names (access.now ++ candidates.now) }
{
    let in_access = any_differs_in(access, access, candidates);
    let in_candidates = any_differs_in(candidates, access, candidates);
    in_access || in_candidates
}

/// Whether one of these names differs from one in two lists.
fn any_differs_in(names: &[Name], access: &[Name], candidates: &[Name]) -> bool
    ensures { result ≡ (list_any (λ a. list_any (λ b. not (model.same_name a b)) access.now) names.now
        || list_any (λ a. list_any (λ b. not (model.same_name a b)) candidates.now) names.now) }
{
    any_differs(names, access) || any_differs(names, candidates)
}

/// Whether one of these names differs from one of the others.
#[tactic(auto, using(iocm_types::proofs::Any::any_steps))]
fn any_differs(names: &[Name], others: &[Name]) -> bool
    ensures { result ≡ list_any (λ a. list_any (λ b. not (model.same_name a b)) others.now) names.now }
{
    for name in names {
        if differs_from_any(*name, others) {
            return true;
        }
    }
    false
}

/// Whether a name differs from one of these.
#[tactic(auto, using(iocm_types::proofs::Any::any_steps))]
fn differs_from_any(name: Name, others: &[Name]) -> bool
    ensures { result ≡ list_any (λ b. not (model.same_name name b)) others.now }
{
    for other in others {
        if name != *other {
            return true;
        }
    }
    false
}
