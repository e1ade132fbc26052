ghost use Rattle.std.specs.Prelude.{◌≡◌, ◌||◌, ℕ, List, true, false, IfSome};
ghost use Rattle.std.specs.Option.{option_map_or};
ghost use Rattle.iocm_model.specs.Rules.EachRule as model;
ghost use Rattle.iocm_lookup.specs.Images as images;

use crate::images::{before_images, is_image_in, is_past_images};
use arrayvec::ArrayVec;
use iocm_config::Config;
use iocm_record::{Record, RecordBody};
use iocm_types::{Css, Name};
use std::alloc::Allocator;
use std::marker::Model;

/// The most names that are kept in place. A channel subsystem has 15 images at the most.
const KEPT: usize = 16;

/// The images of a channel subsystem, of which many names are asked. Their names are kept in place.
/// Contracts see the configuration and the channel subsystem.
#[derive(Drop)]
pub struct SubsystemImages<'a, A: Allocator> {
    config: &'a Config<A>,
    css: Css,
    /// Their names, where there is room for all.
    names: Option<ArrayVec<Option<Name>, KEPT>>,
}

impl<'a, A: Allocator> Model for SubsystemImages<'a, A> {
    ghost use Rattle.std.specs.Prelude.{ℕ, refl, IfSome};
    ghost use Rattle.std.specs.FinMap as map;
    ghost use Rattle.std.specs.Coded.{code_by, coded×, codes};
    ghost use Rattle.iocm_model.specs.Machine.Configuration.{Configuration};
    ghost use Rattle.iocm_lookup.specs.Images.{Subsystem, AreNamesIn};

    ghost Value = { Subsystem };

    ghost coded = { code_by (Configuration × ℕ)
        (coded× (map.code (Prim.hlevel codes) (Prim.hlevel codes)) (Prim.hlevel codes))
        (λ s. (s.records, s.css)) (λ p. record { records = p.0; css = p.1 }) (λ _. refl) };

    ghost view = { λ s. record { records = s.config.now.records; css = s.css } };

    ghost invariant = { λ s. IfSome s.names (λ names. AreNamesIn s.config.now.records s.css names.items) };
}

impl<'a, A: Allocator> SubsystemImages<'a, A> {
    /// Those of a channel subsystem. The time is that of a search, and of a walk over them.
    pub fn new(config: &'a Config<A>, css: Css) -> Self
        ensures { result ≡ record { records = config.entry.now.records; css = css } }
    {
        SubsystemImages {
            config,
            css,
            names: names_in(config, css),
        }
    }

    /// Whether a name is that of one of them.
    pub fn has(&self, name: Name) -> bool
        ensures { result ≡ model.is_image_in self.now.records self.now.css name }
    {
        match &self.names {
            Some(names) => has_name(names.as_slice(), name),
            None => is_image_in(self.config, self.css, name),
        }
    }
}

/// The names of the images of a channel subsystem, if there is room for all.
fn names_in<A: Allocator>(config: &Config<A>, css: Css) -> Option<ArrayVec<Option<Name>, KEPT>>
    ensures { IfSome result (λ names. images.AreNamesIn config.now.records css names.items) }
{
    config.has_own_keys();
    let mut names = ArrayVec::new();
    for (key, entry) in config.walk_from(&before_images(css)) {
        if is_past_images(key, css) {
            return Some(names);
        }
        if !has_room_for(&mut names, name_in(entry, css)) {
            return None;
        }
    }
    Some(names)
}

/// The name of a record, if it is that of an image of a channel subsystem.
fn name_in<A: Allocator>(entry: &Record<A>, css: Css) -> Option<Name>
    ensures { (name : List ℕ) → images.is_named name result ≡ images.is_named_in css name entry.now }
{
    match entry.body() {
        RecordBody::Image(own, _, name) if *own == css => Some(*name),
        _ => None,
    }
}

/// Puts a name at the end, and answers whether there was room for it.
fn has_room_for(names: &mut ArrayVec<Option<Name>, KEPT>, own: Option<Name>) -> bool
    ensures { result ≡ true → (name : List ℕ)
        → images.has_name name names.new.items ≡ (images.has_name name names.old.items || images.is_named name own) }
{
    names.try_push(own).is_ok()
}

/// Whether a name is among these.
#[tactic(auto, using(iocm_types::proofs::Any::any_steps))]
fn has_name(names: &[Option<Name>], name: Name) -> bool
    ensures { result ≡ images.has_name name names.now }
{
    for own in names {
        if is_named(own, name) {
            return true;
        }
    }
    false
}

/// Whether a name is this one.
fn is_named(own: &Option<Name>, name: Name) -> bool
    ensures { result ≡ images.is_named name own.now }
{
    match own {
        Some(other) => name.cmp(other).is_eq(),
        None => false,
    }
}
