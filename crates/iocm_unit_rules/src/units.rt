ghost use Rattle.std.specs.Prelude.{◌≡◌, ◌==◌, filter, nat_lt, is_none, length};
ghost use Rattle.std.specs.List.{list_any};
ghost use Rattle.iocm_types.specs.declared.css_path.CssPath as css_path;
ghost use Rattle.iocm_types.specs.declared.link.CssLink as css_link;
ghost use Rattle.iocm_types.specs.declared.key.Key.TheVariants as key;
ghost use Rattle.iocm_model.specs.Machine.Configuration.{lookup_of};
ghost use Rattle.iocm_model.specs.Machine.Numbering as numbering;
ghost use Rattle.iocm_model.specs.Machine.PathList.{paths_in};
ghost use Rattle.iocm_model.specs.Machine.Record.{unit};
ghost use Rattle.iocm_model.specs.Rules.EachRule as model;
ghost use Rattle.iocm_record.specs.Meaning.{unit_of};
ghost use Rattle.iocm_unit_rules.specs.Links as unit_links;

use crate::path_lists::{count_in, has_path_twice};
use iocm_config::Config;
use iocm_lookup::{RecordKind, Wanted, subsystems};
use iocm_record::{Record, RecordBody, UnitFields};
use iocm_types::{Css, CssLink, CssPath, Key};
use std::alloc::Allocator;

/// V5: a unit with no path, over eight in one channel subsystem, one twice, or one that isn't
/// there. The limit of eight is that of the IOCP User's Guide, CNTLUNIT statement; the rest is own.
#[derive(Drop)]
pub struct WrongPaths;

impl<A: Allocator> Wanted<A> for WrongPaths {
    ghost use Rattle.std.specs.Prelude.{refl};
    ghost use Rattle.iocm_model.specs.Rules.EachRule.{breaks_v5};
    ghost use Rattle.iocm_lookup.specs.OfKind.{only_units};

    ghost wants = { λ s c r. breaks_v5 c r };

    ghost fits = { λ s c. Unit {0} };

    ghost place = { 5 };

    ghost of_kind = { λ s c. only_units (breaks_v5 c)
        (λ _. refl) (λ _. refl) (λ _. refl) (λ _. refl) (λ _. refl) (λ _. refl) (λ _. refl) };

    fn kind(&self) -> RecordKind {
        RecordKind::Unit
    }

    fn is_wanted(&self, config: &Config<A>, entry: &Record<A>) -> bool {
        match entry.body() {
            RecordBody::Unit(fields) => has_wrong_paths(config, fields),
            _ => false,
        }
    }
}

/// Whether a unit breaks V5.
fn has_wrong_paths<A: Allocator>(config: &Config<A>, fields: &UnitFields<A>) -> bool
    ensures { result ≡ model.breaks_v5 config.now.records (unit (unit_of fields.now)) }
{
    let paths = fields.paths.as_slice();
    let is_over = is_over_eight(paths);
    let is_twice = is_path_twice(paths);
    let is_missing = is_path_missing(config, paths);
    paths.len() == 0 || is_over || is_twice || is_missing
}

/// Whether over eight of these paths are in one channel subsystem.
#[tactic(auto, using(iocm_types::proofs::Any::any_steps))]
fn is_over_eight(paths: &[CssPath]) -> bool
    ensures { result ≡ list_any (λ css. nat_lt 8 (length (paths_in css paths.now))) numbering.subsystems }
{
    let all = subsystems();
    for css in all.as_slice() {
        if 8 < count_in(*css, paths) {
            return true;
        }
    }
    false
}

/// Whether one of these paths stands twice.
#[tactic(auto, using(iocm_types::proofs::Any::any_steps))]
fn is_path_twice(paths: &[CssPath]) -> bool
    ensures { result ≡ list_any (λ css. model.has_twice (paths_in css paths.now)) numbering.subsystems }
{
    let all = subsystems();
    for css in all.as_slice() {
        if has_path_twice(*css, paths) {
            return true;
        }
    }
    false
}

/// Whether one of these paths isn't there.
#[tactic(auto, using(iocm_types::proofs::Any::any_steps))]
fn is_path_missing<A: Allocator>(config: &Config<A>, paths: &[CssPath]) -> bool
    ensures { result ≡ list_any
        (λ (p : css_path.CssPath). is_none (lookup_of config.now.records (key.Path p.css p.path))) paths.now }
{
    for path in paths {
        if config.get(&Key::Path(path.css, path.path)).is_none() {
            return true;
        }
    }
    false
}

/// V6: in a channel subsystem with links a unit has another number of links than of paths. So the
/// first link is that of the first path, and so on (IOCP User's Guide, LINK keyword).
#[derive(Drop)]
pub struct WrongLinks;

impl<A: Allocator> Wanted<A> for WrongLinks {
    ghost use Rattle.std.specs.Prelude.{refl};
    ghost use Rattle.iocm_model.specs.Rules.EachRule.{breaks_v6};
    ghost use Rattle.iocm_lookup.specs.OfKind.{only_units};

    ghost wants = { λ s c r. breaks_v6 c r };

    ghost fits = { λ s c. Unit {0} };

    ghost place = { 5 };

    ghost of_kind = { λ s c. only_units (breaks_v6 c)
        (λ _. refl) (λ _. refl) (λ _. refl) (λ _. refl) (λ _. refl) (λ _. refl) (λ _. refl) };

    fn kind(&self) -> RecordKind {
        RecordKind::Unit
    }

    fn is_wanted(&self, _config: &Config<A>, entry: &Record<A>) -> bool {
        match entry.body() {
            RecordBody::Unit(fields) => {
                has_wrong_links(fields.paths.as_slice(), fields.links.as_slice())
            }
            _ => false,
        }
    }
}

/// Whether there are other than as many links as paths in a channel subsystem with links.
#[tactic(auto, using(iocm_types::proofs::Any::any_steps))]
fn has_wrong_links(paths: &[CssPath], links: &[CssLink]) -> bool
    ensures { result ≡ list_any (unit_links.has_other_links paths.now links.now) numbering.subsystems }
{
    let all = subsystems();
    for css in all.as_slice() {
        if has_other_links(*css, paths, links) {
            return true;
        }
    }
    false
}

/// Whether there are links in a channel subsystem, and other than as many as paths.
fn has_other_links(css: Css, paths: &[CssPath], links: &[CssLink]) -> bool
    ensures { result ≡ unit_links.has_other_links paths.now links.now css }
{
    let count = count_links(css, links);
    count != 0 && count != count_in(css, paths)
}

/// How many of these links are in a channel subsystem.
fn count_links(css: Css, links: &[CssLink]) -> usize
    ensures { result ≡ length (model.links_in css links.now) }
{
    count_of_css(css, links)
}

// How many of these links are of a channel subsystem.
fn count_of_css(css: Css, links: &[CssLink]) -> usize
    ensures { result ≡ length (filter (λ (l : css_link.CssLink). l.css == css) links.now) }
{
    links.iter().filter(|link| link.css == css).count()
}
