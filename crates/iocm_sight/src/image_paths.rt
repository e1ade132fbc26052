ghost use Rattle.std.specs.Prelude.{◌≡◌, length};
ghost use Rattle.std.specs.List.{list_any};
ghost use Rattle.iocm_model.specs.Machine.Configuration.{lookup_of};
ghost use Rattle.iocm_model.specs.Machine.Mask as mask;
ghost use Rattle.iocm_model.specs.Machine.PathList.{paths_in, unit_paths};
ghost use Rattle.iocm_model.specs.Machine.Record.{ImageRecord};
ghost use Rattle.iocm_model.specs.Machine.Sight as model;
ghost use Rattle.iocm_filter.specs.Wanted.{one_if_asked};
ghost use Rattle.iocm_sight.specs.Counts as meaning;

use iocm_config::Config;
use iocm_derive::lists_image;
use iocm_filter::{Filters, PathWord};
use iocm_record::RecordBody;
use iocm_types::{Chpid, Css, CssPath, Key, Name, UnitNo};

/// How many paths an image may use. One search for each path number.
#[tactic(auto, using(crate::proofs::PathNumbers::path_steps))]
pub fn count_paths(config: &Config, css: Css, name: Name) -> u32
    ensures { result ≡ length (meaning.paths_of (lookup_of config.now.records) css name) }
{
    let mut count = 0;
    for number in 0u16..256 {
        if reaches(config, css, name, Chpid::new(number as u8)) {
            count += 1;
        }
    }
    count
}

/// How many of them are online to it.
#[tactic(auto, using(crate::proofs::PathNumbers::path_steps))]
pub fn count_online(config: &Config, css: Css, name: Name) -> u32
    ensures { result ≡ length (meaning.online_of (lookup_of config.now.records) css name) }
{
    let mut count = 0;
    for number in 0u16..256 {
        let path = Chpid::new(number as u8);
        if reaches(config, css, name, path) && is_online(config, css, name, path) {
            count += 1;
        }
    }
    count
}

/// Whether the image of a name reaches a path of its channel subsystem.
pub(crate) fn reaches(config: &Config, css: Css, name: Name, path: Chpid) -> bool
    ensures { result ≡ model.reaches (lookup_of config.now.records) css name path }
{
    match config.get(&Key::Path(css, path)) {
        Some(entry) => lists_image(entry, name),
        None => false,
    }
}

fn is_online(config: &Config, css: Css, name: Name, path: Chpid) -> bool
    ensures { result ≡ mask.is_online (lookup_of config.now.records) css name path }
{
    config.get(&Key::Online(css, path, name)).is_some()
}

/// Whether the image of a name reaches a path that is asked for, or none is.
pub fn reaches_asked(config: &Config, filters: &Filters, css: Css, name: Name) -> bool
    ensures { result
        ≡ one_if_asked (meaning.reaches_word (lookup_of config.now.records) css name) filters.now.paths }
{
    let words = filters.paths();
    words.is_empty() || reaches_any_word(config, css, name, words)
}

fn reaches_any_word(config: &Config, css: Css, name: Name, words: &[PathWord]) -> bool
    ensures { result ≡ list_any (meaning.reaches_word (lookup_of config.now.records) css name) words.now }
{
    words
        .iter()
        .any(|word| reaches_word(config, css, name, word))
}

fn reaches_word(config: &Config, css: Css, name: Name, word: &PathWord) -> bool
    ensures { result ≡ meaning.reaches_word (lookup_of config.now.records) css name word.now }
{
    match word.css {
        Some(own) => css == own && reaches(config, css, name, word.path),
        None => reaches(config, css, name, word.path),
    }
}

/// Whether it reaches a path of a control unit that is asked for, or none is.
pub fn reaches_asked_unit(config: &Config, filters: &Filters, css: Css, name: Name) -> bool
    ensures { result
        ≡ one_if_asked (meaning.reaches_unit (lookup_of config.now.records) css name) filters.now.units }
{
    let units = filters.units();
    units.is_empty() || reaches_any_unit(config, css, name, units)
}

fn reaches_any_unit(config: &Config, css: Css, name: Name, units: &[UnitNo]) -> bool
    ensures { result ≡ list_any (meaning.reaches_unit (lookup_of config.now.records) css name) units.now }
{
    units
        .iter()
        .any(|unit| reaches_unit(config, css, name, *unit))
}

/// Whether it reaches a path of a control unit.
fn reaches_unit(config: &Config, css: Css, name: Name, unit: UnitNo) -> bool
    ensures { result ≡ meaning.reaches_unit (lookup_of config.now.records) css name unit }
{
    let Some(entry) = config.get(&Key::Unit(unit)) else {
        return false;
    };
    match entry.body() {
        RecordBody::Unit(fields) => reaches_any(config, css, name, fields.paths.as_slice()),
        _ => false,
    }
}

fn reaches_any(config: &Config, css: Css, name: Name, paths: &[CssPath]) -> bool
    ensures { result ≡ list_any (model.reaches (lookup_of config.now.records) css name) (paths_in css paths.now) }
{
    for path in paths {
        if path.css == css && reaches(config, css, name, path.path) {
            return true;
        }
    }
    false
}
