ghost use Rattle.std.specs.Prelude.{◌≡◌};
ghost use Rattle.std.specs.List.{list_any};
ghost use Rattle.iocm_model.specs.Machine.Configuration.{lookup_of};
ghost use Rattle.iocm_sight.specs.Connected.{means};
ghost use Rattle.iocm_sight.specs.Counts.{reaches_word};
ghost use Rattle.iocm_plan_filter.specs.Connected as meaning;

use crate::steps::{device_at, paths_of, reaches};
use iocm_config::Config;
use iocm_derive::name_of_image;
use iocm_filter::{Filters, PathWord, means_path};
use iocm_types::{Css, CssPath, DevNo, Image, Key, Mif, Name, SetNo, UnitNo};

/// Whether an object is connected with one of the paths that are asked for.
pub(crate) fn is_of_paths(filters: &Filters, config: &Config, key: &Key) -> bool
    ensures { result ≡ meaning.is_of_paths filters.now config.now.records key.now }
{
    is_of_any(config, filters.paths(), key)
}

/// Whether it is with one of these.
fn is_of_any(config: &Config, words: &[PathWord], key: &Key) -> bool
    ensures { result ≡ list_any (meaning.is_of_path (lookup_of config.now.records) key.now) words.now }
{
    words.iter().any(|word| is_of_path(config, key, word))
}

/// Whether it is with what this word means.
fn is_of_path(config: &Config, key: &Key, word: &PathWord) -> bool
    ensures { result ≡ meaning.is_of_path (lookup_of config.now.records) key.now word.now }
{
    match key {
        Key::Image(css, mif) => reaches_meant(config, *css, *mif, word),
        Key::Path(css, path) => means_path(word, *css, *path),
        Key::Unit(unit) => has_meant(config, word, *unit),
        Key::Device(set, number) => leads_over_meant(config, *set, *number, word),
        _ => false,
    }
}

/// Whether an image that is there reaches a path that a word means.
fn reaches_meant(config: &Config, css: Css, mif: Mif, word: &PathWord) -> bool
    ensures { result ≡ meaning.of_name_at (lookup_of config.now.records) css mif
        (λ name. reaches_word (lookup_of config.now.records) css name word.now) }
{
    match name_of_image(config, Image { css, mif }) {
        Some(name) => reaches_word(config, css, name, word),
        None => false,
    }
}

/// Whether the image of a name reaches a path that a word means.
fn reaches_word(config: &Config, css: Css, name: Name, word: &PathWord) -> bool
    ensures { result ≡ reaches_word (lookup_of config.now.records) css name word.now }
{
    match word.css {
        Some(own) => css == own && reaches(config, css, name, word.path),
        None => reaches(config, css, name, word.path),
    }
}

/// Whether a control unit has a path that a word means.
fn has_meant(config: &Config, word: &PathWord, unit: UnitNo) -> bool
    ensures { result ≡ meaning.has_meant (lookup_of config.now.records) word.now unit }
{
    is_any_meant(word, paths_of(config, unit))
}

fn is_any_meant(word: &PathWord, paths: &[CssPath]) -> bool
    ensures { result ≡ list_any (means word.now) paths.now }
{
    paths
        .iter()
        .any(|path| means_path(word, path.css, path.path))
}

/// Whether a device that is there names a control unit that has such a path.
fn leads_over_meant(config: &Config, set: SetNo, number: DevNo, word: &PathWord) -> bool
    ensures { result ≡ meaning.of_device_at (lookup_of config.now.records) set number
        (λ d. list_any (meaning.has_meant (lookup_of config.now.records) word.now) d.units) }
{
    match device_at(config, set, number) {
        Some(device) => has_any_meant(config, word, device.lists.units()),
        None => false,
    }
}

fn has_any_meant(config: &Config, word: &PathWord, units: &[UnitNo]) -> bool
    ensures { result ≡ list_any (meaning.has_meant (lookup_of config.now.records) word.now) units.now }
{
    units.iter().any(|unit| has_meant(config, word, *unit))
}
