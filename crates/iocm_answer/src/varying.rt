ghost use Rattle.std.specs.Prelude.{◌≡◌, ◌++◌, [], IfOk, OnOk, option_map};
ghost use Rattle.std.specs.List.{flat_map, list_any};
ghost use Rattle.iocm_model.specs.Machine.Configuration.{lookup_of};
ghost use Rattle.iocm_list.specs.PathRows.{users_of};
ghost use Rattle.iocm_record.specs.Meaning.{path_of};
ghost use Rattle.iocm_difference_writer.specs.Runs.{actions_in};
ghost use Rattle.iocm_answer.specs.Answer.{Shows};
ghost use Rattle.iocm_answer.specs.declared.manner.Manner.{Manner};
ghost use Rattle.iocm_answer.specs.Commands.Vary as meaning;

use crate::Answer;
use iocm_command::Varied;
use iocm_config::Config;
use iocm_console::Refusal;
use iocm_difference_writer::difference_text;
use iocm_filter::{Filters, ImageWord, PathWord, means_path};
use iocm_list::users_of;
use iocm_lookup::{RecordKind, records_of_kind};
use iocm_record::{PathFields, Record, RecordBody};
use iocm_tree::Edit;
use iocm_types::{Css, Image, Key, Name};
use std::alloc::{AllocError, Global};

/// What is to be done, and with which configuration.
#[derive(Clone, Copy)]
struct Task<'a> {
    to: Varied,
    filters: &'a Filters,
    config: &'a Config,
}

/// `vary`: the change deck that takes the paths of a deck that are asked for offline for the images
/// that are asked for and to which they are online, or online for those that may use them and to which
/// they aren't. The paths come in the order of the words, each once. M1: memory ran out.
///
/// Promise: `vary` prints just the change deck that takes the paths offline, or online.
pub fn vary<'f>(
    alloc: Global,
    to: Varied,
    filters: &Filters,
    opened: &Config,
) -> Result<Answer<'f>, Refusal>
    ensures { (m : Manner) → Shows m result (meaning.varied_of to filters.now opened.now.records) }
{
    let task = Task {
        to,
        filters,
        config: opened,
    };
    let edits = edits_of(alloc, &task)?;
    Ok(Answer::Text(difference_text(alloc, None::<&Config>, &edits)?))
}

/// The edits of all paths, word by word.
#[tactic(auto, using(crate::proofs::Turns::turn_steps))]
fn edits_of(alloc: Global, task: &Task<'_>) -> Result<Vec<Edit>, AllocError>
    ensures { IfOk result (λ edits. actions_in edits.items
        ≡ meaning.varied_actions task.now.to task.now.filters.now task.now.config.now.records) }
{
    let words = task.filters.paths();
    let mut edits = Vec::new(alloc);
    for place in 0..words.len() {
        put_word(&mut edits, alloc, task, &words[..place], &words[place])?;
    }
    Ok(edits)
}

/// Puts the edits of the paths that a word means, and no word before it, behind others.
fn put_word(
    edits: &mut Vec<Edit>,
    alloc: Global,
    task: &Task<'_>,
    before: &[PathWord],
    word: &PathWord,
) -> Result<(), AllocError>
    ensures { OnOk result (actions_in edits.new.items ≡ actions_in edits.old.items
        ++ meaning.word_actions task.now.to task.now.filters.now task.now.config.now.records before.now word.now) }
{
    for entry in records_of_kind(task.config, RecordKind::Path) {
        put_record(edits, alloc, task, before, word, entry)?;
    }
    Ok(())
}

/// Puts the edits of the path of a record, if a word means it and no word before does.
fn put_record(
    edits: &mut Vec<Edit>,
    alloc: Global,
    task: &Task<'_>,
    before: &[PathWord],
    word: &PathWord,
    entry: &Record,
) -> Result<(), AllocError>
    ensures { OnOk result (actions_in edits.new.items ≡ actions_in edits.old.items
        ++ meaning.record_actions task.now.to task.now.filters.now task.now.config.now.records before.now word.now
        entry.now) }
{
    match entry.body() {
        RecordBody::Path(path) if is_first_to_mean(before, word, path) => {
            put_path(edits, alloc, task, path)
        }
        _ => Ok(()),
    }
}

/// Whether a word means a path that no word before it means.
fn is_first_to_mean(before: &[PathWord], word: &PathWord, path: &PathFields) -> bool
    ensures { result ≡ meaning.is_first_to_mean before.now word.now (path_of path.now) }
{
    means_path(word, path.css, path.number) && !is_meant_by_any(before, path)
}

fn is_meant_by_any(words: &[PathWord], path: &PathFields) -> bool
    ensures { result ≡ list_any (λ word. meaning.means word (path_of path.now)) words.now }
{
    words
        .iter()
        .any(|word| means_path(word, path.css, path.number))
}

/// Puts the edits of a path behind others, in the order of the names of its images.
fn put_path(
    edits: &mut Vec<Edit>,
    alloc: Global,
    task: &Task<'_>,
    path: &PathFields,
) -> Result<(), AllocError>
    ensures { OnOk result (actions_in edits.new.items ≡ actions_in edits.old.items
        ++ flat_map (meaning.pair_actions task.now.to task.now.filters.now task.now.config.now.records
        (path_of path.now)) (users_of (path_of path.now))) }
{
    let names = users_of(alloc, path)?;
    for name in &names {
        put_pair(edits, alloc, task, path, *name)?;
    }
    Ok(())
}

/// Puts the edit of a path and one of its images behind others, if there is one.
fn put_pair(
    edits: &mut Vec<Edit>,
    alloc: Global,
    task: &Task<'_>,
    path: &PathFields,
    name: Name,
) -> Result<(), AllocError>
    ensures { OnOk result (actions_in edits.new.items ≡ actions_in edits.old.items
        ++ meaning.pair_actions task.now.to task.now.filters.now task.now.config.now.records (path_of path.now) name) }
{
    if !wants_name(task, path.css, name) {
        return Ok(());
    }
    let key = Key::Online(path.css, path.number, name);
    match (task.to, task.config.get(&key)) {
        (Varied::Offline, Some(_)) => Ok(edits.push(Edit::delete(alloc, key))?),
        (Varied::Online, None) => {
            let pair = Record::new(RecordBody::Online(path.css, path.number, name));
            Ok(edits.push(Edit::add(alloc, pair))?)
        }
        _ => Ok(()),
    }
}

/// Whether no image is asked for, or the one of this name in a channel subsystem is.
fn wants_name(task: &Task<'_>, css: Css, name: Name) -> bool
    ensures { result ≡ meaning.wants_name task.now.filters.now task.now.config.now.records css name }
{
    let words = task.filters.images();
    words.is_empty() || is_named_by_any(task.config, css, name, words)
}

fn is_named_by_any(config: &Config, css: Css, name: Name, words: &[ImageWord]) -> bool
    ensures { result ≡ list_any (meaning.is_named_by config.now.records css name) words.now }
{
    words
        .iter()
        .any(|word| is_named_by(config, css, name, word))
}

/// Whether a word means the image of this name in a channel subsystem.
fn is_named_by(config: &Config, css: Css, name: Name, word: &ImageWord) -> bool
    ensures { result ≡ meaning.is_named_by config.now.records css name word.now }
{
    match word {
        ImageWord::Named(own) => name == *own,
        ImageWord::Place(image) => image.css == css && has_own_name(config, image, name),
    }
}

/// Whether a configuration has an image of this name at a place.
fn has_own_name(config: &Config, image: &Image, name: Name) -> bool
    ensures { result ≡ meaning.has_own_name name
        (lookup_of config.now.records (Key.Image image.now.css image.now.mif)) }
{
    match config.get(&Key::Image(image.css, image.mif)) {
        Some(entry) => is_named(entry, name),
        None => false,
    }
}

/// Whether a record is that of an image of this name.
fn is_named(entry: &Record, name: Name) -> bool
    ensures { result ≡ meaning.has_own_name name (Some entry.now) }
{
    match entry.body() {
        RecordBody::Image(_, _, own) => name == *own,
        _ => false,
    }
}
