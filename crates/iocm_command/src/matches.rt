ghost use Rattle.std.specs.Prelude.{◌≡◌, IfOk, IfSome, IsSome, codes, is_none, is_some, nat_eq};
ghost use Rattle.std.specs.Cmp.Lexicographic.{pointwise};
ghost use Rattle.clap.specs.Walk.{texts};
ghost use Rattle.clap.specs.Words.{first_of, subcommand_rows_of};
ghost use Rattle.iocm_filter.specs.Words.{words_of};
ghost use Rattle.iocm_statements.specs.Unread.{Reads};
ghost use Rattle.iocm_command.specs.CommandLine as meaning;
ghost use Rattle.iocm_command.specs.CommandLine.{GivesSize, IsSizeText, meant_of, rows_in, understood_of, values_under};

use crate::argument::{LARGEST_HEAP, LEAST_HEAP};
use crate::changes::{apply_in, diff_in, plan_in};
use crate::{Breaches, Command, Listed, Understood, Varied};
use clap::ArgMatches;
use iocm_filter::{FilterWords, Filters, Misread};
use iocm_lines::Form;
use iocm_statements::Unread;
use std::alloc::{AllocError, Global};
use std::fmt;

/// The value of an argument.
pub(crate) fn value_of<'a>(found: &ArgMatches<'a>, argument: &str) -> Result<&'a str, Unread>
    ensures { Reads (λ v. v.now) result (first_of argument.now (rows_in found.now)) }
{
    match found.get_str(argument) {
        Some(value) => Ok(value),
        None => Err(Unread::Malformed),
    }
}

/// All values of an argument, in the order of the words.
fn all_of<'m, 'a>(found: &'m ArgMatches<'a>, argument: &str) -> &'m [&'a str]
    ensures { texts result.now ≡ values_under argument.now (rows_in found.now) }
{
    let Some(values) = found.get_strs(argument) else {
        return Default::default();
    };
    values
}

/// A vector of them.
fn values_of<'a>(
    alloc: Global,
    found: &ArgMatches<'a>,
    argument: &str,
) -> Result<Vec<&'a str>, AllocError>
    ensures { IfOk result (λ values. texts values.items ≡ values_under argument.now (rows_in found.now)) }
{
    Vec::from_slice(alloc, all_of(found, argument))
}

/// Whether a flag is given.
pub(crate) fn is_given(found: &ArgMatches<'_>, flag: &str) -> bool
    ensures { result ≡ meaning.is_given flag.now (rows_in found.now) }
{
    match found.get_str(flag) {
        Some(value) => is_true(value),
        None => false,
    }
}

/// Whether a value is that of a flag that is given.
fn is_true(value: &str) -> bool
    ensures { result ≡ pointwise nat_eq value.now (codes "true") }
{
    value == "true"
}

/// The size of a heap that a text gives, if it gives one.
fn heap_size(text: &str) -> Option<u32>
    ensures some { IfSome result (GivesSize text.now) }
    ensures only { IsSizeText text.now → IsSome result }
{
    match text.parse::<u32>() {
        Ok(size) if LEAST_HEAP <= size && size <= LARGEST_HEAP => Some(size),
        _ => None,
    }
}

/// The size of the heap that change trees are read in, if one is given.
pub(crate) fn heap_in(found: &ArgMatches<'_>) -> Result<Option<u32>, Unread>
    ensures { Reads (λ size. size) result (meaning.heap_in (rows_in found.now)) }
{
    let Some(text) = found.get_str("heap") else {
        return Ok(None);
    };
    match heap_size(text) {
        Some(size) => Ok(Some(size)),
        None => Err(Unread::Malformed),
    }
}

/// Which breaches are asked for.
fn breaches_in(found: &ArgMatches<'_>) -> Breaches
    ensures { result ≡ meaning.breaches_in (rows_in found.now) }
{
    if is_given(found, "all") {
        Breaches::All
    } else {
        Breaches::First
    }
}

/// The form in which is printed.
fn form_in(found: &ArgMatches<'_>) -> Form
    ensures { result ≡ meaning.form_in (rows_in found.now) }
{
    if is_given(found, "json") {
        Form::Json
    } else {
        Form::Text
    }
}

/// The words of filters.
fn filter_words<'m, 'a>(found: &'m ArgMatches<'a>) -> FilterWords<'m, 'a>
    ensures { words_of result ≡ meaning.filter_words_in (rows_in found.now) }
{
    FilterWords {
        images: all_of(found, "image"),
        devices: all_of(found, "device"),
        units: all_of(found, "unit"),
        paths: all_of(found, "path"),
        online: all_of(found, "paths-online"),
    }
}

/// The filters, if all have their forms.
pub(crate) fn filters_in(alloc: Global, found: &ArgMatches<'_>) -> Result<Filters, Unread>
    ensures { Reads (λ f. f) result (meaning.filters_in (rows_in found.now)) }
{
    Filters::of_words(alloc, &filter_words(found))
}

/// A word that has none of its forms.
#[derive(Clone, Copy)]
pub(crate) enum MisreadWord<'a> {
    /// What becomes of paths.
    State(&'a str),
    /// What is listed.
    Kind(&'a str),
    /// A value of a filter.
    Filter(Misread<'a>),
}

impl<'a> fmt::Display for MisreadWord<'a> {
    fn fmt<W: fmt::Write>(&self, f: &mut fmt::Formatter<W>) -> fmt::Result {
        match self {
            MisreadWord::State(word) => write!(
                f,
                "{word}: not a state of paths: offline, or online"
            ),
            MisreadWord::Kind(word) => {
                write!(
                    f,
                    "{word}: not a kind that is listed: images, paths, units, or devices"
                )
            }
            MisreadWord::Filter(misread) => write!(f, "{misread}"),
        }
    }
}

/// The first word of another form.
pub(crate) fn misread_in<'a>(matches: &ArgMatches<'a>) -> Option<MisreadWord<'a>>
    ensures { is_some result ≡ meaning.is_misread (subcommand_rows_of matches.now) }
{
    let (_, found) = matches.subcommand()?;
    if is_misread_state(found) {
        return Some(MisreadWord::State(found.get_str("STATE").unwrap_or("")));
    }
    if is_misread_kind(found) {
        return Some(MisreadWord::Kind(found.get_str("KIND").unwrap_or("")));
    }
    let misread = filter_words(found).misread()?;
    Some(MisreadWord::Filter(misread))
}

/// Whether what becomes of paths has none of its forms.
fn is_misread_state(found: &ArgMatches<'_>) -> bool
    ensures { result ≡ meaning.is_misread_state (rows_in found.now) }
{
    match found.get_str("STATE") {
        Some(word) => is_no_state(word),
        None => false,
    }
}

fn is_no_state(word: &str) -> bool
    ensures { result ≡ is_none (meaning.varied_by word.now) }
{
    varied_by(word).is_none()
}

/// Whether what is listed has none of its forms.
fn is_misread_kind(found: &ArgMatches<'_>) -> bool
    ensures { result ≡ meaning.is_misread_kind (rows_in found.now) }
{
    match found.get_str("KIND") {
        Some(word) => is_no_kind(word),
        None => false,
    }
}

fn is_no_kind(word: &str) -> bool
    ensures { result ≡ is_none (meaning.listed_by word.now) }
{
    listed_by(word).is_none()
}

/// What `check` asks for.
fn check_in<'a>(found: &ArgMatches<'a>) -> Result<Command<'a>, Unread>
    ensures { Reads meant_of result (meaning.check_in (rows_in found.now)) }
{
    let deck = value_of(found, "DECK")?;
    let breaches = breaches_in(found);
    Ok(Command::Check { deck, breaches })
}

/// What `show` asks for.
fn show_in<'a>(alloc: Global, found: &ArgMatches<'a>) -> Result<Command<'a>, Unread>
    ensures { Reads meant_of result (meaning.show_in (rows_in found.now)) }
{
    let deck = value_of(found, "DECK")?;
    let filters = filters_in(alloc, found)?;
    Ok(Command::Show { deck, filters })
}

/// What is listed by a word.
fn listed_by(word: &str) -> Option<Listed>
    ensures { result ≡ meaning.listed_by word.now }
{
    match word {
        "images" => Some(Listed::Images),
        "paths" => Some(Listed::Paths),
        "units" => Some(Listed::Units),
        "devices" => Some(Listed::Devices),
        _ => None,
    }
}

/// What is listed.
fn listed_in(found: &ArgMatches<'_>) -> Result<Listed, Unread>
    ensures { Reads (λ l. l) result (meaning.listed_in (rows_in found.now)) }
{
    listed_by(value_of(found, "KIND")?).ok_or(Unread::Malformed)
}

/// What `list` asks for.
fn list_in<'a>(alloc: Global, found: &ArgMatches<'a>) -> Result<Command<'a>, Unread>
    ensures { Reads meant_of result (meaning.list_in (rows_in found.now)) }
{
    let listed = listed_in(found)?;
    let deck = value_of(found, "DECK")?;
    let filters = filters_in(alloc, found)?;
    Ok(Command::List {
        listed,
        deck,
        filters,
    })
}

/// What `write` asks for.
fn write_in<'a>(found: &ArgMatches<'a>) -> Result<Command<'a>, Unread>
    ensures { Reads meant_of result (meaning.write_in (rows_in found.now)) }
{
    let deck = value_of(found, "DECK")?;
    Ok(Command::Write { deck })
}

/// What becomes of paths by a word.
fn varied_by(word: &str) -> Option<Varied>
    ensures { result ≡ meaning.varied_by word.now }
{
    match word {
        "offline" => Some(Varied::Offline),
        "online" => Some(Varied::Online),
        _ => None,
    }
}

/// What becomes of the paths of `vary`.
fn varied_in(found: &ArgMatches<'_>) -> Result<Varied, Unread>
    ensures { Reads (λ v. v) result (meaning.varied_in (rows_in found.now)) }
{
    varied_by(value_of(found, "STATE")?).ok_or(Unread::Malformed)
}

/// What `vary` asks for.
fn vary_in<'a>(alloc: Global, found: &ArgMatches<'a>) -> Result<Command<'a>, Unread>
    ensures { Reads meant_of result (meaning.vary_in (rows_in found.now)) }
{
    let deck = value_of(found, "DECK")?;
    let to = varied_in(found)?;
    let filters = filters_in(alloc, found)?;
    Ok(Command::Vary { deck, to, filters })
}

/// What `run` asks for.
fn run_in<'a>(alloc: Global, found: &ArgMatches<'a>) -> Result<Command<'a>, Unread>
    ensures { Reads meant_of result (meaning.run_in (rows_in found.now)) }
{
    let deck = value_of(found, "DECK")?;
    let script = value_of(found, "SCRIPT")?;
    let heap = heap_in(found)?;
    let changes = values_of(alloc, found, "CHANGE")?;
    Ok(Command::Run {
        deck,
        script,
        changes,
        heap,
    })
}

/// What `explain` asks for.
fn explain_in<'a>(alloc: Global, found: &ArgMatches<'a>) -> Result<Command<'a>, Unread>
    ensures { Reads meant_of result (meaning.explain_in (rows_in found.now)) }
{
    let rules = values_of(alloc, found, "RULE")?;
    Ok(Command::Explain { rules })
}

/// What the command of this name asks for.
fn command_in<'a>(alloc: Global, name: &str, found: &ArgMatches<'a>) -> Result<Command<'a>, Unread>
    ensures { Reads meant_of result (meaning.command_in name.now (rows_in found.now)) }
{
    match name {
        "check" => check_in(found),
        "show" => show_in(alloc, found),
        "list" => list_in(alloc, found),
        "write" => write_in(found),
        "diff" => diff_in(found),
        "plan" => plan_in(alloc, found),
        "vary" => vary_in(alloc, found),
        "apply" => apply_in(alloc, found),
        "run" => run_in(alloc, found),
        "explain" => explain_in(alloc, found),
        _ => Err(Unread::Malformed),
    }
}

/// What the words ask for, by what `clap` found in them.
pub(crate) fn understood_in<'a>(
    alloc: Global,
    matches: &ArgMatches<'a>,
) -> Result<Understood<'a>, Unread>
    ensures { Reads understood_of result (meaning.understood_in (subcommand_rows_of matches.now)) }
{
    match matches.subcommand() {
        Some((name, found)) => {
            let form = form_in(found);
            let quiet = is_given(found, "quiet");
            let exit_code = is_given(found, "exit-code");
            match command_in(alloc, name, found) {
                Ok(command) => Ok(Understood {
                    command,
                    form,
                    quiet,
                    exit_code,
                }),
                Err(why) => Err(why),
            }
        }
        None => Err(Unread::Malformed),
    }
}
