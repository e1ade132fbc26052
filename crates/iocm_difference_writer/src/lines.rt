ghost use Rattle.std.specs.Prelude.{◌≡◌, ◌∷◌, ◌++◌, [], map, IfOk, OnOk};
ghost use Rattle.iocm_types.specs.declared.key.Key.TheVariants as key;
ghost use Rattle.iocm_tree.specs.declared.verb.Verb.TheVariants.{Delete};
ghost use Rattle.iocm_tree_writer.specs.Written.{action_line, line_to_write};
ghost use Rattle.iocm_difference_writer.specs.Runs.{action_in, actions_in};
ghost use Rattle.iocm_difference_writer.specs.Written as meaning;

use crate::statements::{devices_statement, pairs_statement, statements_left};
use iocm_columns::Joined;
use iocm_deck_writer::{CanonicalStatement, to_write};
use iocm_tree::{Edit, Verb};
use iocm_tree_writer::{put_edit, verb_name};
use iocm_types::{Chpid, Css, DevNo, Key, SetNo, Text};
use std::alloc::{AllocError, Allocator, Global};

/// A statement that is to be written with its verb.
fn with_verb(
    alloc: Global,
    verb: Verb,
    statement: &CanonicalStatement,
) -> Result<Joined, AllocError>
    ensures { IfOk result (λ joined. joined ≡ line_to_write (meaning.line_with verb statement.now)) }
{
    let Joined {
        line,
        name: _,
        operation,
        text,
    } = to_write(alloc, statement)?;
    Ok(Joined {
        line,
        name: Text::from_slice(alloc, verb_name(verb))?,
        operation,
        text,
    })
}

/// Puts a statement with its verb behind a deck.
fn put_line(
    alloc: Global,
    verb: Verb,
    statement: &CanonicalStatement,
    deck: &mut Vec<Joined>,
) -> Result<(), AllocError>
    ensures { OnOk result (deck.new.items
        ≡ deck.old.items ++ line_to_write (meaning.line_with verb statement.now) ∷ []) }
{
    deck.push(with_verb(alloc, verb, statement)?)?;
    Ok(())
}

/// Puts the statements of devices that are added or modified behind a deck.
fn put_devices_left<A: Allocator>(
    alloc: Global,
    verb: Verb,
    run: &[Edit<A>],
    deck: &mut Vec<Joined>,
) -> Result<(), AllocError>
    ensures { OnOk result (deck.new.items ≡ deck.old.items
        ++ map line_to_write (meaning.devices_put verb (actions_in run.now))) }
{
    let statements = statements_left(alloc, run)?;
    for statement in &statements {
        put_line(alloc, verb, statement, deck)?;
    }
    Ok(())
}

/// Puts the statement of devices that are deleted behind a deck.
fn put_devices_gone(
    alloc: Global,
    set: SetNo,
    first: DevNo,
    count: usize,
    deck: &mut Vec<Joined>,
) -> Result<(), AllocError>
    ensures { OnOk result (deck.new.items ≡ deck.old.items
        ++ line_to_write (meaning.line_with Delete (meaning.devices_statement set first count)) ∷ []) }
{
    let statement = devices_statement(alloc, set, first, count)?;
    put_line(alloc, Verb::Delete, &statement, deck)
}

/// Puts the lines of a run of devices, which begins with this one, behind a deck.
fn put_devices<A: Allocator>(
    alloc: Global,
    verb: Verb,
    set: SetNo,
    first: DevNo,
    run: &[Edit<A>],
    deck: &mut Vec<Joined>,
) -> Result<(), AllocError>
    ensures { OnOk result (deck.new.items ≡ deck.old.items
        ++ map line_to_write (meaning.lines_by (key.Device set first) verb (actions_in run.now))) }
{
    match verb {
        Verb::Delete => put_devices_gone(alloc, set, first, run.len(), deck),
        Verb::Add => put_devices_left(alloc, Verb::Add, run, deck),
        Verb::Modify => put_devices_left(alloc, Verb::Modify, run, deck),
    }
}

/// Puts the line of a run of pairs of a path behind a deck.
fn put_pairs<A: Allocator>(
    alloc: Global,
    verb: Verb,
    css: Css,
    path: Chpid,
    run: &[Edit<A>],
    deck: &mut Vec<Joined>,
) -> Result<(), AllocError>
    ensures { OnOk result (deck.new.items ≡ deck.old.items ++ line_to_write
        (meaning.line_with verb (meaning.pairs_statement css path (meaning.names_in (actions_in run.now)))) ∷ []) }
{
    let statement = pairs_statement(alloc, css, path, run)?;
    put_line(alloc, verb, &statement, deck)
}

/// Puts the statement of each edit behind a deck.
fn put_each<A: Allocator>(
    alloc: Global,
    run: &[Edit<A>],
    deck: &mut Vec<Joined>,
) -> Result<(), AllocError>
    ensures { OnOk result (deck.new.items
        ≡ deck.old.items ++ map line_to_write (map action_line (actions_in run.now))) }
{
    for edit in run {
        put_edit(alloc, edit, deck)?;
    }
    Ok(())
}

/// Puts the lines of a run behind a deck, by the verb and the key of its first edit.
fn put_run<A: Allocator>(
    alloc: Global,
    verb: Verb,
    key: Key,
    run: &[Edit<A>],
    deck: &mut Vec<Joined>,
) -> Result<(), AllocError>
    ensures { OnOk result (deck.new.items
        ≡ deck.old.items ++ map line_to_write (meaning.lines_by key verb (actions_in run.now))) }
{
    match key {
        Key::Device(set, first) => put_devices(alloc, verb, set, first, run, deck),
        Key::Online(css, path, _) => put_pairs(alloc, verb, css, path, run, deck),
        _ => put_each(alloc, run, deck),
    }
}

/// The lines of a run.
pub(crate) fn run_lines<A: Allocator>(
    alloc: Global,
    run: &[Edit<A>],
) -> Result<Vec<Joined>, AllocError>
    ensures { IfOk result (λ deck. deck.items ≡ map line_to_write (meaning.run_lines (actions_in run.now))) }
{
    let mut deck = Vec::new(alloc);
    if let Some(first) = run.first() {
        put_run(alloc, first.verb(), first.key(), run, &mut deck)?;
    }
    Ok(deck)
}
