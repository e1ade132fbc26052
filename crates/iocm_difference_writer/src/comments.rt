ghost use Rattle.std.specs.Prelude.{◌≡◌, ◌++◌, map, IfOk, OnOk};
ghost use Rattle.std.specs.List.{flat_map};
ghost use Rattle.std.specs.Option.{option_map};
ghost use Rattle.iocm_deck_writer.specs.Canonical as canonical;
ghost use Rattle.iocm_difference_writer.specs.Comments as meaning;
ghost use Rattle.iocm_difference_writer.specs.Runs.{action_in, actions_in};

use iocm_columns::{Joined, deck_bytes};
use iocm_config::Config;
use iocm_deck_writer::{CanonicalStatement, to_statements, to_write};
use iocm_record::Record;
use iocm_tree::{Edit, Verb};
use std::alloc::{AllocError, Allocator, Global};

/// Puts the record that an edit deletes or modifies behind others, if it is there.
fn put_there<'a, A: Allocator, B: Allocator>(
    old: &'a Config<B>,
    edit: &Edit<A>,
    records: &mut Vec<&'a Record<B>>,
) -> Result<(), AllocError>
    ensures { OnOk result (map (λ k. k.now) records.new.items
        ≡ map (λ k. k.now) records.old.items ++ meaning.was_there old.now.records (action_in edit.now)) }
{
    match (edit.verb(), old.get(&edit.key())) {
        (Verb::Delete, Some(entry)) | (Verb::Modify, Some(entry)) => records.push(entry)?,
        _ => {}
    }
    Ok(())
}

/// The records that a run deletes or modifies.
fn records_there<'a, A: Allocator, B: Allocator>(
    alloc: Global,
    old: &'a Config<B>,
    run: &[Edit<A>],
) -> Result<Vec<&'a Record<B>>, AllocError>
    ensures { IfOk result (λ records. map (λ k. k.now) records.items
        ≡ flat_map (meaning.was_there old.now.records) (actions_in run.now)) }
{
    let mut records = Vec::new(alloc);
    for edit in run {
        put_there(old, edit, &mut records)?;
    }
    Ok(records)
}

/// Statements that are to be written.
fn all_to_write(alloc: Global, statements: &[CanonicalStatement]) -> Result<Vec<Joined>, AllocError>
    ensures { IfOk result (λ deck. deck.items ≡ map canonical.to_write statements.now) }
{
    let mut deck = Vec::new(alloc);
    for statement in statements {
        deck.push(to_write(alloc, statement)?)?;
    }
    Ok(deck)
}

/// The bytes of the cards of records.
fn cards_of<A: Allocator>(alloc: Global, records: &[&Record<A>]) -> Result<Vec<u8>, AllocError>
    ensures { IfOk result (λ bytes. bytes.items ≡ meaning.cards_of (map (λ k. k.now) records.now)) }
{
    let statements = to_statements(alloc, records)?;
    let deck = all_to_write(alloc, &statements)?;
    deck_bytes(alloc, &deck)
}

/// A byte as it stands behind another one: `*` where it begins a line.
fn starred_byte(before: u8, byte: u8) -> u8
    ensures { result ≡ meaning.starred_byte before byte }
{
    if before == b'\n' { b'*' } else { byte }
}

/// Puts lines behind a text, with `*` in column 1 of each.
fn put_starred(bytes: &[u8], text: &mut Vec<u8>) -> Result<(), AllocError>
    ensures { OnOk result (text.new.items ≡ text.old.items ++ meaning.starred bytes.now) }
{
    let mut before = b'\n';
    for byte in bytes {
        text.push(starred_byte(before, *byte))?;
        before = *byte;
    }
    Ok(())
}

/// Puts what was there of a run behind a text, as comments, where it is asked for.
pub(crate) fn put_comments<A: Allocator, B: Allocator>(
    alloc: Global,
    old: Option<&Config<B>>,
    run: &[Edit<A>],
    text: &mut Vec<u8>,
) -> Result<(), AllocError>
    ensures { OnOk result (text.new.items ≡ text.old.items
        ++ meaning.comments_of (option_map (λ c. c.now.records) old.entry) (actions_in run.now)) }
{
    let Some(old) = old else {
        return Ok(());
    };
    let records = records_there(alloc, old, run)?;
    let cards = cards_of(alloc, &records)?;
    put_starred(&cards, text)
}
