ghost use Rattle.std.specs.Prelude.{◌≡◌, ◌++◌, OnOk, IfOk, length};
ghost use Rattle.iocm_difference.specs.Difference.{difference};
ghost use Rattle.iocm_plan_text.specs.Notes as meaning;

use crate::limits::{low_limits, put_limit_notes};
use crate::summary::put_number;
use iocm_config::Config;
use iocm_difference::difference;
use iocm_objects::{Object, ObjectKind, is_of_kind};
use iocm_types::{Css, SetNo};
use std::alloc::{AllocError, Global};
use std::marker::Model;

const MAXDEV: &[u8] = b"note: a real machine takes MAXDEV at its next power-on reset\n";

const MANY: &[u8] = b" edits, and a change deck has 4,096 at most (C2): ";

const BETWEEN: &[u8] = b"go by way of a deck between the two\n";

const MOST: usize = 4096;

/// What is noted of two decks. Contracts see the list of limits.
#[derive(Drop)]
pub(crate) struct DeckNotes {
    /// How many edits lead from the one to the other; nothing of a deck and a change deck.
    pub(crate) edits: Option<usize>,
    /// Subchannel sets whose limit may be too low on a running machine; of a change deck the machine itself tells.
    pub(crate) limits: Vec<(Css, SetNo)>,
}

impl Model for DeckNotes {
    ghost use Rattle.iocm_plan_text.specs.Notes as meaning;

    ghost Value = { meaning.DeckNotes };

    ghost view = { λ n. record { edits = n.edits; limits = n.limits.items } };
}

/// What is noted of two decks; nothing of a deck and a change deck.
pub(crate) fn notes_of_decks(
    alloc: Global,
    is_of_decks: bool,
    old: &Config,
    new: &Config,
) -> Result<DeckNotes, AllocError>
    ensures { IfOk result (λ notes. notes ≡ meaning.notes_of_decks is_of_decks old.now.records new.now.records) }
{
    if !is_of_decks {
        return Ok(DeckNotes {
            edits: None,
            limits: Vec::new(alloc),
        });
    }
    let edits = count_edits(alloc, old, new)?;
    let limits = low_limits(alloc, old, new)?;
    Ok(DeckNotes {
        edits: Some(edits),
        limits,
    })
}

/// Puts the notes of a plan behind a text.
///
/// `AllocError` (M1): memory ran out.
pub(crate) fn put_notes(
    text: &mut Vec<u8>,
    alloc: Global,
    notes: &DeckNotes,
    objects: &[Object],
) -> Result<(), AllocError>
    ensures { OnOk result (text.new.items ≡ text.old.items ++ meaning.notes notes.now objects.now) }
{
    put_maxdev_note(text, objects)?;
    put_edits_note(text, alloc, notes.edits)?;
    put_limit_notes(text, alloc, &notes.limits)?;
    Ok(())
}

/// Puts a note behind a text, if a limit is told.
fn put_maxdev_note(text: &mut Vec<u8>, objects: &[Object]) -> Result<(), AllocError>
    ensures { OnOk result (text.new.items ≡ text.old.items ++ meaning.maxdev_note objects.now) }
{
    if tells_limit(objects) {
        text.extend_from_slice(MAXDEV)?;
    }
    Ok(())
}

fn tells_limit(objects: &[Object]) -> bool
    ensures { result ≡ meaning.tells_limit objects.now }
{
    objects
        .iter()
        .any(|object| is_of_kind(ObjectKind::Limit, &object.key))
}

/// Puts a note behind a text, if one change deck can't hold so many edits.
fn put_edits_note(text: &mut Vec<u8>, alloc: Global, edits: Option<usize>) -> Result<(), AllocError>
    ensures { OnOk result (text.new.items ≡ text.old.items ++ meaning.edits_note edits) }
{
    match edits {
        Some(edits) => put_edits(text, alloc, edits),
        None => Ok(()),
    }
}

fn put_edits(text: &mut Vec<u8>, alloc: Global, edits: usize) -> Result<(), AllocError>
    ensures { OnOk result (text.new.items ≡ text.old.items ++ meaning.note_of_edits edits) }
{
    if edits > MOST {
        text.extend_from_slice(b"note: ")?;
        put_number(text, alloc, edits)?;
        text.extend_from_slice(MANY)?;
        text.extend_from_slice(BETWEEN)?;
    }
    Ok(())
}

/// How many edits lead from one configuration to another.
fn count_edits(alloc: Global, old: &Config, new: &Config) -> Result<usize, AllocError>
    ensures { IfOk result (λ count. count ≡ length (difference old.now.records new.now.records)) }
{
    let edits = difference(alloc, old, new)?;
    Ok(edits.len())
}
