ghost use Rattle.std.specs.Prelude.{◌≡◌, Err, IfOk, IfSome, IsSome};
ghost use Rattle.iocm_types.specs.Fault.{Gives};
ghost use Rattle.iocm_tree.specs.Trees.{tree_of};
ghost use Rattle.iocm_script.specs.Scripts.{script_in};
ghost use Rattle.iocm_console.specs.Opening.{opened_deck};
ghost use Rattle.iocm_console.specs.Refusal.{or_refused};
ghost use Rattle.iocm_origin.specs.Origin as meaning;
ghost use Rattle.iocm_origin.specs.Origin.{IsOfChange, IsOriginInChange, IsOriginInDeck, IsOriginInScript};

use crate::Origin;
use crate::keys::line_of_key;
use crate::nodes::line_of_node;
use crate::origin::{is_same, line_or_end, line_or_whole, origin_of_fault, statements_or_none};
use iocm_console::{About, Refusal, open_deck, read_statements};
use iocm_script::read_script;
use iocm_tree::Tree;
use iocm_tree_reader::read_tree;
use iocm_types::Fault;
use std::alloc::{AllocError, Global};

/// Where in a configuration deck a refusal comes from, and none if the deck isn't refused so.
///
/// `AllocError` (M1): memory ran out.
///
/// Promise: a refusal of a deck is traced to its line exactly if the deck is refused so.
pub fn origin_in_deck(
    alloc: Global,
    deck: &[u8],
    why: Refusal,
) -> Result<Option<Origin>, AllocError>
    ensures some { IfOk result (λ found. IfSome found (IsOriginInDeck deck.now why)) }
    ensures only { IfOk result (λ found. opened_deck deck.now ≡ Err why → IsSome found) }
{
    match open_deck(alloc, deck) {
        Ok(_) => Ok(None),
        Err(found) if is_same(found, Refusal::NO_MEMORY) => Err(AllocError),
        Err(found) if is_same(found, why) => Ok(Some(place_in_deck(alloc, deck, why.about)?)),
        Err(_) => Ok(None),
    }
}

/// Where in a deck a refusal about this comes from.
fn place_in_deck(alloc: Global, deck: &[u8], about: About) -> Result<Origin, AllocError>
    ensures { IfOk result (λ origin. origin ≡ meaning.place_in_deck deck.now about) }
{
    match about {
        About::Key(key) => {
            let statements = statements_or_none(alloc, deck)?;
            Ok(line_or_end(line_of_key(alloc, &statements, key)?))
        }
        _ => Ok(line_or_whole(about)),
    }
}

/// Where in a change deck a refusal comes from, and none if it is another text's: about a line it is
/// the deck's first fault, and about a key it names a node.
///
/// `AllocError` (M1): memory ran out.
///
/// Promise: a refusal of a change is traced to the line of its statement, or to the end.
pub fn origin_in_change(
    alloc: Global,
    change: &[u8],
    why: Refusal,
) -> Result<Option<Origin>, AllocError>
    ensures some { IfOk result (λ found. IfSome found (IsOriginInChange change.now why)) }
    ensures only { IfOk result (λ found. IsOfChange change.now why → IsSome found) }
{
    match (why.about, why.node) {
        (About::Line(_), _) => match read_change(alloc, change) {
            Ok(_) => Ok(None),
            Err(fault) => origin_of_fault(fault, why),
        },
        (About::Key(_), None) => Ok(None),
        (_, node) => Ok(Some(place_of_node(alloc, change, node)?)),
    }
}

/// The tree of a change deck, or its first fault.
fn read_change(alloc: Global, change: &[u8]) -> Result<Tree, Fault>
    ensures { Gives tree_of result (meaning.change_in change.now) }
{
    let statements = read_statements(alloc, change)?;
    read_tree(alloc, alloc, &statements)
}

/// Where in a change deck a node comes from, if one is named.
fn place_of_node(alloc: Global, change: &[u8], node: Option<u64>) -> Result<Origin, AllocError>
    ensures { IfOk result (λ origin. origin ≡ meaning.place_of_node (meaning.statements_of change.now) node) }
{
    let Some(node) = node else {
        return Ok(Origin::Whole);
    };
    let statements = statements_or_none(alloc, change)?;
    Ok(line_or_end(line_of_node(alloc, &statements, node)?))
}

/// Where in a script a refusal comes from, for a command line with so many change decks, and none if
/// the script isn't refused so.
///
/// `AllocError` (M1): memory ran out.
pub fn origin_in_script(
    alloc: Global,
    script: &[u8],
    changes: u64,
    why: Refusal,
) -> Result<Option<Origin>, AllocError>
    ensures some { IfOk result (λ found. IfSome found (IsOriginInScript changes script.now why)) }
    ensures only { IfOk result (λ found. or_refused (script_in changes script.now) ≡ Err why → IsSome found) }
{
    match read_script(alloc, script, changes) {
        Ok(_) => Ok(None),
        Err(fault) => origin_of_fault(fault, why),
    }
}
