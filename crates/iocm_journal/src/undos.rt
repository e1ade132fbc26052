ghost use Rattle.std.specs.Prelude.{◌≡◌, ◌<◌, length};
ghost use Rattle.iocm_journal.specs.Noted.{AreInOrder, is_last_of, is_of_earlier, undone_since, without_last_of};

use crate::kept::Kept;

/// An undo, as the journal notes it. The word is own.
#[derive(Drop)]
pub struct Undo {
    /// The place of the change that was undone, counted from 0.
    pub place: usize,
    /// How many changes were accepted then.
    pub after: u64,
}

/// Whether one of some undos, in their order, is of a change before a place that doesn't stand, and
/// was made since the change at that place was accepted. The time is that of the undos since.
pub fn undone_since(kept: &[Kept], undos: &[Undo], place: usize) -> bool
    requires within { place < length kept.now }
    requires order { AreInOrder undos.now }
    ensures { result ≡ undone_since kept.now undos.now place }
{
    let mut left = undos.len();
    while left > 0 && undos[left - 1].after > place as u64 {
        left -= 1;
        if is_of_earlier(kept, &undos[left], place) {
            return true;
        }
    }
    false
}

/// Whether an undo is of a change before a place that doesn't stand.
fn is_of_earlier(kept: &[Kept], undo: &Undo, place: usize) -> bool
    requires { place < length kept.now }
    ensures { result ≡ is_of_earlier kept.now place undo.now }
{
    undo.place < place && !kept[undo.place].stands
}

/// Forgets the last of some undos, if it is of the change at a place.
pub fn forget_last_of(undos: &mut Vec<Undo>, place: usize)
    ensures { undos.new.items ≡ without_last_of place undos.old.items }
{
    if is_last_of(undos.as_slice(), place) {
        undos.pop();
    }
}

/// Whether the last of some undos is of the change at a place.
fn is_last_of(undos: &[Undo], place: usize) -> bool
    ensures { result ≡ is_last_of place undos.now }
{
    match undos.last() {
        Some(undo) => undo.place == place,
        None => false,
    }
}
