ghost use Rattle.std.specs.Prelude.{◌≡◌, ◌++◌, ◌∷◌, [], IfOk, IsOkAnd};
ghost use Rattle.iocm_queue.specs.Hauls.{IsHaul};

use crate::message::Item;
use crate::worker::Worker;
use std::alloc::{AllocError, Global};
use std::sync::Wait;

/// What a worker took until both end marks.
pub struct Haul<T: Drop> {
    /// The worker.
    pub worker: Worker<T>,
    /// What it took, in order; or there was no memory to keep it.
    pub items: Result<Vec<Item<T>>, AllocError>,
}

/// Takes items until both end marks were taken. Where there is no memory to keep them, it takes
/// them all the same.
pub fn take_all<T: Drop, R: Wait>(rt: &R, alloc: Global, mut worker: Worker<T>) -> Haul<T>
    requires { worker.taken ≡ [] }
    ensures { IsHaul worker.channel result }
{
    let mut items = Ok(Vec::new(alloc));
    for _ in rt.forever() {
        if worker.is_over() {
            return Haul { worker, items };
        }
        let item = worker.next(rt);
        items = with_one(items, item);
    }
    unreachable!()
}

/// Items with one more.
fn with_one<T: Drop>(
    items: Result<Vec<Item<T>>, AllocError>,
    item: Item<T>,
) -> Result<Vec<Item<T>>, AllocError>
    ensures { IfOk result (λ more. IsOkAnd items (λ before. more.items ≡ before.items ++ item ∷ [])) }
{
    let mut items = items?;
    items.push(item)?;
    Ok(items)
}
