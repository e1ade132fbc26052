ghost use Rattle.std.specs.Prelude.{◌≡◌, ◌++◌, IfOk, OnOk};
ghost use Rattle.iocm_affected.specs.Listing as listing;
ghost use Rattle.iocm_types.specs.declared.named.Named.TheVariants as named;

use iocm_index::Index;
use iocm_types::{Css, Key, Name, Named, sorted_once};
use std::alloc::{AllocError, Allocator};

/// The users of the paths of a channel subsystem that name an image, each once. Units are among
/// them. The time is that of sorting them, a unit once for each path of it that names the image.
///
/// `AllocError` (M1): memory ran out.
pub(crate) fn users_of_name<B: Allocator, C: Allocator>(
    alloc: C,
    index: &Index<B>,
    css: Css,
    name: Name,
) -> Result<Vec<Key, C>, AllocError>
    ensures { IfOk result (λ users. listing.AreSameKeys users.items (listing.users_of_name index.now css name)) }
{
    sorted_once(all_users_of_name(alloc, index, css, name)?)
}

/// The same users, each however often.
fn all_users_of_name<B: Allocator, C: Allocator>(
    alloc: C,
    index: &Index<B>,
    css: Css,
    name: Name,
) -> Result<Vec<Key, C>, AllocError>
    ensures { IfOk result (λ users. users.items ≡ listing.users_of_name index.now css name) }
{
    let mut users = Vec::new(alloc);
    for user in index.users_of(Named::Image(name)) {
        list_on_path(&mut users, index, css, &user)?;
    }
    Ok(users)
}

/// Puts the users of a path, if it is one of the channel subsystem, behind those that are listed.
/// What is no path has none.
fn list_on_path<B: Allocator, C: Allocator>(
    users: &mut Vec<Key, C>,
    index: &Index<B>,
    css: Css,
    path: &Key,
) -> Result<(), AllocError>
    ensures { OnOk result (users.new.items ≡ users.old.items ++ listing.users_on_path index.now css path.now) }
{
    match path {
        Key::Path(of, _) if *of == css => list_of_path(users, index, path),
        _ => Ok(()),
    }
}

/// Puts the users of a path behind those that are listed.
fn list_of_path<B: Allocator, C: Allocator>(
    users: &mut Vec<Key, C>,
    index: &Index<B>,
    path: &Key,
) -> Result<(), AllocError>
    ensures { OnOk result (users.new.items ≡ users.old.items ++ listing.users_of index.now (named.Record path.now)) }
{
    for user in index.users_of(Named::Record(*path)) {
        users.push(user)?;
    }
    Ok(())
}
