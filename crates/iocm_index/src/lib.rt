//! Who names whom: which records of a configuration name a record or an image.
//!
//! A device names its control units, its unit address at each of them and the images of its
//! candidates, a control unit its paths, a path the images of its lists, an online record its path
//! and its image. An `Index` has the pairs of what is named and the key that names it, in order:
//! `link` puts those of a record in, `unlink` takes them out, `users_of` gives the keys that name a
//! thing. None of these takes memory, only `room`: what was unlinked can be linked again. An index
//! of many records is built at once: `list_namings` lists what they name, and `Index::from_namings`
//! sorts it.
//!
//! Begin with `specs/Namings.antt`, then `index.rt`. What names no source is our own.
#![tactic(auto)]

mod build;
mod index;
mod laws;
mod users;

pub use build::list_namings;
pub use index::Index;
pub use laws::sets_are_their_namings;
pub use users::Users;
