//! The plain types of the manager, which every other crate stands on.
//!
//! Small values (`Css`, `Chpid`, `DevNo`, `Name`, ..) are made by `new`, which answers where the
//! value is out of range; contracts see each as its number, or a name as its bytes. `Key` and
//! `SubId` have the orders in which everything is listed; `TableKey` gives such an order its name.
//! `Rule` has every refusal number, `Fault` a refusal with its line. `Text` and `List` own memory
//! under any allocator, and contracts see the list alone.
//!
//! The definitions in `specs/` that readers share: `Gives`, what a reader promises, and `each`, a
//! list that is read item by item up to the first fault; the lemmas for such loops are in
//! `proofs/Each.antt`. Begin with `fault.rt`, `key.rt` and `sub_id.rt`. What names no source is our
//! own.
#![tactic(auto)]

mod answer;
mod chpid;
mod css;
mod css_path;
mod dev_no;
mod fault;
mod image;
mod key;
mod link;
mod list;
mod live;
mod mask;
mod mif;
mod name;
mod named;
mod naming;
mod order;
mod parm;
mod path_kind;
mod paths;
mod place;
mod refused;
mod rule;
mod scsw;
mod searching;
mod set_no;
mod sorting;
mod sub_id;
mod table_key;
mod text;
mod unit_no;
mod unit_range;
mod view;

pub use answer::{Answer, Counts};
pub use chpid::Chpid;
pub use css::Css;
pub use css_path::CssPath;
pub use dev_no::DevNo;
pub use fault::Fault;
pub use image::Image;
pub use key::Key;
pub use link::{CssLink, Link};
pub use list::List;
pub use live::{Function, Live, Phase};
pub use mask::Mask;
pub use mif::Mif;
pub use name::Name;
pub use named::Named;
pub use naming::Naming;
pub use order::{Io, Order, Setting, Stored};
pub use parm::Parm;
pub use path_kind::PathKind;
pub use paths::{MOST_PATHS, Paths};
pub use place::{NumberCell, Place};
pub use refused::{At, Refused};
pub use rule::Rule;
pub use scsw::ScswBits;
pub use searching::value_under;
pub use set_no::SetNo;
pub use sorting::{first_in_order, sorted_once};
pub use sub_id::SubId;
pub use table_key::TableKey;
pub use text::Text;
pub use unit_no::UnitNo;
pub use unit_range::UnitRange;
pub use view::View;
