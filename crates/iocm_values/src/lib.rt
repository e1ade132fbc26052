//! The values of operands: words and lists, lists by channel subsystem, sets of names, numbers. No
//! keyword is named here.
//!
//! A `Value` is a word or a list. A list is opened a level at a time: `items` gives its items, as
//! values that lie where the text lies, so nothing is copied, and a reader says its forms as
//! patterns of items. A reader answers `Unread` where a value has none of its forms, and the
//! statement says at which line that is. `words` finds the words of a value at every depth in one
//! pass, `item_words` those of its items. Each call has one exact clause, by the definition of its name in `specs/`.
//!
//! Begin with `specs/Value.antt` and `specs/Reading.antt`, then `css_lists.rt`.
#![tactic(auto)]

mod css_lists;
mod digits;
mod items;
mod name_set;
mod numbers;
mod set_places;
mod texts;
mod value;
mod word_list;

pub use css_lists::{CssItem, begins_with_css, by_css, css_number, inside_css, is_css};
pub use digits::{decimal, hex, is_decimal_number, is_hex_number};
pub use items::item_words;
pub use name_set::{names_of, names_text, read_names, set_of_names};
pub use numbers::{count_of, path_number, unit_address, unit_number};
pub use set_places::{SetItem, by_set, those_there};
pub use texts::{CssText, by_css_text, comma_text, css_text, list_text, printed, subsystem};
pub use value::{Value, values};
pub use word_list::words;
