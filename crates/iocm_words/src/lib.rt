//! Words and tables of words: what commands list is printed as a table of which each cell is one
//! word, so that `awk` and a spreadsheet read it as it is.
//!
//! `table_text` lays out a heading and rows. Most other calls give a cell: a carried text, a
//! count, the number of a path or a control unit, a list that commas join, ranges of devices or
//! unit addresses, and what is told once for several channel subsystems or images. Nothing is `-`.
//! Each cell is a word, and the words of a table's lines are its headings and its cells: these
//! laws are in `laws.rt`. For other lines there are `groups_of`, which tells equal texts once,
//! `joined_word`, `put_joined`, `put_blanks` and `without_blanks_behind`, and `grouped_word`, which puts commas
//! into a count.
//!
//! Nothing here knows a record or a configuration. Begin with `specs/Table.antt` and
//! `specs/Words.antt`, and with `specs/Examples.antt` for what is printed. All of it is our own.
#![tactic(auto)]

mod groups;
mod images;
mod laws;
mod paths;
mod ranges;
mod table;
mod words;

pub use groups::{Member, group_words, groups_of};
pub use images::{ImagePaths, all_images_word, images_word};
pub use laws::{cells_are_words, tables_are_laid_out, tables_are_read_again, words_are_written};
pub use paths::{LinkedPath, paths_word};
pub use ranges::{
    DeviceNumbers, SetNumbers, addresses_word, devices_word, numbers_word, ranges_word,
};
pub use table::{Column, Side, put_blanks, table_text, without_blanks_behind};
pub use words::{
    carried_word, comma_word, count_word, grouped_word, joined_word, names_word, path_word,
    put_joined, unit_word, units_word,
};
