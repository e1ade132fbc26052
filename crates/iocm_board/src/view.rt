use iocm_core::{Core, Entry};
use std::collections::LinkedList;

/// A name that a seat bears, and how many names it has lent in it.
pub struct Borne {
    pub name: LinkedList<u64>,
    pub lent: u64,
}

/// A receipt, as it stands in a view: the number of an entry of the trace, from 0, and the entry.
pub struct Made {
    pub number: u64,
    pub entry: Entry,
}

/// What a seat knows. It is there for contracts and proofs: no value of it is made.
pub struct View {
    /// The core with which the board was made.
    pub origin: Core,
    /// Whether the seat is in use; one that was joined to another isn't any more.
    pub live: bool,
    /// Whether the seat keeps the list of all entries.
    pub keeps: bool,
    /// The entries of the trace, in order, if the seat keeps them.
    pub list: LinkedList<Entry>,
    /// The names under which calls are made from the seat: the first one, and those of the seats
    /// that were joined to it.
    pub names: LinkedList<Borne>,
    /// The calls that were made under its names since the board was made, by their numbers.
    pub receipts: LinkedList<Made>,
    /// How many calls the seat has seen.
    pub seen: u64,
}
