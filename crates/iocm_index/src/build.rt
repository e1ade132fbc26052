ghost use Rattle.std.specs.Prelude.{◌≡◌, ◌++◌, true, false, filter, IfOk, OnOk, map};
ghost use Rattle.std.specs.List.{list_any};
ghost use Rattle.std.specs.List.Sorted.{IsStrictlySortedBy};
ghost use Rattle.std.specs.Ordering.{eq_by_cmp};
ghost use Rattle.std.specs.FinMap as finmap;
ghost use Rattle.iocm_types.specs.Naming.{naming_cmp};
ghost use Rattle.iocm_types.specs.declared.naming.Naming as naming;
ghost use Rattle.iocm_table.specs.Slots.{rows};
ghost use Rattle.iocm_index.specs.Grouped.{is_record, is_in_group};
ghost use Rattle.iocm_index.specs.Namings.{namings_of, is_linked, as_row};

use crate::Index;
use crate::index::naming_at;
use iocm_record::Record;
use iocm_table::Table;
use iocm_types::{Named, Naming, sorted_once};
use std::alloc::{AllocError, Allocator};

impl<A: Allocator + Clone> Index<A> {
    /// The index of these namings, in any order and each any number of times; they have places, and
    /// no others. The time is in proportion to their number where they stand in order, and else to
    /// that of sorting them.
    ///
    /// `AllocError` (M1): memory ran out.
    pub fn from_namings<B: Allocator>(alloc: A, namings: Vec<Naming, B>) -> Result<Self, AllocError>
        ensures linked { IfOk result (λ index. (n : naming.Naming)
            → is_linked index n ≡ list_any (eq_by_cmp naming_cmp n) namings.items) }
        ensures places { IfOk result (λ index. index.places ≡ finmap.keys (rows naming_cmp index)) }
    {
        let distinct = sort_apart(alloc.clone()?, namings)?;
        let listed = list_rows(alloc.clone()?, distinct.as_slice())?;
        Ok(Index {
            namings: Table::from_rows(alloc, listed)?,
        })
    }
}

/// Puts the namings of a record behind those that are listed.
///
/// `AllocError` (M1): memory ran out.
pub fn list_namings<B: Allocator, C: Allocator>(
    listed: &mut Vec<Naming, C>,
    entry: &Record<B>,
) -> Result<(), AllocError>
    ensures { OnOk result (listed.new.items ≡ listed.old.items ++ namings_of entry.now) }
{
    for place in 0..entry.names_len() {
        listed.push(naming_at(entry, place))?;
    }
    Ok(())
}

/// The same namings in order, each once. Records are mostly listed in the order of keys. So those
/// of records alone, and all others behind them, are in long runs that rise for the first sort. That
/// looks at what is named alone and keeps equals in their order, so it compares far less where a
/// thing has many users. It leaves nothing to the second where the records came in the order of keys.
fn sort_apart<A: Allocator, B: Allocator>(
    alloc: A,
    namings: Vec<Naming, B>,
) -> Result<Vec<Naming, A>, AllocError>
    ensures order { IfOk result (λ distinct. IsStrictlySortedBy naming_cmp distinct.items) }
    ensures same { IfOk result (λ distinct. (n : naming.Naming)
        → list_any (eq_by_cmp naming_cmp n) distinct.items ≡ list_any (eq_by_cmp naming_cmp n) namings.items) }
{
    let mut apart = records_first(alloc, namings)?;
    apart.sort_by(|naming, other| naming.named.order(other.named))?;
    sorted_once(apart)
}

/// The namings of records, and all others behind them; both as they stand here.
fn records_first<A: Allocator, B: Allocator>(
    alloc: A,
    namings: Vec<Naming, B>,
) -> Result<Vec<Naming, A>, AllocError>
    ensures { IfOk result (λ apart. apart.items
        ≡ filter (is_in_group true) namings.items ++ filter (is_in_group false) namings.items) }
{
    let mut apart = Vec::with_capacity(alloc, namings.len())?;
    put_group(&mut apart, namings.as_slice(), true)?;
    put_group(&mut apart, namings.as_slice(), false)?;
    Ok(apart)
}

/// Puts the namings of records, or all others, behind those that are listed.
fn put_group<A: Allocator>(
    listed: &mut Vec<Naming, A>,
    namings: &[Naming],
    of_records: bool,
) -> Result<(), AllocError>
    ensures { OnOk result (listed.new.items ≡ listed.old.items ++ filter (is_in_group of_records) namings.now) }
{
    for naming in namings {
        if is_record(&naming.named) == of_records {
            listed.push(*naming)?;
        }
    }
    Ok(())
}

/// Whether a record is named, and not an image or a unit address.
fn is_record(named: &Named) -> bool
    ensures { result ≡ is_record named.now }
{
    matches!(named, Named::Record(_))
}

/// A row for each naming.
fn list_rows<B: Allocator>(alloc: B, namings: &[Naming]) -> Result<Vec<(Naming, ()), B>, AllocError>
    ensures { IfOk result (λ listed. listed.items ≡ map as_row namings.now) }
{
    let mut listed = Vec::with_capacity(alloc, namings.len())?;
    for naming in namings {
        listed.push((*naming, ()))?;
    }
    Ok(listed)
}
