ghost use Rattle.std.specs.Prelude.{◌≡◌, Some};
ghost use Rattle.iocm_model.specs.Machine.Configuration.{as_image};
ghost use Rattle.iocm_model.specs.Machine.Record.{ImageRecord};
ghost use Rattle.iocm_console.specs.Alike.{ServeFor};

use crate::cells::CellDevice;
use iocm_record::{Record, RecordBody};
use iocm_types::Css;
use std::alloc::Allocator;

/// Of the number cells of a machine those from the first to the last of a channel subsystem.
#[derive(Clone, Copy, Drop)]
pub(crate) struct SubsystemCells<'c> {
    /// The channel subsystem.
    pub css: Css,
    /// The cells. All cells of the channel subsystem are among them.
    pub cells: &'c [CellDevice],
}

impl<'c> SubsystemCells<'c> {
    /// Those of a channel subsystem.
    pub fn of(cells: &'c [CellDevice], css: Css) -> Self
        ensures near { ServeFor result.css result.cells.now cells.now }
        ensures css { result.css ≡ css }
    {
        let cells = without_back(without_front(cells, css), css);
        SubsystemCells { css, cells }
    }

    /// Those for the lines of a record, if these are cells of the same machine.
    pub fn for_record<A: Allocator>(&self, cells: &'c [CellDevice], entry: &Record<A>) -> Self
        requires { ServeFor self.now.css self.now.cells.now cells.now }
        ensures near { ServeFor result.css result.cells.now cells.now }
        ensures css { (i : ImageRecord) → as_image entry.now ≡ Some i → i.css ≡ result.css }
    {
        let css = css_of_image(entry, self.css);
        if css == self.css {
            return SubsystemCells {
                css,
                cells: self.cells,
            };
        }
        SubsystemCells::of(cells, css)
    }
}

/// The channel subsystem of a record's image, or this one where the record is no image's.
pub(crate) fn css_of_image<A: Allocator>(entry: &Record<A>, other: Css) -> Css
    ensures { (i : ImageRecord) → as_image entry.now ≡ Some i → i.css ≡ result }
{
    match entry.body() {
        RecordBody::Image(css, _, _) => *css,
        _ => other,
    }
}

/// The cells from the first of a channel subsystem on.
fn without_front(cells: &[CellDevice], css: Css) -> &[CellDevice]
    ensures { ServeFor css result.now cells.now }
{
    let mut rest = cells;
    while let Some((first, more)) = rest.split_first() {
        if first.cell.css == css {
            return rest;
        }
        rest = more;
    }
    rest
}

/// The cells up to the last of a channel subsystem.
fn without_back(cells: &[CellDevice], css: Css) -> &[CellDevice]
    ensures { ServeFor css result.now cells.now }
{
    let mut rest = cells;
    while let Some((last, more)) = rest.split_last() {
        if last.cell.css == css {
            return rest;
        }
        rest = more;
    }
    rest
}
