ghost use Rattle.std.specs.Prelude.{◌≡◌};
ghost use Rattle.iocm_model.specs.Machine.Configuration.{lookup_of, IsKeyed};
ghost use Rattle.iocm_console.specs.Alike as alike;
ghost use Rattle.iocm_console.specs.Lines.{line_at, seen_at};
ghost use Rattle.iocm_console.specs.Alike.{HaveDigits, IsAlike, IsSeen, IsSeenAt};

use crate::cells::CellDevice;
use crate::row::{Line, put_line, put_numbers};
use iocm_derive::ImageSight;
use iocm_types::{DevNo, SubId, View};
use std::alloc::Allocator;

/// What an image sees at a number cell, and the line of it: with its end, or no bytes where it sees no
/// device. The view may have the number of another device, which the image sees in the same way.
#[derive(Drop)]
pub(crate) struct Seen {
    pub view: Option<View>,
    pub line: Line,
}

impl Seen {
    /// Nothing.
    pub fn nothing() -> Self {
        Seen {
            view: None,
            line: Line::new(),
        }
    }

    /// Goes from the last number cell, if there was one, to another. Where its device is like that at
    /// the last one, the line stays the same but for two numbers.
    #[inline]
    pub fn go_to<A: Allocator>(
        &mut self,
        sight: &mut ImageSight<'_, A>,
        last: Option<CellDevice>,
        place: &CellDevice,
    )
        requires keyed { IsKeyed sight.old.records }
        requires alike { IsAlike (lookup_of sight.old.records) place.now }
        requires last { IsSeen (lookup_of sight.old.records) sight.old.image last self.old }
        ensures seen { IsSeenAt (lookup_of sight.old.records) sight.old.image self.new place.now }
        ensures same { sight.new ≡ sight.old }
    {
        match last {
            Some(cell) if are_like(&cell, place) => {
                // For the proof alone: each number fills its place in the line.
                have_digits(&cell.subchannel(&sight.image()), cell.device);
                put_numbers(&mut self.line, place);
            }
            _ => {
                self.view = view_at(sight, place);
                put_seen(&mut self.line, place.subchannel(&sight.image()), &self.view);
            }
        }
    }
}

/// Whether two cells are of one channel subsystem and set, with devices that are like the same
/// device.
#[inline]
fn are_like(a: &CellDevice, b: &CellDevice) -> bool
    ensures { result ≡ alike.are_like a.now b.now }
{
    a.cell.css == b.cell.css && a.cell.set == b.cell.set && a.like == b.like
}

/// The numbers of a subchannel, and of the device there, have no more digits than a line has places
/// for. It does nothing, and is there for a proof.
#[inline]
fn have_digits(id: &SubId, device: DevNo)
    ensures { HaveDigits id.now device }
{
    let _css = id.image.css.number();
    let _mif = id.image.mif.number();
    let _set = id.set.number();
    let _number = id.number;
    let _device = device.number();
}

/// What an image sees at a number cell.
fn view_at<A: Allocator>(sight: &mut ImageSight<'_, A>, place: &CellDevice) -> Option<View>
    ensures view { result
        ≡ seen_at (lookup_of sight.old.records) sight.old.image (place.now.cell, place.now.device) }
    ensures same { sight.new ≡ sight.old }
{
    if place.cell.css != sight.image().css {
        return None;
    }
    sight.view(place.cell.set, place.device)
}

/// Makes a line that of what is seen at a subchannel.
fn put_seen(line: &mut Line, id: SubId, view: &Option<View>)
    ensures { line.new.items ≡ line_at id view.now }
{
    line.clear();
    if let Some(view) = view {
        put_line(line, id, view);
    }
}
