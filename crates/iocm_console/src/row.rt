ghost use Rattle.std.specs.Prelude.{◌≡◌, ◌≤◌, ◌⊎◌, ◌+◌, ◌++◌, ◌∷◌, [], OnOk, length, take, drop, codes};
ghost use Rattle.std.specs.Io.KnownBytes.{Appends};
ghost use Rattle.arrayvec.specs.ArrayVec.{array_vec_len};
ghost use Rattle.iocm_types.specs.Print.{hex4};
ghost use Rattle.iocm_model.specs.Machine.Table.{line_of, heading, chpids};
ghost use Rattle.iocm_console.specs.Alike.{IsPrinted, with_numbers};

use crate::cells::CellDevice;
use arrayvec::ArrayVec;
use iocm_lines::{digit, digits};
use iocm_types::{Chpid, DevNo, SubId, View};
use std::io;
use std::io::Write;

/// The most bytes of a line: 28 before the paths, three for each of at most eight paths, and its
/// end.
const LONGEST: usize = 53;

/// A line of the table with its end, or no bytes.
pub type Line = ArrayVec<u8, LONGEST>;

/// Writes the heading of the table, with its end. Can't run out of memory.
pub fn write_heading<W: Write>(writer: &mut W) -> io::Result<()>
    ensures { OnOk result (Appends (W.contents writer.old) (W.contents writer.new) (heading ++ 10 ∷ [])) }
{
    writeln!(writer, "CSS IM SET SUBC DEVN PIM PAM CHPIDS")
}

/// Puts the line of a subchannel, with its end, where no byte is.
#[inline]
pub fn put_line(line: &mut Line, id: SubId, view: &View)
    requires { line.old.items ≡ [] }
    ensures { line.new.items ≡ line_of (id, view.now) ++ 10 ∷ [] }
{
    let Ok(()) = line.try_extend_from_slice(&numbers(id, view)) else {
        unreachable!()
    };
    for path in view.paths.as_slice() {
        put_path(line, *path);
    }
    line.push(b'\n');
}

/// Puts the number of a path at the end of a line, with a blank before it.
#[inline]
fn put_path(line: &mut Line, path: Chpid)
    requires { array_vec_len line.old + 3 ≤ 53 }
    ensures text { line.new.items ≡ line.old.items ++ chpids (path ∷ []) }
    ensures length { array_vec_len line.new ≡ array_vec_len line.old + 3 }
{
    let [high, low] = digits(path.number());
    line.push(b' ');
    line.push(high);
    line.push(low);
}

/// The part of a line before its paths, 28 places.
#[inline]
fn numbers(id: SubId, view: &View) -> [u8; 28]
    ensures { result ++ chpids view.now.paths ≡ line_of (id, view.now) }
{
    let [n1, n2] = digits((id.number / 256) as u8);
    let [n3, n4] = digits((id.number % 256) as u8);
    let device = view.device.number();
    let [d1, d2] = digits((device / 256) as u8);
    let [d3, d4] = digits((device % 256) as u8);
    let [i1, i2] = digits(view.pim.bits());
    let [a1, a2] = digits(view.pam.bits());
    [
        digit(id.image.css.number()),
        b' ',
        b' ',
        b' ',
        digit(id.image.mif.number()),
        b' ',
        b' ',
        digit(id.set.number()),
        b' ',
        b' ',
        b' ',
        n1,
        n2,
        n3,
        n4,
        b' ',
        d1,
        d2,
        d3,
        d4,
        b' ',
        i1,
        i2,
        b' ',
        b' ',
        a1,
        a2,
        b' ',
    ]
}

/// Puts the number of another cell and that of its device into a line, if there is one.
#[inline]
pub(crate) fn put_numbers(line: &mut Line, place: &CellDevice)
    requires line { (line.old.items ≡ []) ⊎ (20 ≤ array_vec_len line.old) }
    requires printed { IsPrinted place.now }
    ensures none { line.old.items ≡ [] → line.new.items ≡ [] }
    ensures numbers { 20 ≤ array_vec_len line.old
        → line.new.items ≡ with_numbers place.now.cell.number place.now.device line.old.items }
{
    if !line.is_empty() {
        put_two_numbers(line.as_mut_slice(), &place.numbers);
    }
}

/// Puts the part of a line from its subchannel number to its device number.
#[inline]
fn put_two_numbers(line: &mut [u8], part: &[u8; 9])
    requires { 20 ≤ length line.old }
    ensures { line.new ≡ take 11 line.old ++ (part.now ++ drop 20 line.old) }
{
    line[11..20].copy_from_slice(part);
}

/// A subchannel number and a device number with a blank between.
pub(crate) fn two_numbers(number: u16, device: DevNo) -> [u8; 9]
    ensures { result ≡ hex4 number ++ (codes " " ++ hex4 device) }
{
    let [n1, n2] = digits((number / 256) as u8);
    let [n3, n4] = digits((number % 256) as u8);
    let device = device.number();
    let [d1, d2] = digits((device / 256) as u8);
    let [d3, d4] = digits((device % 256) as u8);
    [n1, n2, n3, n4, b' ', d1, d2, d3, d4]
}
