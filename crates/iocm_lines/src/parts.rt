ghost use Rattle.std.specs.Prelude.{◌≡◌, ◌<◌, ◌≤◌, ◌+◌, ◌++◌, [], length, IsTrue};
ghost use Rattle.iocm_types.specs.Name.{is_name};
ghost use Rattle.iocm_types.specs.Print.{hex4};
ghost use Rattle.arrayvec.specs.ArrayVec.{array_vec_len};
ghost use Rattle.iocm_lines.specs.Members.{image_name};
ghost use Rattle.iocm_lines.specs.Parts as parts;
ghost use Rattle.iocm_lines.specs.Told.{ArePartsOf, FitALine, with_numbers};

use crate::hexadecimal::{digit, digits};
use crate::json_line::{JsonLine, put, put_paths};
use iocm_types::{DevNo, Image, Name, SetNo, View};

/// The line of a subchannel without its two numbers, its own and that of its device.
#[derive(Drop)]
pub(crate) struct SubchannelParts {
    /// What comes before the number of the device.
    pub front: JsonLine,
    /// What is between it and the number of the subchannel.
    pub middle: JsonLine,
    /// What is between this and where it comes again.
    pub back: JsonLine,
}

impl SubchannelParts {
    /// No bytes.
    pub fn none() -> Self {
        SubchannelParts {
            front: JsonLine::new(),
            middle: JsonLine::new(),
            back: JsonLine::new(),
        }
    }

    /// Makes them those of an image's subchannels in a set where this is seen.
    pub fn renew(&mut self, image: &Image, name: &Name, set: SetNo, view: &View)
        ensures { ArePartsOf self.new image.now name.now set view.now }
    {
        put_front(&mut self.front, image, view);
        put_middle(&mut self.middle, image, name, view);
        put_back(&mut self.back, image, set, view);
    }

    /// Puts the line with both numbers, with its end, where no byte is.
    pub fn put_line(&self, line: &mut JsonLine, number: u16, device: DevNo)
        requires none { line.old.items ≡ [] }
        requires room { FitALine self.now }
        ensures text { line.new.items ≡ with_numbers self.now number device }
        ensures number { number < 65536 }
        ensures device { device < 65536 }
    {
        let number = four_digits(number);
        let device = four_digits(device.number());
        put(line, self.front.as_slice());
        put(line, &device);
        put(line, self.middle.as_slice());
        put(line, &number);
        put(line, self.back.as_slice());
        put(line, &number);
        put(line, b"\",\"type\":\"subchannel\"}\n");
    }
}

/// The four digits of a number.
#[inline]
fn four_digits(number: u16) -> [u8; 4]
    ensures { result ≡ hex4 number }
{
    let [n1, n2] = digits((number / 256) as u8);
    let [n3, n4] = digits((number % 256) as u8);
    [n1, n2, n3, n4]
}

/// Puts what comes before the number of a device in place of a line.
fn put_front(line: &mut JsonLine, image: &Image, view: &View)
    ensures text { line.new.items ≡ parts.front image.now view.now }
    ensures length { array_vec_len line.new ≤ 80 }
    ensures css { image.now.css < 6 }
    ensures pam { view.now.pam < 256 }
{
    line.clear();
    put(line, b"{\"available\":");
    put_paths(line, view.paths.as_slice(), view.pam.bits());
    put(line, b",\"css\":");
    line.push(digit(image.css.number()));
    put(line, b",\"device\":\"");
}

/// Puts what is between both numbers in place of a line.
fn put_middle(line: &mut JsonLine, image: &Image, name: &Name, view: &View)
    ensures text { line.new.items ≡ parts.middle image.now name.now view.now }
    ensures length { array_vec_len line.new ≤ 120 }
    ensures mif { image.now.mif < 16 }
    ensures name { IsTrue (is_name name.now) }
    ensures paths { length view.now.paths ≤ 8 }
{
    line.clear();
    put(line, b"\",\"image\":\"");
    put_image(line, image);
    put(line, b"\",\"installed\":");
    put_paths(line, view.paths.as_slice(), view.pim.bits());
    put(line, b",\"name\":\"");
    put(line, name.as_bytes());
    put(line, b"\",\"number\":\"");
}

/// Puts what is between the number of a subchannel and where it comes again in place of a line.
fn put_back(line: &mut JsonLine, image: &Image, set: SetNo, view: &View)
    ensures text { line.new.items ≡ parts.back image.now set view.now }
    ensures length { array_vec_len line.new ≤ 120 }
    ensures set { set < 4 }
    ensures pim { view.now.pim < 256 }
{
    let set = digit(set.number());
    line.clear();
    put(line, b"\",\"pam\":\"");
    put(line, &digits(view.pam.bits()));
    put(line, b"\",\"paths\":");
    put_paths(line, view.paths.as_slice(), 0xFF);
    put(line, b",\"pim\":\"");
    put(line, &digits(view.pim.bits()));
    put(line, b"\",\"set\":");
    line.push(set);
    put(line, b",\"subchannel\":\"");
    put_image(line, image);
    put(line, &[b'.', set, b'.']);
}

/// Puts the channel subsystem and the MIF image ID of an image.
fn put_image(line: &mut JsonLine, image: &Image)
    requires { array_vec_len line.old + 3 ≤ 600 }
    ensures text { line.new.items ≡ line.old.items ++ image_name image.now }
    ensures length { array_vec_len line.new ≡ array_vec_len line.old + 3 }
    ensures mif { image.now.mif < 16 }
{
    let css = digit(image.css.number());
    let mif = digit(image.mif.number());
    put(line, &[css, b'.', mif]);
}
