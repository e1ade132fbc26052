//! Values that are shown: numbers in hexadecimal and images, each as a text.
ghost use Rattle.serde_json.specs.Data.{string};
ghost use Rattle.serde_json.specs.Written.{compact_text};

use iocm_lines::ImageName;
use iocm_record_lines::Hex2;
use iocm_types::{Chpid, DevNo, Image};
use std::fmt;

/// The number of a channel path.
#[derive(Clone, Copy)]
pub(crate) struct PathText(pub Chpid);

impl fmt::Display for PathText {
    ghost use Rattle.std.specs.Prelude.{Some};
    ghost use Rattle.iocm_types.specs.Print.{hex2};

    ghost output = { λ p. Some (compact_text (string (hex2 p.0))) };

    fn fmt<W: fmt::Write>(&self, f: &mut fmt::Formatter<W>) -> fmt::Result {
        let path = self.0;
        write!(f, "\"{path}\"")
    }
}

/// A unit address.
#[derive(Clone, Copy)]
pub(crate) struct AddressText(pub u8);

impl fmt::Display for AddressText {
    ghost use Rattle.std.specs.Prelude.{Some};
    ghost use Rattle.iocm_types.specs.Print.{hex2};

    ghost output = { λ a. Some (compact_text (string (hex2 a.0))) };

    fn fmt<W: fmt::Write>(&self, f: &mut fmt::Formatter<W>) -> fmt::Result {
        let address = Hex2(self.0);
        write!(f, "\"{address}\"")
    }
}

/// A control unit address, or null.
#[derive(Clone, Copy)]
pub(crate) struct CuaddText(pub Option<u8>);

impl fmt::Display for CuaddText {
    ghost use Rattle.std.specs.Prelude.{Some};
    ghost use Rattle.iocm_record_lines.specs.Records.{cuadd_value};

    ghost output = { λ c. Some (compact_text (cuadd_value c.0)) };

    fn fmt<W: fmt::Write>(&self, f: &mut fmt::Formatter<W>) -> fmt::Result {
        match self.0 {
            Some(cuadd) => {
                let cuadd = Hex2(cuadd);
                write!(f, "\"{cuadd}\"")
            }
            None => f.write_str("null"),
        }
    }
}

/// The number of a device.
#[derive(Clone, Copy)]
pub(crate) struct DeviceText(pub DevNo);

impl fmt::Display for DeviceText {
    ghost use Rattle.std.specs.Prelude.{Some};
    ghost use Rattle.iocm_types.specs.Print.{hex4};

    ghost output = { λ d. Some (compact_text (string (hex4 d.0))) };

    fn fmt<W: fmt::Write>(&self, f: &mut fmt::Formatter<W>) -> fmt::Result {
        let device = self.0;
        write!(f, "\"{device}\"")
    }
}

/// An image, by its channel subsystem and MIF image ID.
#[derive(Clone, Copy)]
pub(crate) struct ImageText(pub Image);

impl fmt::Display for ImageText {
    ghost use Rattle.std.specs.Prelude.{Some};
    ghost use Rattle.iocm_lines.specs.Members.{image_name};

    ghost output = { λ i. Some (compact_text (string (image_name i.0))) };

    fn fmt<W: fmt::Write>(&self, f: &mut fmt::Formatter<W>) -> fmt::Result {
        let image = ImageName(self.0);
        write!(f, "\"{image}\"")
    }
}
