use iocm_types::{Image, SubId};
use std::fmt;

/// An image by its channel subsystem and MIF image ID, as `0.2`.
#[derive(Clone, Copy)]
pub struct ImageName(pub Image);

impl fmt::Display for ImageName {
    ghost use Rattle.std.specs.Prelude.{Some};
    ghost use Rattle.iocm_lines.specs.Members.{image_name};

    ghost output = { λ i. Some (image_name i.0) };

    fn fmt<W: fmt::Write>(&self, f: &mut fmt::Formatter<W>) -> fmt::Result {
        let css = self.0.css;
        let mif = self.0.mif;
        write!(f, "{css}.{mif}")
    }
}

/// A subchannel by its channel subsystem, MIF image ID, set and number, as `0.2.0.0003`.
#[derive(Clone, Copy)]
pub struct SubchannelName(pub SubId);

impl fmt::Display for SubchannelName {
    ghost use Rattle.std.specs.Prelude.{Some};
    ghost use Rattle.iocm_lines.specs.Members.{subchannel_name};

    ghost output = { λ s. Some (subchannel_name s.0) };

    fn fmt<W: fmt::Write>(&self, f: &mut fmt::Formatter<W>) -> fmt::Result {
        let css = self.0.image.css;
        let mif = self.0.image.mif;
        let set = self.0.set;
        let number = self.0.number;
        write!(f, "{css}.{mif}.{set}.{number:04X}")
    }
}
