ghost use Rattle.std.specs.Prelude.{◌≡◌, []};
ghost use Rattle.iocm_lines.specs.Told.{line_at, with_device};

use crate::json_line::JsonLine;
use crate::parts::SubchannelParts;
use iocm_types::{DevNo, Image, Name, SetNo, View};
use std::marker::Model;

/// The lines of an image's subchannels, one at a time. Subchannels of one set where the same is seen
/// but for the device have the same line but for two numbers: what stands between these is put together
/// for the first of them. It takes no memory.
#[derive(Drop)]
pub struct SubchannelLines {
    image: Image,
    name: Name,
    /// The set of the last subchannel, and what was seen there, with 0000 for the device.
    set: SetNo,
    seen: Option<View>,
    parts: SubchannelParts,
    line: JsonLine,
}

impl Model for SubchannelLines {
    ghost use Rattle.std.specs.Prelude.{refl, List, ℕ, IfSome};
    ghost use Rattle.std.specs.Coded.{code_by, coded×, coded_list, coded_ℕ, codes};
    ghost use Rattle.iocm_types.specs.declared.image.Image as images;
    ghost use Rattle.iocm_lines.specs.Told.{ArePartsOf, LineOf};

    ghost Value = { LineOf };

    ghost coded = { code_by (images.Image × (List ℕ × List ℕ))
        (coded× (Prim.hlevel codes) (coded× (coded_list coded_ℕ) (coded_list coded_ℕ)))
        (λ t. (t.image, (t.name, t.text)))
        (λ p. record { image = p.0; name = p.1.0; text = p.1.1 }) (λ _. refl) };

    ghost view = { λ s. record { image = s.image; name = s.name; text = s.line.items } };

    ghost invariant = { λ s. IfSome s.seen (ArePartsOf s.parts s.image s.name s.set) };
}

impl SubchannelLines {
    /// No line yet of the image of this name.
    pub fn new(image: Image, name: Name) -> Self
        ensures { result ≡ record { image = image; name = name; text = [] } }
    {
        SubchannelLines {
            image,
            name,
            set: SetNo::FIRST,
            seen: None,
            parts: SubchannelParts::none(),
            line: JsonLine::new(),
        }
    }

    /// Makes the line that of the image's subchannel of a number in a set, with what is seen there.
    #[inline]
    pub fn put(&mut self, set: SetNo, number: u16, view: &View)
        ensures { self.new ≡ record {
          image = self.old.image;
          name = self.old.name;
          text = line_at self.old.image self.old.name set number view.now;
        } }
    {
        let seen = View {
            device: DevNo::new(0),
            ..*view
        };
        if self.set != set || self.seen != Some(seen) {
            self.parts.renew(&self.image, &self.name, set, &seen);
            self.set = set;
            self.seen = Some(seen);
        }
        self.line.clear();
        self.parts.put_line(&mut self.line, number, view.device);
    }

    /// The line, with its end, or no bytes.
    #[inline]
    pub fn as_slice(&self) -> &[u8]
        ensures { result.now ≡ self.now.text }
    {
        self.line.as_slice()
    }
}
