ghost use Rattle.std.specs.Prelude.{◌≡◌, Some};
ghost use Rattle.iocm_model.specs.Machine.Configuration.{lookup_of};
ghost use Rattle.iocm_model.specs.Machine.Mask as mask;
ghost use Rattle.iocm_model.specs.Machine.PathList.{view_paths};
ghost use Rattle.iocm_model.specs.Machine.Sight as sight;
ghost use Rattle.iocm_model.specs.Machine.View as model;
ghost use Rattle.iocm_record.specs.Meaning.{device_of};
ghost use Rattle.iocm_derive.specs.Derived.{name_at};
ghost use Rattle.iocm_reach.specs.Tabled.{IsReachOf};

use crate::candidates::is_candidate;
use crate::path_masks::masks_over;
use crate::reaching::is_reached;
use crate::{ImagePath, ReachTable};
use iocm_config::Config;
use iocm_record::DeviceFields;
use iocm_types::{Chpid, CssPath, Image, Name, Paths, View};
use std::alloc::Allocator;
use std::marker::Model;

/// An image of a configuration, with a table in which its paths are looked up. Contracts see the
/// configuration and the image.
#[derive(Drop)]
pub struct ReachedImage<'a, A: Allocator, B: Allocator> {
    table: &'a ReachTable<B>,
    config: &'a Config<A>,
    image: Image,
    name: Name,
}

impl<'a, A: Allocator, B: Allocator> Model for ReachedImage<'a, A, B> {
    ghost use Rattle.std.specs.Prelude.{refl};
    ghost use Rattle.std.specs.FinMap as map;
    ghost use Rattle.std.specs.Coded.{code_by, coded×, codes};
    ghost use Rattle.iocm_model.specs.Machine.Record.{ImageRecord};
    ghost use Rattle.iocm_model.specs.Machine.Configuration.{Configuration};
    ghost use Rattle.iocm_derive.specs.Sighted.{Sighted};
    ghost use Rattle.iocm_reach.specs.Seen.{IsReachedImage};

    ghost Value = { Sighted };

    ghost coded = { code_by (Configuration × ImageRecord)
        (coded× (map.code (Prim.hlevel codes) (Prim.hlevel codes)) (Prim.hlevel codes))
        (λ s. (s.records, s.image)) (λ p. record { records = p.0; image = p.1 }) (λ _. refl) };

    ghost view = { λ s. record {
      records = s.config.now.records;
      image = record { css = s.image.css; mif = s.image.mif; name = s.name };
    } };

    ghost invariant = { λ s. IsReachedImage s.config.now.records s.table.now s.image s.name };
}

impl<'a, A: Allocator, B: Allocator> ReachedImage<'a, A, B> {
    /// The image of this name in a configuration with its table.
    pub fn new(table: &'a ReachTable<B>, config: &'a Config<A>, image: Image, name: Name) -> Self
        requires table { IsReachOf config.now.records table.now }
        requires name { name_at (lookup_of config.now.records) image ≡ Some name }
        ensures { result ≡ record {
          records = config.entry.now.records;
          image = record { css = image.css; mif = image.mif; name = name };
        } }
    {
        ReachedImage {
            table,
            config,
            image,
            name,
        }
    }

    /// The configuration.
    pub fn config(&self) -> &Config<A>
        ensures { result.now.records ≡ self.now.records }
    {
        self.config
    }

    /// The image.
    pub fn image(&self) -> Image
        ensures { result ≡ record { css = self.now.image.css; mif = self.now.image.mif } }
    {
        self.image
    }

    /// Whether the image reaches a path of its channel subsystem, and whether the path is online to
    /// it.
    pub fn path(&self, path: Chpid) -> ImagePath
        ensures reached { result.reached
            ≡ sight.reaches (lookup_of self.now.records) self.now.image.css self.now.image.name path }
        ensures online { result.online
            ≡ mask.is_online (lookup_of self.now.records) self.now.image.css self.now.image.name path }
    {
        let at = CssPath {
            css: self.image.css,
            path,
        };
        self.table.get(&at, self.image.mif)
    }

    /// What the image sees of a device by its first eight paths, if it sees it.
    pub fn view(&self, device: &DeviceFields<A>, paths: &Paths) -> Option<View>
        requires { paths.now
            ≡ view_paths (lookup_of self.now.records) self.now.image.css device.now.lists.units }
        ensures { result ≡ model.view_if_seen (lookup_of self.now.records) self.now.image.css
            self.now.image.name (device_of device.now) }
    {
        if !is_candidate(device.lists.candidates(), self.name) {
            return None;
        }
        let masks = masks_over(self, paths);
        if !is_reached(self, device.lists.units(), paths, masks.pim) {
            return None;
        }
        Some(View {
            device: device.number,
            paths: *paths,
            pim: masks.pim,
            pam: masks.pam,
        })
    }
}
