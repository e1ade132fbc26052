ghost use Rattle.std.specs.Prelude.{◌≡◌, ℕ, List};
ghost use Rattle.iocm_model.specs.Machine.Configuration.{Configuration, lookup_of};
ghost use Rattle.iocm_model.specs.Machine.Sight as sight;
ghost use Rattle.iocm_model.specs.Machine.Mask as mask;

use crate::lookup::{is_path_online, reaches_path};
use iocm_config::Config;
use iocm_types::{Chpid, Css, Name};
use std::alloc::Allocator;

/// An image of a configuration: which paths of its channel subsystem it reaches, and which are
/// online to it. `ImageRecords` looks each path up; `ImageSight` has them in tables.
pub trait Reach<A: Allocator> {
    ghost records: { Self → Configuration };

    ghost subsystem: { Self → ℕ };

    ghost called: { Self → List ℕ };

    /// The configuration.
    fn config(&self) -> &Config<A>
        ensures { result.now.records ≡ records self.now };

    /// The channel subsystem of the image.
    fn css(&self) -> Css
        ensures { result ≡ subsystem self.now };

    /// The image's name.
    fn name(&self) -> Name
        ensures { result ≡ called self.now };

    /// Whether the image reaches a path.
    fn reaches(&self, path: Chpid) -> bool
        ensures { result ≡ sight.reaches (lookup_of (records self.now)) (subsystem self.now) (called self.now) path };

    /// Whether a path is online to the image.
    fn is_online(&self, path: Chpid) -> bool
        ensures { result ≡ mask.is_online (lookup_of (records self.now)) (subsystem self.now) (called self.now) path };
}

/// The image of a name in a channel subsystem, each of whose paths is looked up in the records of a
/// configuration.
#[derive(Drop)]
pub struct ImageRecords<'a, A: Allocator> {
    config: &'a Config<A>,
    css: Css,
    name: Name,
}

impl<'a, A: Allocator> ImageRecords<'a, A> {
    /// The image of this name in this channel subsystem.
    pub fn new(config: &'a Config<A>, css: Css, name: Name) -> Self
        ensures { result ≡ record { config = config.entry; css = css; name = name } }
    {
        ImageRecords { config, css, name }
    }
}

impl<'a, A: Allocator> Reach<A> for ImageRecords<'a, A> {
    ghost records = { λ r. r.config.now.records };

    ghost subsystem = { λ r. r.css };

    ghost called = { λ r. r.name };

    fn config(&self) -> &Config<A> {
        self.config
    }

    fn css(&self) -> Css {
        self.css
    }

    fn name(&self) -> Name {
        self.name
    }

    fn reaches(&self, path: Chpid) -> bool {
        reaches_path(self.config, self.css, self.name, path)
    }

    fn is_online(&self, path: Chpid) -> bool {
        is_path_online(self.config, self.css, self.name, path)
    }
}
