ghost use Rattle.std.specs.Prelude.{◌≡◌, count_by};
ghost use Rattle.std.specs.FinMap.{entries};
ghost use Rattle.iocm_answer.specs.Census as meaning;

use iocm_config::Config;
use iocm_types::Key;
use std::fmt;

/// How much a configuration has. The word is own.
#[derive(Clone, Copy, PartialEq, Eq)]
pub struct Census {
    /// Records of all kinds, online ones too.
    pub records: usize,
    /// Images.
    pub images: usize,
    /// Channel paths.
    pub paths: usize,
    /// Control units.
    pub units: usize,
    /// Devices.
    pub devices: usize,
}

impl Census {
    /// That of a configuration. The time is in proportion to its records.
    pub fn of(config: &Config) -> Self
        ensures { result ≡ meaning.census_of config.now.records }
    {
        Census {
            records: config.len(),
            images: count_images(config),
            paths: count_paths(config),
            units: count_units(config),
            devices: count_devices(config),
        }
    }
}

fn count_images(config: &Config) -> usize
    ensures { result ≡ count_by meaning.is_image (entries config.now.records) }
{
    config
        .walk()
        .filter(|row| matches!(row.0, Key::Image(_, _)))
        .count()
}

fn count_paths(config: &Config) -> usize
    ensures { result ≡ count_by meaning.is_path (entries config.now.records) }
{
    config
        .walk()
        .filter(|row| matches!(row.0, Key::Path(_, _)))
        .count()
}

fn count_units(config: &Config) -> usize
    ensures { result ≡ count_by meaning.is_unit (entries config.now.records) }
{
    config
        .walk()
        .filter(|row| matches!(row.0, Key::Unit(_)))
        .count()
}

fn count_devices(config: &Config) -> usize
    ensures { result ≡ count_by meaning.is_device (entries config.now.records) }
{
    config
        .walk()
        .filter(|row| matches!(row.0, Key::Device(_, _)))
        .count()
}

/// The counts in words, as `3 images, 4 paths, 1 control unit, 256 devices`.
impl fmt::Display for Census {
    ghost use Rattle.std.specs.Prelude.{Some};
    ghost use Rattle.iocm_answer.specs.Census.{census_text};

    ghost output = { λ c. Some (census_text c) };

    fn fmt<W: fmt::Write>(&self, f: &mut fmt::Formatter<W>) -> fmt::Result {
        let images = Several(self.images, "image");
        let paths = Several(self.paths, "path");
        let units = Several(self.units, "control unit");
        let devices = Several(self.devices, "device");
        write!(f, "{images}, {paths}, {units}, {devices}")
    }
}

/// So many of something. Behind 1 the word is as it is, else it has an `s`.
#[derive(Clone, Copy)]
struct Several<'a>(usize, &'a str);

impl<'a> fmt::Display for Several<'a> {
    ghost use Rattle.std.specs.Prelude.{Some};
    ghost use Rattle.iocm_answer.specs.Census.{several};

    ghost output = { λ s. Some (several s.0 s.1.now) };

    fn fmt<W: fmt::Write>(&self, f: &mut fmt::Formatter<W>) -> fmt::Result {
        let (count, what) = (self.0, self.1);
        match count {
            1 => write!(f, "1 {what}"),
            _ => write!(f, "{count} {what}s"),
        }
    }
}
