ghost use Rattle.std.specs.Prelude.{◌≡◌, ◌<◌, ◌^◌, sum_by};
ghost use Rattle.iocm_model.specs.Machine.Configuration.{devices_of, lookup_of};
ghost use Rattle.iocm_deck_writer.specs.Device.{runs};
ghost use Rattle.iocm_sight.specs.Counts as meaning;

use crate::runs::{DeviceRun, with_run};
use crate::sight::NamedSight;
use iocm_types::View;

/// How many devices an image sees, and how many of them with no path online, and with one.
#[derive(Clone, Copy, PartialEq, Eq)]
pub struct SeenCounts {
    /// Those that it sees.
    pub devices: usize,
    /// Those with no path online.
    pub no_path: usize,
    /// Those with one.
    pub one_path: usize,
}

/// The counts of an image, by all runs of devices. A view is asked for once for each run.
pub fn seen_counts<'a>(sight: &mut NamedSight<'a>, every: &[DeviceRun<'a>]) -> SeenCounts
    requires runs { every.now ≡ runs (devices_of sight.old.records) }
    requires few { sum_by (λ r. r.count) every.now < 2 ^ 64 }
    ensures counts { result ≡ meaning.seen_counts (lookup_of sight.entry.now.records) sight.entry.now.image
        (devices_of sight.entry.now.records) }
    ensures same { sight.new ≡ sight.old }
{
    let mut devices = 0;
    let mut no_path = 0;
    let mut one_path = 0;
    for run in every {
        let view = sight.view_of(run.first());
        devices = with_run(devices, run.count(), view.is_some());
        no_path = with_run(no_path, run.count(), has_online(&view, 0));
        one_path = with_run(one_path, run.count(), has_online(&view, 1));
    }
    SeenCounts {
        devices,
        no_path,
        one_path,
    }
}

/// Whether a device is seen with so many paths online.
fn has_online(view: &Option<View>, online: u32) -> bool
    ensures { result ≡ meaning.has_online online view.now }
{
    match view {
        Some(view) => view.pam.bits().count_ones() == online,
        None => false,
    }
}
