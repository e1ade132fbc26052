ghost use Rattle.std.specs.Prelude.{◌≡◌, ◌||◌, IfOk};
ghost use Rattle.iocm_derive.specs.Derived as derived;
ghost use Rattle.iocm_model.specs.Machine.Configuration.{lookup_of};
ghost use Rattle.iocm_plan_filter.specs.Connected as meaning;

use iocm_config::Config;
use iocm_derive::sees;
use iocm_filter::Filters;
use iocm_plan::devices_asked;
use iocm_sight::DeviceKey;
use iocm_types::{Css, Image, Mif};
use std::alloc::{AllocError, Global};

/// The devices of one of two configurations, or of both, that are asked for; none if no device is.
pub(crate) fn devices_named(
    alloc: Global,
    filters: &Filters,
    old: &Config,
    new: &Config,
) -> Result<Vec<DeviceKey>, AllocError>
    ensures { IfOk result
        (λ devices. devices.items ≡ meaning.devices_named filters.now old.now.records new.now.records) }
{
    if filters.devices().is_empty() {
        return Ok(Vec::new(alloc));
    }
    devices_asked(alloc, filters, old, new)
}

/// Whether the image at a place sees one of these devices before or after.
pub(crate) fn sees_any(
    old: &Config,
    new: &Config,
    css: Css,
    mif: Mif,
    devices: &[DeviceKey],
) -> bool
    ensures { result ≡ meaning.sees_any (lookup_of old.now.records) (lookup_of new.now.records)
        (record { css = css; mif = mif }) devices.now }
{
    devices
        .iter()
        .any(|device| sees_before_or_after(old, new, css, mif, device))
}

fn sees_before_or_after(old: &Config, new: &Config, css: Css, mif: Mif, device: &DeviceKey) -> bool
    ensures { result ≡ (derived.sees (lookup_of old.now.records) (record { css = css; mif = mif }) device.now.set
        device.now.number || derived.sees (lookup_of new.now.records) (record { css = css; mif = mif }) device.now.set
        device.now.number) }
{
    sees(old, Image { css, mif }, device.set, device.number)
        || sees(new, Image { css, mif }, device.set, device.number)
}
