ghost use Rattle.std.specs.Prelude.{◌≡◌, ◌++◌, IfOk, OnOk};
ghost use Rattle.std.specs.List.{flat_map};
ghost use Rattle.std.specs.Option.{option_copied};
ghost use Rattle.iocm_difference.specs.Met.{pair_met};
ghost use Rattle.iocm_plan_text.specs.Limits as meaning;

use iocm_config::Config;
use iocm_difference::{Merge, Met};
use iocm_numbers::is_reached;
use iocm_record::{Record, RecordBody};
use iocm_types::{Css, SetNo};
use std::alloc::{AllocError, Global};

/// What is noted of a limit.
const WORDS: &[u8] =
    b" is less than the devices of the set before and after: on a running machine one that stays may \
    have too high a number (V13)\n";

/// The subchannel sets of channel subsystems whose limit after is less than the devices of the set before and after
/// together, in the order of keys. The time is that of one walk over both configurations for each limit.
///
/// `AllocError` (M1): memory ran out.
pub fn low_limits(
    alloc: Global,
    old: &Config,
    new: &Config,
) -> Result<Vec<(Css, SetNo)>, AllocError>
    ensures { IfOk result (λ limits. limits.items ≡ meaning.low_limits old.now.records new.now.records) }
{
    let mut limits = Vec::new(alloc);
    let mut merge = Merge::new(old, new);
    while let Some(met) = merge.step() {
        if let Some(limit) = low_limit(old, new, met.new) {
            limits.push(limit)?;
        }
    }
    Ok(limits)
}

/// The subchannel set of a limit, if this is one and it is too low.
fn low_limit(old: &Config, new: &Config, entry: Option<&Record>) -> Option<(Css, SetNo)>
    ensures { result ≡ meaning.low_limit old.now.records new.now.records (option_copied entry.entry) }
{
    match entry {
        Some(entry) => low_limit_of(old, new, entry),
        None => None,
    }
}

fn low_limit_of(old: &Config, new: &Config, entry: &Record) -> Option<(Css, SetNo)>
    ensures { result ≡ meaning.low_limit_of old.now.records new.now.records entry.now }
{
    match entry.body() {
        RecordBody::Limit(css, set, limit) => low_if(
            is_too_low(old, new, *css, *set, *limit),
            *css,
            *set,
        ),
        _ => None,
    }
}

fn low_if(is_low: bool, css: Css, set: SetNo) -> Option<(Css, SetNo)>
    ensures { result ≡ meaning.low_if is_low css set }
{
    if is_low { Some((css, set)) } else { None }
}

/// Puts a note behind a text for each of these limits.
///
/// `AllocError` (M1): memory ran out.
pub(crate) fn put_limit_notes(
    text: &mut Vec<u8>,
    alloc: Global,
    limits: &[(Css, SetNo)],
) -> Result<(), AllocError>
    ensures { OnOk result (text.new.items ≡ text.old.items ++ flat_map meaning.limit_line limits.now) }
{
    for limit in limits {
        put_limit_line(text, alloc, limit)?;
    }
    Ok(())
}

/// Puts the note of a limit behind a text.
#[tactic(auto, unfolding(crate::specs::Limits::limit_line))]
fn put_limit_line(text: &mut Vec<u8>, alloc: Global, limit: &(Css, SetNo)) -> Result<(), AllocError>
    ensures { OnOk result (text.new.items ≡ text.old.items ++ meaning.limit_line limit.now) }
{
    put_limit_place(text, alloc, limit.0, limit.1)?;
    text.extend_from_slice(WORDS)?;
    Ok(())
}

/// Puts which limit is meant behind a text.
fn put_limit_place(
    text: &mut Vec<u8>,
    alloc: Global,
    css: Css,
    set: SetNo,
) -> Result<(), AllocError>
    ensures { OnOk result (text.new.items ≡ text.old.items ++ meaning.limit_place css set) }
{
    let place = format!(in alloc; "note: MAXDEV of set {set} in channel subsystem {css}")?;
    text.extend_from_slice(place.as_bytes())?;
    Ok(())
}

/// Whether a limit of subchannels of a set in a channel subsystem is less than the devices that take a number there
/// before or after. The time is that of one walk over both configurations.
pub fn is_too_low(old: &Config, new: &Config, css: Css, set: SetNo, limit: u16) -> bool
    ensures { result ≡ meaning.is_too_low old.now.records new.now.records css set limit }
{
    let mut left = limit;
    let mut merge = Merge::new(old, new);
    while let Some(met) = merge.step() {
        if takes_one(old, new, css, set, &met) {
            if left == 0 {
                return true;
            }
            left -= 1;
        }
    }
    false
}

/// Whether a device takes a number before or after.
fn takes_one(
    old: &Config,
    new: &Config,
    css: Css,
    set: SetNo,
    met: &Met<'_, Global, Global>,
) -> bool
    ensures { result ≡ meaning.takes_one old.now.records new.now.records css set (pair_met met.now) }
{
    takes_number(old, css, set, met.old) || takes_number(new, css, set, met.new)
}

/// Whether this is a device of the set, and the channel subsystem reaches it.
fn takes_number(config: &Config, css: Css, set: SetNo, entry: Option<&Record>) -> bool
    ensures { result ≡ meaning.takes_number config.now.records css set (option_copied entry.entry) }
{
    match entry {
        Some(entry) => takes_number_as(config, css, set, entry),
        None => false,
    }
}

fn takes_number_as(config: &Config, css: Css, set: SetNo, entry: &Record) -> bool
    ensures { result ≡ meaning.takes_number_as config.now.records css set entry.now }
{
    match entry.body() {
        RecordBody::Device(device) => {
            device.set == set && is_reached(config, css, device.lists.units())
        }
        _ => false,
    }
}
