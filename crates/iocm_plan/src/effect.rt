ghost use Rattle.std.specs.Prelude.{◌≡◌, ◌&&◌, false, not, Some};
ghost use Rattle.std.specs.Option.{option_eq, option_map};
ghost use Rattle.iocm_model.specs.Machine.Configuration.{lookup_of};
ghost use Rattle.iocm_model.specs.Change.Edit.{same_view};
ghost use Rattle.iocm_plan.specs.Effects as meaning;
ghost use Rattle.iocm_plan.specs.Left.{no_effect};
ghost use Rattle.iocm_plan.specs.Routes.{has_one_route};
ghost use Rattle.iocm_plan.specs.Seen.{on};
ghost use Rattle.iocm_plan.specs.Sides.{side_of};

use crate::online::is_on;
use crate::route::is_one_route;
use crate::side::Side;
use crate::sight::side_at;
use iocm_config::Config;
use iocm_types::{Chpid, DevNo, Image, SetNo, View};

/// What a change does to an image and a device: what the image sees of the device before and after, and whether
/// paths that no mask tells of go off.
#[derive(Clone, Copy, PartialEq, Eq)]
pub struct Effect {
    /// What the image sees of the device before; nothing where the image or the device isn't there, or isn't
    /// seen.
    pub before: Option<View>,
    /// What it sees after.
    pub after: Option<View>,
    /// Paths are online before and after, and none of them stays online by one route.
    pub interrupted: bool,
    /// Some path stays online by another route, so that it may go off and on again.
    pub offon: bool,
}

impl Effect {
    /// The device isn't seen any more.
    pub fn is_gone(&self) -> bool
        ensures { result ≡ meaning.gone self.now.before self.now.after }
    {
        self.before.is_some() && !self.after.is_some()
    }

    /// The device wasn't seen before.
    pub fn has_come(&self) -> bool
        ensures { result ≡ meaning.came self.now.before self.now.after }
    {
        self.after.is_some() && !self.before.is_some()
    }

    /// The device is seen in another way.
    pub fn is_changed(&self) -> bool
        ensures { result ≡ meaning.changed self.now.before self.now.after }
    {
        self.before.is_some() && self.after.is_some() && !is_one_view(&self.before, &self.after)
    }

    /// The device is seen as it was.
    pub fn is_same(&self) -> bool
        ensures { result ≡ meaning.same self.now.before self.now.after }
    {
        self.before.is_some() && is_one_view(&self.before, &self.after)
    }

    /// Some path was online, and none is.
    pub fn is_lost(&self) -> bool
        ensures { result ≡ meaning.lost self.now.before self.now.after }
    {
        0 < online(&self.before) && online(&self.after) == 0
    }

    /// Several paths were online, and one is.
    pub fn has_one_path_left(&self) -> bool
        ensures { result ≡ meaning.onepath self.now.before self.now.after }
    {
        1 < online(&self.before) && online(&self.after) == 1
    }

    /// A row of a plan tells it: what is seen differs, or the device is interrupted.
    pub fn has_row(&self) -> bool
        ensures { result ≡ meaning.has_row self.now }
    {
        !is_one_view(&self.before, &self.after) || self.interrupted
    }

    /// The image is affected: a row tells it, or a path may go off and on.
    pub fn affects(&self) -> bool
        ensures { result ≡ meaning.affects self.now }
    {
        self.has_row() || self.offon
    }
}

/// Whether the same is seen.
fn is_one_view(before: &Option<View>, after: &Option<View>) -> bool
    ensures { result ≡ option_eq same_view before.now after.now }
{
    match (before, after) {
        (Some(view), Some(other)) => is_same_view(view, other),
        (None, None) => true,
        _ => false,
    }
}

/// Whether two views are the same.
fn is_same_view(view: &View, other: &View) -> bool
    ensures { result ≡ same_view view.now other.now }
{
    view.device == other.device
        && view.paths == other.paths
        && view.pim == other.pim
        && view.pam == other.pam
}

/// How many paths in a view are online.
fn online(view: &Option<View>) -> u32
    ensures { result ≡ on view.now }
{
    match view {
        Some(view) => view.pam.bits().count_ones(),
        None => 0,
    }
}

/// What a change does to an image and a device that are there before and after.
pub fn effect_on(before: &Side<'_>, after: &Side<'_>) -> Effect
    ensures { result ≡ meaning.effect_between (Some (side_of before.now)) (Some (side_of after.now)) }
{
    Effect {
        before: before.view,
        after: after.view,
        interrupted: is_interrupted(before, after),
        offon: may_go_off_and_on(before, after),
    }
}

/// Whether paths are online before and after, and none of them stays with one route.
fn is_interrupted(before: &Side<'_>, after: &Side<'_>) -> bool
    ensures { result ≡ meaning.interrupted (Some (side_of before.now)) (Some (side_of after.now)) }
{
    0 < online(&before.view) && 0 < online(&after.view) && !keeps_a_path(before, after)
}

/// Whether some path that stays online has one route.
fn keeps_a_path(before: &Side<'_>, after: &Side<'_>) -> bool
    ensures { result ≡ meaning.keeps_a_path (Some (side_of before.now)) (Some (side_of after.now)) }
{
    let Some(view) = &before.view else {
        return false;
    };
    view.paths
        .as_slice()
        .iter()
        .any(|path| stays(before, after, *path))
}

/// Whether a path is online before and after by one route.
fn stays(before: &Side<'_>, after: &Side<'_>, path: Chpid) -> bool
    ensures { result ≡ (meaning.stays_on (Some (side_of before.now)) (Some (side_of after.now)) path
        && has_one_route (Some (side_of before.now)) (Some (side_of after.now)) path) }
{
    is_on(before, path) && is_on(after, path) && is_one_route(before, after, path)
}

/// Whether some path that stays online has another route.
fn may_go_off_and_on(before: &Side<'_>, after: &Side<'_>) -> bool
    ensures { result ≡ meaning.offon (Some (side_of before.now)) (Some (side_of after.now)) }
{
    let Some(view) = &before.view else {
        return false;
    };
    view.paths
        .as_slice()
        .iter()
        .any(|path| is_rerouted(before, after, *path))
}

/// Whether a path is online before and after by another route.
fn is_rerouted(before: &Side<'_>, after: &Side<'_>, path: Chpid) -> bool
    ensures { result ≡ (meaning.stays_on (Some (side_of before.now)) (Some (side_of after.now)) path
        && not (has_one_route (Some (side_of before.now)) (Some (side_of after.now)) path)) }
{
    is_on(before, path) && is_on(after, path) && !is_one_route(before, after, path)
}

/// What a change does to an image and a device, each of which is there before and after, or not.
pub fn effect_between(before: &Option<Side<'_>>, after: &Option<Side<'_>>) -> Effect
    ensures { result ≡ meaning.effect_between (option_map side_of before.now) (option_map side_of after.now) }
{
    match (before, after) {
        (Some(before), Some(after)) => effect_on(before, after),
        (Some(before), None) => seen_alone(before.view, None),
        (None, Some(after)) => seen_alone(None, after.view),
        (None, None) => no_effect(),
    }
}

/// Where nothing is seen before and after.
pub fn no_effect() -> Effect
    ensures { result ≡ no_effect }
{
    seen_alone(None, None)
}

/// Where the image and the device are there before alone, or after alone, or neither, no path stays online.
fn seen_alone(before: Option<View>, after: Option<View>) -> Effect
    ensures { result ≡ record { before = before; after = after; interrupted = false; offon = false } }
{
    Effect {
        before,
        after,
        interrupted: false,
        offon: false,
    }
}

/// What a change from one configuration to another does to the image at a place and the device of a number in a set.
pub fn effect_at(old: &Config, new: &Config, image: Image, set: SetNo, device: DevNo) -> Effect
    ensures { result ≡ meaning.effect (lookup_of old.now.records) (lookup_of new.now.records) image set device }
{
    let (css, mif) = (image.css, image.mif);
    let before = side_at(old, Image { css, mif }, set, device);
    let after = side_at(new, image, set, device);
    effect_between(&before, &after)
}
