//! What a change of a configuration does to images and devices, as values.
//!
//! `effect_at` tells what an image sees of a device before and after, whether the device is lost to it or interrupted,
//! and whether a path may go off and on though no mask shows it.
//!
//! Both configurations are all that a plan is of: no machine, no subchannel number.
//!
//! `runs_asked` gives the devices of both configurations that filters ask for, in runs to which a change does the
//! same, and `effects_on_runs` what filters leave of what it does to an image and each of these: so an image is asked
//! once for each run, and not for each device. Laws: what is told of the first of a run is told of the others, the
//! devices of the runs are all that are asked for, without filters all is told, a plan of a configuration and itself
//! tells nothing, and what is seen is the view at the device's subchannel.
//!
//! Begin with `specs/Seen.antt`, `specs/Routes.antt`, `specs/Effects.antt` and `specs/Left.antt`. What names no source
//! is our own.
#![tactic(auto)]

mod both;
mod effect;
mod laws;
mod left;
mod online;
mod route;
mod run_effects;
mod runs;
mod side;
mod sight;

pub use both::{devices_asked, images_of_both};
pub use effect::{Effect, effect_at, effect_between, no_effect};
pub use laws::{
    alike_are_told_alike, nothing_is_told_of_no_change, runs_are_the_devices, seen_is_the_view,
    the_plan_goes_back, without_filters_all_is_told, words_are_as_worked,
};
pub use left::left_between;
pub use run_effects::{effects_on_runs, is_affected};
pub use runs::{DeviceRun, is_after, is_same_truth, runs_asked};
pub use side::Side;
pub use sight::{Sight, side_at, sight_at};
