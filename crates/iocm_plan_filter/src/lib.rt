//! Which objects of a plan filters leave.
//!
//! An object is left if, for each kind of filters that is given, it is connected with one of what is asked for, before
//! or after. An image reaches paths and sees devices, a control unit has paths, a device names control units; an
//! object is connected with what it is, and with what it leads to by such steps in one direction. With `--lost` it
//! was on the way of a device that is lost, too.
//!
//! `objects_left` is all that the layer above calls. Law: without filters all objects are left.
//!
//! Begin with `specs/Connected.antt`, `specs/Lost.antt` and `specs/Left.antt`, and with `specs/Examples.antt` for what
//! is left. All of it is our own.
#![tactic(auto)]

mod asked;
mod by_device;
mod by_image;
mod by_path;
mod by_unit;
mod keys;
mod laws;
mod left;
mod lost;
mod steps;
mod ways;

pub use laws::{left_is_as_worked, without_filters_all_is_left};
pub use left::objects_left;
