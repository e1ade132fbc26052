use iocm_types::Place;
use std::alloc::Allocator;

/// What a change of the configuration did to the numbers: the places that had a number and have
/// none now, and those that have one now and had none, each with that number, by place. The word is
/// own.
#[derive(Drop)]
pub struct Renumbered<C: Allocator> {
    pub freed: Vec<(Place, u16), C>,
    pub given: Vec<(Place, u16), C>,
}
