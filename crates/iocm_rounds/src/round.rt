use iocm_board::Identity;
use iocm_core::Call;
use iocm_system::Caller;
use std::collections::VecDeque;

/// The calls of a round, of each actor in order.
#[derive(Drop)]
pub struct Round {
    /// Those of the first image.
    pub a: VecDeque<Call>,
    /// Those of the second image.
    pub b: VecDeque<Call>,
    /// Those of the first operator.
    pub p: VecDeque<Call>,
    /// Those of the second operator.
    pub q: VecDeque<Call>,
}

/// From where the calls of a round are made.
#[derive(Drop)]
pub struct Seats<B: Identity> {
    /// The first image.
    pub a: Caller<B>,
    /// The second image.
    pub b: Caller<B>,
    /// The worker, which makes the operators' calls.
    pub worker: Caller<B>,
}
