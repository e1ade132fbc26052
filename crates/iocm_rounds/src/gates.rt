use iocm_system::Gate;

/// Who acts in a round.
#[derive(Clone, Copy, PartialEq, Eq)]
pub enum Actor {
    /// The first image.
    A,
    /// The second image.
    B,
    /// The first operator.
    P,
    /// The second operator.
    Q,
}

/// What the calls of all actors of a round pass.
pub trait Gates {
    /// Comes before the call of this index of an actor, counted from 0, on the actor's own thread.
    /// Whether the call may be made.
    fn before(&self, actor: Actor, index: usize) -> bool;

    /// Comes after that call was made, on the thread that got its receipt.
    fn after(&self, actor: Actor, index: usize);
}

/// Every call goes through.
#[derive(Clone, Copy)]
pub struct AllOpen;

impl Gates for AllOpen {
    fn before(&self, _actor: Actor, _index: usize) -> bool {
        true
    }

    fn after(&self, _actor: Actor, _index: usize) {}
}

/// What one actor's calls pass.
#[derive(Drop)]
pub(crate) struct Door<'a, G> {
    pub gates: &'a G,
    pub actor: Actor,
}

impl<'a, G: Gates> Gate for Door<'a, G> {
    fn before(&self, index: usize) -> bool {
        self.gates.before(self.actor, index)
    }

    fn after(&self, index: usize) {
        self.gates.after(self.actor, index);
    }
}
