ghost use Rattle.std.specs.Prelude.{◌≡◌, Option};
ghost use Rattle.iocm_types.specs.declared.refused.Refused as refused;
ghost use Rattle.iocm_plant.specs.Refusing.{Hinders, IsDue, no_memory};

use iocm_types::{At, Refused, Rule};
use std::alloc::AllocError;

/// What stands in the way of a call: a refusal, or lack of memory. The word is own.
#[derive(Clone, Copy)]
pub enum Obstacle {
    Refused(Refused),
    NoMemory,
}

impl From<AllocError> for Obstacle {
    ghost use Rattle.std.specs.Prelude.{◌≡◌};
    ghost use Rattle.iocm_plant.specs.declared.obstacle.Obstacle.TheVariants.{NoMemory};

    ghost from_gives = { λ _ o. o ≡ NoMemory };

    fn from(_error: AllocError) -> Self {
        Obstacle::NoMemory
    }
}

impl Obstacle {
    /// The refusal that it is; lack of memory is M1, about nothing that could be named.
    pub fn refusal(self) -> Refused
        ensures { (due : Option refused.Refused) → Hinders due self → IsDue due result }
    {
        match self {
            Obstacle::Refused(why) => why,
            Obstacle::NoMemory => Refused::about(Rule::M1, At::Nothing),
        }
    }
}
