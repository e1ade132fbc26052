ghost use Rattle.std.specs.Prelude.{◌≡◌};
ghost use Rattle.iocm_headline.specs.Splitting.{after_all, AllNamesComeHome};

use iocm_board::Identity;
use iocm_system::{Caller, System};

/// Splits so many callers off, each off the one before, and joins all of them again: the one that
/// is left bears the names of all, each once.
pub fn names_stay_apart<B: Identity>(system: &System<B>, mut me: Caller<B>, count: u32) -> Caller<B>
    requires mine { me.tag ≡ system.now.board.tag }
    ensures tag { result.tag ≡ me.tag }
    ensures names { result.names ≡ after_all count me.names }
{
    if count == 0 {
        return me;
    }
    let other = system.split(&mut me);
    let other = names_stay_apart(system, other, count - 1);
    system.join(me, other)
}

/// If the first caller of a system is split so, however often, and all are joined again, then the
/// caller that is left bears every name that was lent: so `System::close` may be called.
pub fn all_names_come_home()
    ensures { AllNamesComeHome }
{}
