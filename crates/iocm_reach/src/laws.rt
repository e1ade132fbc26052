ghost use Rattle.iocm_reach.specs.Worked.{ChangesAreFollowed, IsWorkedOut};

/// Which images of a small machine reach a path, and to which it is online, as worked out by hand.
pub fn a_small_machine_by_hand()
    ensures { IsWorkedOut }
{}

/// The table of a configuration can follow each record that is put, changed or taken away: it is
/// what `ReachTable::renew` requires.
pub fn changes_can_be_followed()
    ensures { ChangesAreFollowed }
{}
