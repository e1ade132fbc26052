ghost use Rattle.iocm_headline.specs.Watching.{ACountNeverFalls};

/// Along all that a caller does on its system, alone or beside other threads, the count of calls
/// that it has seen never falls: where it looks, makes calls or gets them back, is split or joined.
/// Each clause of `System::seen`, of the calls, of `split` and of `join` is one step of such a run.
pub fn a_count_never_falls()
    ensures { ACountNeverFalls }
{}
