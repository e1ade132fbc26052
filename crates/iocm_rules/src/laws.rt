ghost use Rattle.iocm_rules.specs.Near.{NearEditsKeepTheRest};

/// After edits of devices and of online records alone, from a sound state on that keeps the rules,
/// all other records are as they were, and all other devices have their numbers.
pub fn near_edits_keep_the_rest()
    ensures { NearEditsKeepTheRest }
{}
