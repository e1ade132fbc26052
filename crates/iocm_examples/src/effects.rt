ghost use Rattle.iocm_examples.specs.Effects.{AnInverse, Effects};

/// The inverse of an edit, and effects: the cells that edits write, with their values, computed.
pub fn effects_are_as_worked()
    ensures inverse { AnInverse }
    ensures effects { Effects }
{}
