ghost use Rattle.iocm_examples.specs.Refusals.{Keys, ABusySubchannel, PendingStatus};
ghost use Rattle.iocm_examples.specs.FirstRefusals.{ANumberForTwo, DepthFirst};

/// Edits that are refused, by their keys and by subchannels that are busy or have status pending,
/// computed.
pub fn refusals_are_as_worked()
    ensures keys { Keys }
    ensures busy { ABusySubchannel }
    ensures pending { PendingStatus }
{}

/// One number carried by two devices, and which refusal comes first where two would be right,
/// computed.
pub fn first_refusals_are_as_worked()
    ensures number { ANumberForTwo }
    ensures depth { DepthFirst }
{}
