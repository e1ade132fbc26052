ghost use Rattle.iocm_examples.specs.Orders.{AnOperation, NotOperational, StatusInTheWay};
ghost use Rattle.iocm_examples.specs.Orders.{BusyWithAnother, APendingStart};
ghost use Rattle.iocm_examples.specs.FunctionsInProgress.{BitsOfPhases, HaltAndClear};

/// Orders and their condition codes on one subchannel, computed.
pub fn orders_are_as_worked()
    ensures operation { AnOperation }
    ensures not_operational { NotOperational }
    ensures status { StatusInTheWay }
    ensures busy { BusyWithAnother }
    ensures start_pending { APendingStart }
{}

/// The status bits of each phase, and HALT and CLEAR while the other is in progress, computed.
pub fn functions_in_progress_are_as_worked()
    ensures bits { BitsOfPhases }
    ensures halt_and_clear { HaltAndClear }
{}
