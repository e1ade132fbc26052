//! Lines that were worked by hand. Each example is the contract of a function that does nothing.
ghost use Rattle.iocm_answer.specs.Worked.{Codes, WhatStoreGives, Events, Changes, Refusals};

/// The lines of condition codes, of what TEST and STORE give, and of device events: computed.
pub fn answers_to_images_are_as_worked()
    ensures codes { Codes }
    ensures stored { WhatStoreGives }
    ensures events { Events }
{}

/// The lines of what operators ask for: computed.
pub fn answers_to_operators_are_as_worked()
    ensures { Changes }
{}

/// The lines of refusals: computed.
pub fn refusals_are_as_worked()
    ensures { Refusals }
{}
