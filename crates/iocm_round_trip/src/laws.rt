//! What holds of the definitions themselves. Each law is the contract of a function that does
//! nothing.
ghost use Rattle.iocm_round_trip.specs.Again.{GivesRecords, IsOfItsDeck, ReadsConfigurationAgain, ReadsDeckAgain};
ghost use Rattle.iocm_round_trip.specs.Running.{AreGivenRuns, AreMaximal, AreRunsOfDevices};
ghost use Rattle.iocm_round_trip.specs.Stating.{ReadsChpidAgain, ReadsCntlunitAgain, ReadsIdAgain};
ghost use Rattle.iocm_round_trip.specs.Stating.{ReadsIodeviceAgain, ReadsResourceAgain};
ghost use Rattle.iocm_round_trip.specs.Stating.{ReadsStatementsAgain};

/// Runs of devices stand for the devices, in their order, and no two neighbours could be one. Runs
/// of devices that decks give are such.
pub fn runs_are_the_devices()
    ensures devices { AreRunsOfDevices }
    ensures maximal { AreMaximal }
    ensures given { AreGivenRuns }
{}

/// Canonical statements that can be written are read from their bytes as these statements.
pub fn statements_are_read_again()
    ensures { ReadsStatementsAgain }
{}

/// Each statement of the canonical deck can be written, has no fault, and is read as the records
/// that it was written of.
pub fn statements_are_read_as_records()
    ensures id { ReadsIdAgain }
    ensures resource { ReadsResourceAgain }
    ensures chpid { ReadsChpidAgain }
    ensures cntlunit { ReadsCntlunitAgain }
    ensures iodevice { ReadsIodeviceAgain }
{}

/// What is written of a configuration is read as its deck, if its records, each under its own key,
/// are such as decks give; each record that is read from a deck is such; and a configuration that
/// was read from a deck is that of its deck. So what is written of it is read as the same
/// configuration.
///
/// Promise: what `write` prints of a deck is read again as the same configuration.
pub fn decks_are_read_again()
    ensures given { GivesRecords }
    ensures deck { ReadsDeckAgain }
    ensures own { IsOfItsDeck }
    ensures same { ReadsConfigurationAgain }
{}
