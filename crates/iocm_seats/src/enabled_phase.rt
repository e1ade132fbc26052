ghost use Rattle.std.specs.Prelude.{◌≡◌};
ghost use Rattle.iocm_seats.specs.EnabledPhases.{is_enabled, phase_of};

use iocm_types::{Function, Phase};

/// Whether a subchannel is enabled, and its phase, both in one byte. The word is own.
#[derive(Clone, Copy)]
pub(crate) enum EnabledPhase {
    DisabledIdle,
    DisabledStartPending,
    DisabledStartActive,
    DisabledHalt,
    DisabledClear,
    DisabledStartStatusPending,
    DisabledHaltStatusPending,
    DisabledClearStatusPending,
    EnabledIdle,
    EnabledStartPending,
    EnabledStartActive,
    EnabledHalt,
    EnabledClear,
    EnabledStartStatusPending,
    EnabledHaltStatusPending,
    EnabledClearStatusPending,
}

impl EnabledPhase {
    /// Whether a subchannel is enabled, with its phase.
    pub(crate) fn new(enabled: bool, phase: Phase) -> Self
        ensures enabled { is_enabled result ≡ enabled }
        ensures phase { phase_of result ≡ phase }
    {
        match (enabled, phase) {
            (false, Phase::Idle) => EnabledPhase::DisabledIdle,
            (false, Phase::StartPending) => EnabledPhase::DisabledStartPending,
            (false, Phase::StartActive) => EnabledPhase::DisabledStartActive,
            (false, Phase::Halt) => EnabledPhase::DisabledHalt,
            (false, Phase::Clear) => EnabledPhase::DisabledClear,
            (false, Phase::Pending(Function::Start)) => EnabledPhase::DisabledStartStatusPending,
            (false, Phase::Pending(Function::Halt)) => EnabledPhase::DisabledHaltStatusPending,
            (false, Phase::Pending(Function::Clear)) => EnabledPhase::DisabledClearStatusPending,
            (true, Phase::Idle) => EnabledPhase::EnabledIdle,
            (true, Phase::StartPending) => EnabledPhase::EnabledStartPending,
            (true, Phase::StartActive) => EnabledPhase::EnabledStartActive,
            (true, Phase::Halt) => EnabledPhase::EnabledHalt,
            (true, Phase::Clear) => EnabledPhase::EnabledClear,
            (true, Phase::Pending(Function::Start)) => EnabledPhase::EnabledStartStatusPending,
            (true, Phase::Pending(Function::Halt)) => EnabledPhase::EnabledHaltStatusPending,
            (true, Phase::Pending(Function::Clear)) => EnabledPhase::EnabledClearStatusPending,
        }
    }

    /// Whether it is enabled.
    pub(crate) fn is_enabled(self) -> bool
        ensures { result ≡ is_enabled self }
    {
        match self {
            EnabledPhase::DisabledIdle
            | EnabledPhase::DisabledStartPending
            | EnabledPhase::DisabledStartActive
            | EnabledPhase::DisabledHalt
            | EnabledPhase::DisabledClear
            | EnabledPhase::DisabledStartStatusPending
            | EnabledPhase::DisabledHaltStatusPending
            | EnabledPhase::DisabledClearStatusPending => false,
            EnabledPhase::EnabledIdle
            | EnabledPhase::EnabledStartPending
            | EnabledPhase::EnabledStartActive
            | EnabledPhase::EnabledHalt
            | EnabledPhase::EnabledClear
            | EnabledPhase::EnabledStartStatusPending
            | EnabledPhase::EnabledHaltStatusPending
            | EnabledPhase::EnabledClearStatusPending => true,
        }
    }

    /// Its phase.
    pub(crate) fn phase(self) -> Phase
        ensures { result ≡ phase_of self }
    {
        match self {
            EnabledPhase::DisabledIdle | EnabledPhase::EnabledIdle => Phase::Idle,
            EnabledPhase::DisabledStartPending | EnabledPhase::EnabledStartPending => {
                Phase::StartPending
            }
            EnabledPhase::DisabledStartActive | EnabledPhase::EnabledStartActive => {
                Phase::StartActive
            }
            EnabledPhase::DisabledHalt | EnabledPhase::EnabledHalt => Phase::Halt,
            EnabledPhase::DisabledClear | EnabledPhase::EnabledClear => Phase::Clear,
            EnabledPhase::DisabledStartStatusPending | EnabledPhase::EnabledStartStatusPending => {
                Phase::Pending(Function::Start)
            }
            EnabledPhase::DisabledHaltStatusPending | EnabledPhase::EnabledHaltStatusPending => {
                Phase::Pending(Function::Halt)
            }
            EnabledPhase::DisabledClearStatusPending | EnabledPhase::EnabledClearStatusPending => {
                Phase::Pending(Function::Clear)
            }
        }
    }
}
