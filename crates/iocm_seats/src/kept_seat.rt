ghost use Rattle.std.specs.Prelude.{◌≡◌};

use crate::Seat;
use crate::enabled_phase::EnabledPhase;
use crate::word::{Halfword, Word};
use iocm_types::{DevNo, Live, Mask, Parm, Paths, View};
use std::marker::Model;

/// A seat as a machine keeps it, in 19 bytes that need no even address. Two are for the device, nine
/// for its paths, three for the masks and four for the parameter. The last one tells whether the
/// subchannel is enabled, and its phase. So a slot that may have a seat takes 20 bytes, where one of
/// a `Seat` takes 24. Contracts see the seat.
#[derive(Drop)]
pub struct KeptSeat {
    device: Halfword,
    paths: Paths,
    pim: Mask,
    pam: Mask,
    lpm: Mask,
    parm: Word,
    state: EnabledPhase,
}

impl Model for KeptSeat {
    ghost use Rattle.iocm_seats.specs.declared.seat.Seat.{Seat};
    ghost use Rattle.iocm_seats.specs.EnabledPhases.{is_enabled, phase_of};

    ghost Value = { Seat };

    ghost view = { λ k. record {
      view = record { device = k.device; paths = k.paths; pim = k.pim; pam = k.pam };
      live = record {
        parm = k.parm;
        enabled = is_enabled k.state;
        lpm = k.lpm;
        phase = phase_of k.state;
      };
    } };
}

impl KeptSeat {
    /// A seat, to be kept.
    pub fn new(seat: &Seat) -> Self
        ensures { result ≡ seat.now }
    {
        KeptSeat {
            device: Halfword::new(seat.view.device.number()),
            paths: seat.view.paths,
            pim: seat.view.pim,
            pam: seat.view.pam,
            lpm: seat.live.lpm,
            parm: Word::new(seat.live.parm.number()),
            state: EnabledPhase::new(seat.live.enabled, seat.live.phase),
        }
    }

    /// What the image sees.
    pub fn view(&self) -> View
        ensures { result ≡ self.now.view }
    {
        View {
            device: DevNo::new(self.device.number()),
            paths: self.paths,
            pim: self.pim,
            pam: self.pam,
        }
    }

    /// What the subchannel remembers.
    pub fn live(&self) -> Live
        ensures { result ≡ self.now.live }
    {
        Live {
            parm: Parm::new(self.parm.number()),
            enabled: self.state.is_enabled(),
            lpm: self.lpm,
            phase: self.state.phase(),
        }
    }

    /// Lets the subchannel remember this. What its image sees stays.
    pub fn set_live(&mut self, live: Live)
        ensures { self.new ≡ record { view = self.old.view; live = live } }
    {
        self.lpm = live.lpm;
        self.parm = Word::new(live.parm.number());
        self.state = EnabledPhase::new(live.enabled, live.phase);
    }
}
