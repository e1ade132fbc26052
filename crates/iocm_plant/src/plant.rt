ghost use Rattle.std.specs.Prelude.{◌≡◌};
ghost use Rattle.std.specs.FinMap as map;
ghost use Rattle.iocm_lookup.specs.Indexed.{IsIndexOf};
ghost use Rattle.iocm_model.specs.Operation.State.{seen_in, views_in, IsSound};

use iocm_config::Config;
use iocm_index::Index;
use iocm_numbers::Numbers;
use iocm_reach::ReachTable;
use iocm_seats::Seats;
use iocm_types::{Live, SubId, View};
use std::marker::Model;

/// A machine in operation: its configuration, the subchannel numbers of its devices, and what each
/// subchannel shows and remembers. Contracts see its state, and what has a place in its tables, so
/// that it can be put in without memory.
#[derive(Drop)]
pub struct Plant {
    pub(crate) config: Config,
    pub(crate) numbers: Numbers,
    pub(crate) index: Index,
    pub(crate) seats: Seats,
    /// Which images reach each path, and to which it is online. Contracts don't see it: by it a view
    /// is derived soon.
    pub(crate) reach: ReachTable,
}

impl Model for Plant {
    ghost use Rattle.std.specs.Prelude.{refl, List};
    ghost use Rattle.std.specs.FinMap as map;
    ghost use Rattle.std.specs.Coded.{code_by, coded×, coded_list, coded_ℕ, codes};
    ghost use Rattle.iocm_types.specs.declared.key.Key.{Key};
    ghost use Rattle.iocm_types.specs.declared.naming.Naming.{Naming};
    ghost use Rattle.iocm_types.specs.declared.place.Place.{Place};
    ghost use Rattle.iocm_types.specs.declared.place.NumberCell.{NumberCell};
    ghost use Rattle.iocm_types.specs.declared.sub_id.SubId.{SubId};
    ghost use Rattle.iocm_model.specs.Machine.Configuration.{Configuration};
    ghost use Rattle.iocm_model.specs.Machine.Numbering.{Numbering};
    ghost use Rattle.iocm_model.specs.Operation.State.{Lives};
    ghost use Rattle.iocm_reach.specs.Tabled.{IsReachOf};
    ghost use Rattle.iocm_plant.specs.Operating.{Operating, operating_of, IsOperating};

    ghost Value = { Operating };

    ghost coded = { code_by ((Configuration × (Numbering × Lives))
        × (List Key × (List Place × (List NumberCell × (List Naming × List SubId)))))
        (coded× (coded× (map.code (Prim.hlevel codes) (Prim.hlevel codes))
        (coded× (map.code (Prim.hlevel codes) coded_ℕ) (map.code (Prim.hlevel codes) (Prim.hlevel codes))))
        (coded× (coded_list (Prim.hlevel codes))
        (coded× (coded_list (Prim.hlevel codes))
        (coded× (coded_list (Prim.hlevel codes))
        (coded× (coded_list (Prim.hlevel codes)) (coded_list (Prim.hlevel codes)))))))
        (λ p. (
          (p.state.config, (p.state.numbers, p.state.lives)),
          (p.room.keys, (p.room.places, (p.room.cells, (p.room.namings, p.room.subchannels)))),
        ))
        (λ c. record {
          state = record { config = c.0.0; numbers = c.0.1.0; lives = c.0.1.1 };
          room = record {
            keys = c.1.0;
            places = c.1.1.0;
            cells = c.1.1.1.0;
            namings = c.1.1.1.1.0;
            subchannels = c.1.1.1.1.1;
          };
        }) (λ _. refl) };

    ghost view = { λ p. operating_of p.config p.numbers p.index p.seats };

    ghost invariant = { λ p. IsOperating p.config.records p.numbers.numbers p.index p.seats.seats
        × IsReachOf p.config.records p.reach };
}

impl Plant {
    /// The configuration.
    pub fn config(&self) -> &Config
        ensures { result.now.records ≡ self.now.state.config }
    {
        &self.config
    }

    /// The configuration alone: what else the machine has is let go.
    pub fn into_config(self) -> Config
        ensures { result.records ≡ self.state.config }
    {
        self.config
    }

    /// The subchannel numbers.
    pub fn numbers(&self) -> &Numbers
        ensures { result.now.numbers ≡ self.now.state.numbers }
    {
        &self.numbers
    }

    /// Who names whom in the configuration.
    pub fn index(&self) -> &Index
        ensures { IsIndexOf self.now.state.config result.now }
    {
        &self.index
    }

    /// What is seen at a subchannel, if it is there.
    pub fn view(&self, subchannel: SubId) -> Option<View>
        ensures { result ≡ seen_in self.now.state subchannel }
    {
        self.seats.view(subchannel)
    }

    /// What a subchannel remembers, if it is there.
    pub fn live(&self, subchannel: SubId) -> Option<Live>
        ensures { result ≡ map.get self.now.state.lives subchannel }
    {
        self.seats.live(subchannel)
    }

    /// How many subchannels there are.
    pub fn subchannels(&self) -> usize
        ensures { result ≡ map.len (views_in self.now.state) }
    {
        self.seats.len()
    }

    /// The state is sound: each record stands under its own key, the numbers are those of the
    /// configuration, and exactly the subchannels that are seen have a live record. It reads
    /// nothing, and is there for callers' proofs.
    pub fn is_sound(&self)
        ensures { IsSound self.now.state }
    {
        let _ = &self.config;
    }
}
