ghost use Rattle.std.specs.Prelude.{◌≡◌, ◌<◌, ◌≤◌, ◌-◌, ◌++◌, ◌∷◌, [], length, slice_get, Some};
ghost use Rattle.std.specs.Prelude.{IfOk, IfErr, OnOk, OnErr};
ghost use Rattle.std.specs.Vec.{vec_capacity, vec_len};
ghost use Rattle.iocm_core.specs.Calls.{call_in};
ghost use Rattle.iocm_core.specs.Recorded.{IsRecorded};

use crate::installation::Installation;
use crate::{Call, Entry};
use iocm_config::Config;
use iocm_types::Answer;
use std::alloc::Global;
use std::marker::Model;

/// A machine in operation with everything that was asked of it: every call goes through `call`, and
/// is recorded with its answer. Contracts see the state in which it was opened, and its history,
/// the latest entry first.
#[derive(Drop)]
pub struct Core {
    pub(crate) installation: Installation,
    pub(crate) opening: Config,
    pub(crate) entries: Vec<Entry>,
    pub(crate) room: usize,
}

impl Model for Core {
    ghost use Rattle.std.specs.Prelude.{ℕ, List, refl};
    ghost use Rattle.std.specs.Coded.{code_by, coded×, coded_list, coded_ℕ, codes};
    ghost use Rattle.std.specs.FinMap as map;
    ghost use Rattle.std.specs.Vec.{vec_capacity};
    ghost use Rattle.iocm_types.specs.declared.place.Place.{Place};
    ghost use Rattle.iocm_model.specs.Change.Edit.{Action};
    ghost use Rattle.iocm_model.specs.Machine.Configuration.{Configuration};
    ghost use Rattle.iocm_model.specs.Machine.Numbering.{Numbering};
    ghost use Rattle.iocm_model.specs.Operation.State.{Lives};
    ghost use Rattle.iocm_core.specs.Codes.{core_code};
    ghost use Rattle.iocm_core.specs.contracts.trace.Entry as trace;
    ghost use Rattle.iocm_core.specs.Seen as seen;

    ghost Value = { seen.Core };

    ghost coded = { core_code (Prim.hlevel codes)
        (code_by (Action × (List (Place × ℕ) × Lives))
        (coded× (Prim.hlevel codes) (coded× (coded_list (Prim.hlevel codes))
        (map.code (Prim.hlevel codes) (Prim.hlevel codes))))
        (λ e. (e.action, (e.places, e.lives))) (λ p. record { action = p.0; places = p.1.0; lives = p.1.1 })
        (λ _. refl))
        (Prim.hlevel codes)
        (code_by (_ × (_ × _)) (coded× (map.code (Prim.hlevel codes) (Prim.hlevel codes))
        (coded× (map.code (Prim.hlevel codes) (Prim.hlevel codes))
        (map.code (Prim.hlevel codes) (Prim.hlevel codes))))
        (λ f. (f.records, (f.numbers, f.lives))) (λ p. record { records = p.0; numbers = p.1.0; lives = p.1.1 })
        (λ _. refl))
        (code_by (Configuration × (Numbering × Lives))
        (coded× (map.code (Prim.hlevel codes) (Prim.hlevel codes))
        (coded× (map.code (Prim.hlevel codes) coded_ℕ) (map.code (Prim.hlevel codes) (Prim.hlevel codes))))
        (λ s. (s.config, (s.numbers, s.lives))) (λ p. record { config = p.0; numbers = p.1.0; lives = p.1.1 })
        (λ _. refl))
        trace.the_row.coded };

    ghost use Rattle.iocm_model.specs.Operation.State.{opening_state};
    ghost use Rattle.iocm_core.specs.Told.{history_in};
    ghost use Rattle.iocm_core.specs.Held as held;

    ghost view = { λ c. record {
      opening = opening_state c.opening.records;
      history = history_in c.installation.changes.items c.entries.items;
      entries = c.entries.items;
      room = c.room;
    } };

    ghost invariant = { λ c. held.IsCore (opening_state c.opening.records) c.installation c.entries.items c.room
        (vec_capacity c.entries) };
}

/// That a call was not made, since the trace has no room for it.
#[derive(Drop)]
pub struct Full {
    /// The call, handed back.
    pub call: Call,
}

impl Core {
    /// How many calls were recorded.
    pub fn len(&self) -> usize
        ensures len { result ≡ length self.now.entries }
        ensures room { result ≤ self.now.room }
    {
        self.entries.len()
    }

    /// The call that was recorded last, with its answer.
    pub fn last(&self) -> &Entry
        requires { 0 < length self.now.entries }
        ensures { slice_get self.now.entries (length self.now.entries - 1) ≡ Some result.now }
    {
        &self.entries[self.entries.len() - 1]
    }

    /// Makes a call on the machine, and records it with its answer. A call that is refused changes
    /// nothing but the trace.
    ///
    /// `Full`: the trace has as many entries as it has room for; the call is handed back, and
    /// nothing is recorded.
    ///
    /// Promise: each call is recorded with its answer, or it is handed back and nothing is changed.
    pub fn call(&mut self, alloc: Global, call: Call) -> Result<Answer, Full>
        ensures recorded { IfOk result (λ answer. IsRecorded self.old (call_in call) answer self.new) }
        ensures entries { IfOk result (λ answer. self.new.entries ≡ self.old.entries
            ++ record { call = call; answer = answer } ∷ []) }
        ensures same { OnErr result (self.new ≡ self.old) }
        ensures handed_back { IfErr result (λ full. full.call ≡ call) }
        ensures full { OnErr result (length self.old.entries ≡ self.old.room) }
        ensures room { OnOk result (length self.old.entries < self.old.room) }
    {
        if self.entries.len() == self.room {
            return Err(Full { call });
        }
        let answer = self.installation.perform(alloc, &call);
        Ok(note(&mut self.entries, call, answer))
    }
}

/// Records a call with its answer, for which there is memory, and gives the answer.
fn note(entries: &mut Vec<Entry>, call: Call, answer: Answer) -> Answer
    requires { vec_len entries.old < vec_capacity entries.old }
    ensures entries { entries.new.items ≡ entries.old.items ++ record { call = call; answer = answer } ∷ [] }
    ensures capacity { vec_capacity entries.new ≡ vec_capacity entries.old }
    ensures answer { result ≡ answer }
{
    let given = answer;
    entries.push_reserved(Entry { call, answer });
    given
}
