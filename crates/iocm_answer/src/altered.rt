ghost use Rattle.std.specs.Prelude.{◌≡◌, IfOk, List};
ghost use Rattle.iocm_activate.specs.Done.{AreToldBy};
ghost use Rattle.iocm_activate.specs.Told.{told_of_all};
ghost use Rattle.iocm_filter.specs.Sieves.{IsSieveFor};
ghost use Rattle.iocm_filter.specs.Wanted.{Wanted};
ghost use Rattle.iocm_model.specs.Change.Edit as edit;
ghost use Rattle.iocm_model.specs.Operation.State.{State};
ghost use Rattle.iocm_reports.specs.Altered.{AreInOrder};
ghost use Rattle.iocm_answer.specs.Commands.Apply.{altered_asked_for};

use crate::sifting::wanted_rows;
use iocm_filter::Sieve;
use iocm_plant::{Plant, Touched};
use iocm_reports::{altered_rows, rows_lead_to_the_table};
use iocm_seats::ViewChange;
use std::alloc::{AllocError, Global};
use std::marker::Model;

/// How many subchannels a change altered, and of these the ones that are asked for, in order.
#[derive(Drop)]
pub struct Altered {
    altered: usize,
    rows: Vec<ViewChange>,
}

impl Model for Altered {
    ghost use Rattle.std.specs.Prelude.{refl};
    ghost use Rattle.std.specs.Coded.{code_by, coded×, coded_list, coded_ℕ, codes};
    ghost use Rattle.std.specs.Prelude.{List, ℕ};
    ghost use Rattle.iocm_seats.specs.declared.view_change.ViewChange.{ViewChange};
    ghost use Rattle.iocm_reports.specs.Altered.{AreInOrder};
    ghost use Rattle.iocm_answer.specs.Rows.{AlteredRows};

    ghost Value = { AlteredRows };

    ghost coded = { code_by (ℕ × List ViewChange) (coded× coded_ℕ (coded_list (Prim.hlevel codes)))
        (λ a. (a.altered, a.rows)) (λ p. record { altered = p.0; rows = p.1 }) (λ _. refl) };

    ghost view = { λ a. record { altered = a.altered; rows = a.rows.items } };

    ghost invariant = { λ a. AreInOrder a.rows.items };
}

impl Altered {
    /// Those of a change of whose edits this was told, by the sieve of the configuration before it.
    ///
    /// `AllocError` (M1): memory ran out.
    pub(crate) fn of(
        alloc: Global,
        before: &Sieve<'_>,
        performed: &[Touched],
        plant: &Plant,
    ) -> Result<Self, AllocError>
        ensures { (w : Wanted) (es : List edit.Edit) (s : State) → IsSieveFor w s.config before.now
            → AreToldBy performed.now (told_of_all es s)
            → IfOk result (λ a. a ≡ altered_asked_for w es s plant.now.state) }
    {
        // For the proof alone: there is a row for each altered subchannel.
        rows_lead_to_the_table();
        let after = Sieve::new(alloc, before.filters(), plant.config())?;
        let listed = altered_rows(alloc, performed, plant)?;
        let altered = listed.len();
        let rows = wanted_rows(alloc, listed, before, &after)?;
        Ok(Altered { altered, rows })
    }

    /// How many subchannels were altered.
    pub(crate) fn altered(&self) -> usize
        ensures { result ≡ self.now.altered }
    {
        self.altered
    }

    /// Those that are asked for.
    pub(crate) fn rows(&self) -> &[ViewChange]
        ensures rows { result.now ≡ self.now.rows }
        ensures order { AreInOrder result.now }
    {
        self.rows.as_slice()
    }
}
