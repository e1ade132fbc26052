ghost use Rattle.std.specs.Prelude.{◌≡◌};
ghost use Rattle.iocm_plan_text.specs.Asked as meaning;

use iocm_filter::Filters;
use std::marker::Model;

/// What is asked for of a plan. Contracts see what filters mean.
#[derive(Drop)]
pub struct PlanAsked<'f> {
    /// What images and devices, control units and paths are asked for.
    pub filters: &'f Filters,
    /// Whether only what is lost is told.
    pub is_lost: bool,
    /// Whether objects and rows are left out.
    pub is_brief: bool,
    /// Whether the plan is of two decks, and not of a deck and a change deck.
    pub is_of_decks: bool,
}

impl<'f> Model for PlanAsked<'f> {
    ghost use Rattle.iocm_plan_text.specs.Asked as meaning;

    ghost Value = { meaning.Asked };

    ghost view = { λ a. record {
      wanted = a.filters.now;
      is_lost = a.is_lost;
      is_brief = a.is_brief;
      is_of_decks = a.is_of_decks;
    } };
}

impl<'f> PlanAsked<'f> {
    /// Whether something may be left out.
    pub fn is_filtered(&self) -> bool
        ensures { result ≡ meaning.is_filtered self.now }
    {
        self.is_lost || !self.filters.is_none()
    }
}
