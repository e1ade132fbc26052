ghost use Rattle.iocm_difference.specs.Laws.{
  SameAreEqual,
  AnyOrderLeads,
  DifferenceLeads,
  EditsEachKeyOnce,
  EditsWhatDiffers,
  DifferenceIsLeast,
  NothingDiffers,
  ModifiesNoPair,
  DifferenceGoesBack,
};

/// The test whether two records are the same is exact.
pub fn same_records_are_equal()
    ensures { SameAreEqual }
{}

/// Performed one after the other, in whatever order, the actions of the difference lead from one
/// configuration to the other. So do any actions that leave at their keys what the other has.
pub fn the_difference_leads_in_any_order()
    ensures any { AnyOrderLeads }
    ensures difference { DifferenceLeads }
{}

/// A key is edited at most once, and exactly where the configurations don't have the same there. An
/// online pair is never modified.
pub fn each_difference_is_edited_once()
    ensures once { EditsEachKeyOnce }
    ensures differs { EditsWhatDiffers }
    ensures pairs { ModifiesNoPair }
{}

/// No shorter list of actions leads from one configuration to the other. So a configuration doesn't
/// differ from itself.
///
/// Promise: no shorter list of edits leads from one deck to the other.
pub fn no_actions_are_fewer()
    ensures least { DifferenceIsLeast }
    ensures itself { NothingDiffers }
{}

/// The difference the other way round has, in some order, the actions that take those of the
/// difference back.
pub fn the_difference_goes_back()
    ensures { DifferenceGoesBack }
{}
