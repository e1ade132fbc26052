//! What holds of the definitions themselves. Each law is the contract of a function that does nothing.
ghost use Rattle.iocm_plan_text.specs.Examples.{NotesAreAsWorked, SectionsAreAsWorked, SummariesAreAsWorked};
ghost use Rattle.iocm_plan_text.specs.Laws.{PlanOfItselfIsOneLine};

/// Summaries, notes and sections are printed as they are worked by hand.
pub fn plans_are_as_worked()
    ensures summaries { SummariesAreAsWorked }
    ensures notes { NotesAreAsWorked }
    ensures sections { SectionsAreAsWorked }
{}

/// A plan of a configuration and itself is one line, which says that nothing is told.
///
/// Promise: a plan of a configuration and itself is one line.
pub fn a_plan_of_itself_is_one_line()
    ensures { PlanOfItselfIsOneLine }
{}
