//! What holds of the definitions themselves. Each law is the contract of a function that does nothing.
ghost use Rattle.iocm_plan_filter.specs.Examples.{KindsAreAsWorked, LostIsAsWorked, StepsAreAsWorked};
ghost use Rattle.iocm_plan_filter.specs.Examples.{before, moved};
ghost use Rattle.iocm_plan_filter.specs.Laws.{WithoutFiltersAllIsLeft};

/// Without filters all objects are left.
///
/// Promise: a plan without filters tells all objects that differ.
#[tactic(auto, using(crate::proofs::Unfiltered::without_filters))]
pub fn without_filters_all_is_left()
    ensures { WithoutFiltersAllIsLeft }
{}

/// By each step, and by several, objects are connected as they are worked by hand, kinds of filters are asked together,
/// and what was on the way of a device that is lost is as it is worked.
pub fn left_is_as_worked()
    ensures steps { StepsAreAsWorked }
    ensures kinds { KindsAreAsWorked before moved }
    ensures lost { LostIsAsWorked before }
{}
