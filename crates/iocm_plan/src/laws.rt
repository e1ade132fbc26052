//! What holds of the definitions themselves. Each law is the contract of a function that does nothing.
ghost use Rattle.iocm_plan.specs.Examples.{WordsAreAsWorked};
ghost use Rattle.iocm_plan.specs.MoreExamples.{ObjectsAreAsWorked, RunsAreAsWorked, after, before};
ghost use Rattle.iocm_plan.specs.Laws.{NoObjectDiffers, ObjectsGoBack, PlanGoesBack, PlanOfItself, SeenIsTheView};
ghost use Rattle.iocm_plan.specs.LeftExamples.{LeftIsAsWorked};
ghost use Rattle.iocm_plan.specs.ToldAlike.{AlikeAreToldAlike, RunsAreTheDevices, RunsAreToldAlike};
ghost use Rattle.iocm_plan.specs.ToldAlike.{WithoutFiltersAllIsTold};

/// A plan of a configuration and itself tells nothing: nothing is gone, has come, is changed, lost, interrupted or
/// may go off and on, and no object differs.
///
/// Promise: a plan of a configuration and itself tells nothing.
pub fn nothing_is_told_of_no_change()
    ensures seen { PlanOfItself }
    ensures objects { NoObjectDiffers }
{}

/// With the configurations exchanged gone and came, added and deleted change places.
#[tactic(auto, using(crate::proofs::GoingBack::going_back, crate::proofs::GoingBack::objects_going_back))]
pub fn the_plan_goes_back()
    ensures seen { PlanGoesBack }
    ensures objects { ObjectsGoBack }
{}

/// At small changes the words of plans hold, filters leave of them, objects differ and devices are in runs as they
/// are worked by hand.
pub fn words_are_as_worked()
    ensures words { WordsAreAsWorked }
    ensures left { LeftIsAsWorked }
    ensures objects { ObjectsAreAsWorked before after }
    ensures runs { RunsAreAsWorked before after }
{}

/// What an image sees of a device is the view at the device's subchannel, by whatever numbers of the configuration;
/// a device without a number isn't seen. So no plan depends on numbers.
///
/// Promise: what a plan says that an image sees of a device is the view at the device's subchannel.
pub fn seen_is_the_view()
    ensures { SeenIsTheView }
{}

/// To devices that are alike a change does the same, whatever the image. So what is told of the first of a run is told
/// of the others.
///
/// Promise: what a plan tells of the first device of a run is so of each.
pub fn alike_are_told_alike()
    ensures alike { AlikeAreToldAlike }
    ensures runs { RunsAreToldAlike }
{}

/// The devices of the runs, one by one, are those of both configurations that are asked for.
pub fn runs_are_the_devices()
    ensures { RunsAreTheDevices }
{}

/// Without filters what is left of what a change does to an image and a device is what it does to them.
#[tactic(auto, using(crate::proofs::Unfiltered::without_filters))]
pub fn without_filters_all_is_told()
    ensures { WithoutFiltersAllIsTold }
{}
