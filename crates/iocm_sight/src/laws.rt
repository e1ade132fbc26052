//! What holds of the definitions themselves. Each law is the contract of a function that does nothing.
ghost use Rattle.iocm_sight.specs.Examples.{AskedIsAsWorked, LinksAreAsWorked, SeenIsAsWorked};
ghost use Rattle.iocm_sight.specs.SeenViews.{SeenIsTheView};

/// What is told of an image and a device is the view of its subchannel at the device's number, by
/// whatever numbers of the configuration, and so are the devices that are counted for an image. Where a
/// device has no number, the image sees nothing.
///
/// Promise: what a table of devices says that an image sees is the view of its subchannels.
#[tactic(auto, using(crate::proofs::SeenViews::seen_is_the_view))]
pub fn what_is_seen_is_the_view()
    ensures { SeenIsTheView }
{}

/// What filters ask for, what is seen, and the links of paths are as they are worked by hand.
#[tactic(auto, using(crate::proofs::Worked::worked))]
pub fn words_are_as_worked()
    ensures asked { AskedIsAsWorked }
    ensures seen { SeenIsAsWorked }
    ensures links { LinksAreAsWorked }
{}
