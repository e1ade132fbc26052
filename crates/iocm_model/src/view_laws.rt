ghost use Rattle.iocm_model.specs.Machine.Configuration.{Configuration, IsKeyed};
ghost use Rattle.iocm_model.specs.Machine.Numbering.{Numbering};
ghost use Rattle.iocm_model.specs.Machine.View.{IsListOfViews, views};

/// The list of views of a configuration with each record under its own key rises by subchannel, and
/// has at each subchannel what its image sees there, and nothing else.
///
/// Promise: the table has every subchannel that an image sees, in order, and no other.
pub fn views_are_listed()
    ensures { (c : Configuration) (n : Numbering) → IsKeyed c → IsListOfViews c n (views c n) }
{}
