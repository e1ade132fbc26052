ghost use Rattle.iocm_examples.specs.Views.{BaseViews, ViewsWithoutCandidate, TurnedViews, Unseen, BaseRows};
ghost use Rattle.iocm_examples.specs.LongPathLists.{ViewsOfLongLists};

/// What images see on the example deck and its variants, and all rows of its table, computed from
/// the definitions.
pub fn views_are_as_worked()
    ensures base { BaseViews }
    ensures candidate { ViewsWithoutCandidate }
    ensures turned { TurnedViews }
    ensures unseen { Unseen }
    ensures rows { BaseRows }
{}

/// Views over path lists of six and of nine paths, and sight by the ninth path alone, computed.
pub fn long_path_lists_are_as_worked()
    ensures views { ViewsOfLongLists }
{}
