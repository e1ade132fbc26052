ghost use Rattle.iocm_breaches.specs.Laws.{FirstComesFirst, NoneWhereNoFirst};

/// The first of all breaches is the one that a check answers. There is none exactly where a check
/// finds none.
///
/// Promise: `check --all` begins with what `check` finds.
pub fn the_first_breach_comes_first()
    ensures first { FirstComesFirst }
    ensures none { NoneWhereNoFirst }
{}
