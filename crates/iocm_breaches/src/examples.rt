ghost use Rattle.iocm_breaches.specs.Examples.{BreachesOfMany, BreachesOfOthers};

/// The breaches of small configurations: several of one rule, several rules, and one record that
/// breaks two.
pub fn breaches_are_as_worked()
    ensures many { BreachesOfMany }
    ensures others { BreachesOfOthers }
{}
