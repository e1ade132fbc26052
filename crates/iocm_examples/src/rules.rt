ghost use Rattle.iocm_examples.specs.Rules.{
  BaseKeepsTheRules,
  ADedicatedPathOfTwo,
  AUnitOnNinePaths,
  ADeviceOfNineUnits,
  ALimitOfThree,
  TheOtherRules,
  AtTheBounds,
};
ghost use Rattle.iocm_examples.specs.RuleClauses.{BrokenByOneClause, OnlineAtADedicatedPath, KeptAtTheBound};
ghost use Rattle.iocm_examples.specs.DefaultLimits.{LimitsOfSets};

/// Rules and the first breach, on the example deck and decks that break one rule before others:
/// each is computed from the definitions.
pub fn rules_are_as_worked()
    ensures base { BaseKeepsTheRules }
    ensures dedicated { ADedicatedPathOfTwo }
    ensures nine_paths { AUnitOnNinePaths }
    ensures nine_units { ADeviceOfNineUnits }
    ensures limit { ALimitOfThree }
    ensures others { TheOtherRules }
    ensures bounds { AtTheBounds }
{}

/// Clauses of rules, each on a deck that breaks it alone, and decks at the bound of a clause,
/// computed.
pub fn clauses_of_rules_are_as_worked()
    ensures broken { BrokenByOneClause }
    ensures online { OnlineAtADedicatedPath }
    ensures kept { KeptAtTheBound }
{}

/// How many subchannels each set holds where no limit is given, and that a limit is one set's,
/// computed.
pub fn limits_of_sets_are_as_worked()
    ensures limits { LimitsOfSets }
{}
