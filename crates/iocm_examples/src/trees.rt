ghost use Rattle.iocm_examples.specs.Trees.{AnExchange, NodesOfBreaches, WhereRulesHold, AfterAGroup};
ghost use Rattle.iocm_examples.specs.Trees.{EmptyNodes, LimitsOfTrees, TakenBackLater};

/// Change trees, the edits that they perform, and the nodes that refusals name, computed.
pub fn trees_are_as_worked()
    ensures exchange { AnExchange }
    ensures breaches { NodesOfBreaches }
    ensures rules { WhereRulesHold }
    ensures after_a_group { AfterAGroup }
    ensures empty { EmptyNodes }
    ensures limits { LimitsOfTrees }
    ensures taken_back { TakenBackLater }
{}
