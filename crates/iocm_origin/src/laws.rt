ghost use Rattle.iocm_origin.specs.Examples.{FaultsAsWorked, LinesAsWorked, OriginsAsWorked, RemarksAsWorked};
ghost use Rattle.iocm_origin.specs.Faults.{FirstComesFirst, NoneWhereNoFirst};
ghost use Rattle.iocm_origin.specs.Keys.{OneBringsEachKey, OnlyKeysThereHaveLines};
ghost use Rattle.iocm_origin.specs.Nodes.{GivenNodesHaveTheLine, NodesAreGiven, NodesAreNumbered};
ghost use Rattle.iocm_origin.specs.Nodes.{NodesComeFromTheirLines, NoneIsPastTheLast};

/// Of a deck that is read one statement alone brings each key, and only keys that come with one of
/// its records have lines.
#[tactic(auto, using(crate::proofs::LinesOfKeys::laws_of_keys))]
pub fn keys_of_a_deck_have_lines()
    ensures alone { OneBringsEachKey }
    ensures there { OnlyKeysThereHaveLines }
{}

/// The nodes of a tree in their order are those that its statements give, one after the other,
/// behind the Row round all if there is one. Each node comes from the statement at its line, which
/// gives it; only the Row round all comes from none, and no number past the last node has a line.
#[tactic(auto, using(crate::proofs::LinesOfNodes::laws_of_nodes))]
pub fn nodes_come_from_their_lines()
    ensures given { NodesAreGiven }
    ensures numbered { NodesAreNumbered }
    ensures of_statement { NodesComeFromTheirLines }
    ensures past { NoneIsPastTheLast }
    ensures back { GivenNodesHaveTheLine }
{}

/// The first of all faults is the one with which a deck is refused. There is none exactly if it
/// isn't refused.
#[tactic(auto, using(crate::proofs::FirstFault::laws_of_faults))]
pub fn the_first_fault_comes_first()
    ensures first { FirstComesFirst }
    ensures none { NoneWhereNoFirst }
{}

/// Lines of keys and of nodes, all faults, origins and remarks of small texts, as stated by hand.
pub fn small_texts_are_as_worked()
    ensures lines { LinesAsWorked }
    ensures faults { FaultsAsWorked }
    ensures origins { OriginsAsWorked }
    ensures remarks { RemarksAsWorked }
{}
