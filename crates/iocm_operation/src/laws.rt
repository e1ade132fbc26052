ghost use Rattle.std.specs.Prelude.{◌≡◌, List, []};
ghost use Rattle.iocm_core.specs.Seen as seen;
ghost use Rattle.iocm_model.specs.Change.Tree.{ChangeTree};
ghost use Rattle.iocm_operation.specs.declared.operated.Operated as operated;
ghost use Rattle.iocm_operation.specs.Running.{IsOperation};
ghost use Rattle.iocm_operation.specs.OneActor.{AreOfOne, AreTheSame, HadMemory, StandAsInTheScript};
ghost use Rattle.iocm_script.specs.declared.line.Line as its_line;
ghost use Rattle.iocm_system.specs.Traces.{history_of};

/// A script in which each round has the lines of one actor makes its calls in the order of its
/// lines.
pub fn one_actor_has_one_order()
    ensures { (core : seen.Core) (ts : List ChangeTree) (rounds : List (List its_line.Line)) (o : operated.Operated)
        → AreOfOne rounds → IsOperation core ts rounds o → StandAsInTheScript core ts rounds o }
{}

/// Two runs of such a script on a new machine, in neither of which an answer was M1, have one
/// history. They give each line the same answer and leave one state, so they print the same.
///
/// Promise: if each round has one actor, two runs with memory print the same.
pub fn one_actor_has_one_history()
    ensures { (core : seen.Core) (ts : List ChangeTree) (rounds : List (List its_line.Line)) (o p : operated.Operated)
        → core.entries ≡ [] → AreOfOne rounds → IsOperation core ts rounds o → IsOperation core ts rounds p
        → HadMemory (history_of o.closed) → HadMemory (history_of p.closed) → AreTheSame o p }
{}
