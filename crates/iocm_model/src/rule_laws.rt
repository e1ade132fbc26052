ghost use Rattle.iocm_model.specs.Laws.Breaches.{AnswersTheFirst, AnswersNone, AnswersTheLeast};

/// The first breach of the rules: its rule is broken at its key, and no record breaks a rule before
/// it; in a configuration with each record under its own key, no record with a smaller key breaks
/// that rule. There is none exactly where every rule is kept.
///
/// Promise: the first breach by rule and then by key is named, and none exactly if all rules hold.
pub fn the_first_breach_is_first()
    ensures found { AnswersTheFirst }
    ensures least { AnswersTheLeast }
    ensures none { AnswersNone }
{}
