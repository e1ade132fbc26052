ghost use Rattle.std.specs.Prelude.{◌≡◌};
ghost use Rattle.iocm_explain.specs.Named as specs;

use crate::entries::{RULES, entry_of};
use iocm_types::Rule;

/// The refusal whose number the word is, as `S10` or `s10`. A blank, or a zero before the number,
/// makes another word.
pub fn rule_named(word: &str) -> Option<Rule>
    ensures { result ≡ specs.rule_named word.now }
{
    named_among(word, &RULES)
}

/// The first of these refusals that has this number.
#[tactic(auto, using(crate::proofs::Finding::find_steps))]
fn named_among(word: &str, rules: &[Rule]) -> Option<Rule>
    ensures { result ≡ specs.named_among word.now rules.now }
{
    for rule in rules {
        if is_number_of(word, *rule) {
            return Some(*rule);
        }
    }
    None
}

/// Whether the word is this refusal's number, in capitals or small letters.
fn is_number_of(word: &str, rule: Rule) -> bool
    ensures { result ≡ specs.is_number_of word.now rule }
{
    entry_of(rule).number.eq_ignore_ascii_case(word)
}
