ghost use Rattle.std.specs.Prelude.{◌≡◌};
ghost use Rattle.iocm_rounds.specs.Stops.{graver, graver_rule};

use iocm_types::Rule;

/// Which of two reasons comes first: M1, then G1, then the first of the others.
fn graver_rule(first: Rule, second: Rule) -> Rule
    ensures { result ≡ graver_rule first second }
{
    match (first, second) {
        (Rule::M1, _) | (_, Rule::M1) => Rule::M1,
        (Rule::G1, _) | (_, Rule::G1) => Rule::G1,
        (first, _) => first,
    }
}

/// The same where there may be none.
pub(crate) fn graver(first: Option<Rule>, second: Option<Rule>) -> Option<Rule>
    ensures { result ≡ graver first second }
{
    match (first, second) {
        (Some(first), Some(second)) => Some(graver_rule(first, second)),
        (None, second) => second,
        (first, None) => first,
    }
}
