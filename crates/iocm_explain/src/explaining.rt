ghost use Rattle.std.specs.Prelude.{◌≡◌, IfOk, find, map};
ghost use Rattle.iocm_explain.specs.Explain.{explained, rules_named, Explains};
ghost use Rattle.iocm_explain.specs.Named.{is_unknown};

use crate::rule_named;
use iocm_types::Rule;
use std::alloc::{AllocError, Global};

/// The refusals that are explained: all that it takes to print their entries.
#[derive(Drop)]
pub struct Explained {
    /// Those of the words, in their order; none, if all are to be listed.
    pub rules: Vec<Rule>,
}

/// Why words aren't explained.
#[derive(Clone, Copy)]
pub enum Unexplained<'a> {
    /// M1: memory ran out.
    Memory,
    /// This word, the first of its kind, is no refusal's number.
    Unknown(&'a str),
}

/// The refusals whose numbers these words are, in their order. Small letters are read as capitals. M1
/// (`Unexplained::Memory`): memory ran out.
///
/// Promise: just the refusals whose numbers the words are get explained, in the order of the words.
pub fn explain<'a>(alloc: Global, words: &[&'a str]) -> Result<Explained, Unexplained<'a>>
    ensures { Explains result (explained (map (λ word. word.now) words.now)) }
{
    if let Some(word) = first_unknown(words) {
        return Err(Unexplained::Unknown(word));
    }
    match rules_of(alloc, words) {
        Ok(rules) => Ok(Explained { rules }),
        Err(AllocError) => Err(Unexplained::Memory),
    }
}

/// The first of these words that is no refusal's number.
#[tactic(auto, using(crate::proofs::Finding::find_steps))]
fn first_unknown<'a>(words: &[&'a str]) -> Option<&'a str>
    ensures { result ≡ find (λ word. is_unknown word.now) words.now }
{
    for word in words {
        if rule_named(word).is_none() {
            return Some(*word);
        }
    }
    None
}

/// The refusals whose numbers these words are, each in its turn.
#[tactic(auto, using(crate::proofs::Words::named_steps))]
fn rules_of(alloc: Global, words: &[&str]) -> Result<Vec<Rule>, AllocError>
    ensures { IfOk result (λ rules. rules.items ≡ rules_named (map (λ word. word.now) words.now)) }
{
    let mut rules = Vec::new(alloc);
    for word in words {
        if let Some(rule) = rule_named(word) {
            rules.push(rule)?;
        }
    }
    Ok(rules)
}
