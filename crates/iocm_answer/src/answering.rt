//! A command from the bytes of its texts to its answer: what its deck opens to, and what it gives of that
//! and of the texts after it.
ghost use Rattle.std.specs.Prelude.{◌≡◌, ◌⊎◌, ℕ, List, Ok, Option, IfErr, IfOk, map};
ghost use Rattle.std.specs.Option.{option_map};
ghost use Rattle.iocm_console.specs.Refusal.{no_memory};
ghost use Rattle.iocm_answer.specs.declared.manner.Manner as manners;
ghost use Rattle.iocm_answer.specs.Manner.{in_form, refused};
ghost use Rattle.iocm_lines.specs.declared.refused.Input as inputs;
ghost use Rattle.iocm_answer.specs.Commands as meaning;
ghost use Rattle.iocm_console.specs.Opening.{opened_deck};
ghost use Rattle.iocm_answer.specs.Commands.{AsksOfDeck, Counts, GoesOnFrom, HasDeck, IsMeant, OpensTo};
ghost use Rattle.iocm_answer.specs.declared.answering.Begun.TheVariants as begun;
ghost use Rattle.iocm_answer.specs.Commands.Run.{ShowsOne};

use crate::{
    Answer, Asked, apply, check, check_all, diff, list, open_machine, plan, plan_change, run, show,
    vary, write,
};
use iocm_command::{Breaches, Command};
use iocm_config::Config;
use iocm_console::{Refusal, open_deck};
use iocm_lines::Form;
use iocm_plant::Plant;
use std::alloc::Global;
use std::sync::Wait;
use std::thread::Threads;

/// What a command goes on from when its deck was read.
#[derive(Drop)]
pub enum Begun<'b> {
    /// The configuration of the deck.
    Deck(Config),
    /// The machine of the deck, as it is opened.
    Machine(Plant),
    /// The bytes of the deck.
    Text(&'b [u8]),
}

impl<'b> Begun<'b> {
    /// The configuration of the deck, if the command goes on from that.
    pub fn config(&self) -> Option<&Config>
        ensures { option_map (λ config. config.now.records) result ≡ meaning.configuration_of self.now }
    {
        match self {
            Begun::Deck(config) => Some(config),
            _ => None,
        }
    }
}

/// What a command goes on from, of the bytes of its deck; or the deck's refusal. M1: memory ran out.
pub fn begin<'b>(alloc: Global, command: &Command<'_>, deck: &'b [u8]) -> Result<Begun<'b>, Refusal>
    requires { HasDeck command.now }
    ensures goes_on { IfOk result (λ begun. GoesOnFrom command.entry.now begun) }
    ensures opened { IfOk result (λ begun. OpensTo deck.entry.now begun) }
    ensures refusal { IfErr result (λ why. (why ≡ no_memory)
        ⊎ ((m : manners.Manner) (others : List (List ℕ))
        → IsMeant m command.entry.now deck.entry.now others (refused m why))) }
{
    match command {
        Command::Check {
            breaches: Breaches::All,
            ..
        } => Ok(Begun::Text(deck)),
        Command::Apply { .. } | Command::PlanChange { .. } | Command::Run { .. } => {
            Ok(Begun::Machine(open_machine(alloc, deck)?))
        }
        _ => Ok(Begun::Deck(open_deck(alloc, deck)?)),
    }
}

/// What a command gives, to be printed in a form, of what its deck opens to, and of the texts after it. M1:
/// memory ran out.
///
/// Promise: a command gives what its definition says of its deck and of the texts after it, or M1.
pub fn finish<'f, T: Threads + Wait + Sync>(
    rt: &T,
    alloc: Global,
    form: Form,
    command: &'f Command<'_>,
    begun: Begun<'_>,
    others: &[Vec<u8>],
) -> Result<Answer<'f>, Refusal>
    requires { GoesOnFrom command.now begun }
    ensures text { (input : Option inputs.Input) (deck : List ℕ) → OpensTo deck begun.entry
        → ShowsOne (in_form form input) result
        (IsMeant (in_form form input) command.entry.now deck (map (λ v. v.items) others.now)) }
    ensures counts { (deck : List ℕ) → OpensTo deck begun.entry
        → IfOk result (Counts command.entry.now deck (map (λ v. v.items) others.now)) }
{
    match begun {
        Begun::Deck(opened) => finish_deck(alloc, form, command, opened, others),
        Begun::Machine(plant) => finish_machine(rt, alloc, form, command, plant, others),
        Begun::Text(deck) => finish_text(alloc, form, command, deck),
    }
}

/// What a command gives that goes on from the configuration of a deck.
fn finish_deck<'f>(
    alloc: Global,
    form: Form,
    command: &'f Command<'_>,
    opened: Config,
    others: &[Vec<u8>],
) -> Result<Answer<'f>, Refusal>
    requires { GoesOnFrom command.now (begun.Deck opened) }
    ensures text { (input : Option inputs.Input) (deck : List ℕ) → OpensTo deck (begun.Deck opened)
        → ShowsOne (in_form form input) result
        (IsMeant (in_form form input) command.entry.now deck (map (λ v. v.items) others.now)) }
    ensures counts { (deck : List ℕ) → OpensTo deck (begun.Deck opened)
        → IfOk result (Counts command.entry.now deck (map (λ v. v.items) others.now)) }
{
    match command {
        Command::Show { filters, .. } => show(alloc, opened, filters),
        Command::Check { .. }
        | Command::List { .. }
        | Command::Write { .. }
        | Command::Diff { .. }
        | Command::Plan { .. }
        | Command::Vary { .. } => ask_deck(alloc, form, command, &opened, others),
        _ => unreachable!(),
    }
}

/// What a command gives that looks at the configuration of a deck.
fn ask_deck<'f>(
    alloc: Global,
    form: Form,
    command: &'f Command<'_>,
    opened: &Config,
    others: &[Vec<u8>],
) -> Result<Answer<'f>, Refusal>
    requires { AsksOfDeck command.now }
    ensures text { (input : Option inputs.Input) (deck : List ℕ) → opened_deck deck ≡ Ok opened.now.records
        → ShowsOne (in_form form input) result
        (IsMeant (in_form form input) command.entry.now deck (map (λ v. v.items) others.now)) }
    ensures counts { (deck : List ℕ) → opened_deck deck ≡ Ok opened.now.records
        → IfOk result (Counts command.entry.now deck (map (λ v. v.items) others.now)) }
{
    match command {
        Command::Check { .. } => Ok(check(opened)),
        Command::List {
            listed,
            filters,
            ..
        } => list(alloc, form, *listed, filters, opened),
        Command::Write { .. } => write(alloc, form, opened),
        Command::Diff { before, .. } => diff(alloc, form, *before, opened, first_text(others)),
        Command::Plan { scope, filters, .. } => {
            plan(alloc, *scope, filters, opened, first_text(others))
        }
        Command::Vary { to, filters, .. } => vary(alloc, *to, filters, opened),
        _ => unreachable!(),
    }
}

/// What a command gives that goes on from the machine of a deck.
fn finish_machine<'f, T: Threads + Wait + Sync>(
    rt: &T,
    alloc: Global,
    form: Form,
    command: &'f Command<'_>,
    plant: Plant,
    others: &[Vec<u8>],
) -> Result<Answer<'f>, Refusal>
    requires { GoesOnFrom command.now (begun.Machine plant) }
    ensures text { (input : Option inputs.Input) (deck : List ℕ) → OpensTo deck (begun.Machine plant)
        → ShowsOne (in_form form input) result
        (IsMeant (in_form form input) command.entry.now deck (map (λ v. v.items) others.now)) }
    ensures counts { (deck : List ℕ) → OpensTo deck (begun.Machine plant)
        → IfOk result (Counts command.entry.now deck (map (λ v. v.items) others.now)) }
{
    match command {
        Command::Apply {
            heap,
            report,
            filters,
            ..
        } => {
            let asked = Asked {
                report: *report,
                filters,
            };
            apply(alloc, form, *heap, &asked, plant, first_text(others))
        }
        Command::PlanChange {
            heap,
            scope,
            filters,
            ..
        } => plan_change(alloc, *heap, *scope, filters, plant, first_text(others)),
        Command::Run { heap, .. } => {
            run(
                rt,
                alloc,
                *heap,
                plant,
                first_text(others),
                later_texts(others),
            )
        }
        _ => unreachable!(),
    }
}

/// What a command gives that goes on from the bytes of a deck.
fn finish_text<'f>(
    alloc: Global,
    form: Form,
    command: &'f Command<'_>,
    deck: &[u8],
) -> Result<Answer<'f>, Refusal>
    requires { GoesOnFrom command.now (begun.Text deck) }
    ensures text { (input : Option inputs.Input) (others : List (List ℕ)) → ShowsOne (in_form form input) result
        (IsMeant (in_form form input) command.entry.now deck.now others) }
    ensures counts { (others : List (List ℕ)) → IfOk result (Counts command.entry.now deck.now others) }
{
    match command {
        Command::Check { .. } => check_all(alloc, form, deck),
        _ => unreachable!(),
    }
}

/// The first of some texts; a text that isn't there is empty.
fn first_text(texts: &[Vec<u8>]) -> &[u8]
    ensures { result.now ≡ meaning.first_text (map (λ v. v.items) texts.now) }
{
    match texts.first() {
        Some(text) => text.as_slice(),
        None => &[],
    }
}

/// The texts after the first.
fn later_texts(texts: &[Vec<u8>]) -> &[Vec<u8>]
    ensures { map (λ v. v.items) result.now ≡ meaning.later_texts (map (λ v. v.items) texts.now) }
{
    match texts.split_first() {
        Some((_, later)) => later,
        None => texts,
    }
}
