use iocm_types::{Key, Rule};
use std::marker::Model;

/// A rule of a configuration that is broken, and the key of the record that breaks it.
#[derive(Clone, Copy, PartialEq, Eq)]
pub struct Breach {
    /// The rule, V1 to V14.
    pub rule: Rule,
    /// The record that breaks it: of several the least.
    pub key: Key,
}

impl Model for Breach {
    ghost use Rattle.iocm_model.specs.Rules.FirstBreach as model;

    ghost Value = { model.Breach };

    ghost view = { λ b. record { rule = b.rule; key = b.key } };

    ghost inverse = { λ b. record { rule = b.rule; key = b.key } };
}
