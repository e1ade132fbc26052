ghost use Rattle.std.specs.Prelude.{◌≡◌};

use crate::{Key, Rule, SubId};

/// What a refusal is about.
#[derive(Clone, Copy, PartialEq, Eq)]
pub enum At {
    /// The record of this key.
    Key(Key),
    /// This subchannel.
    Subchannel(SubId),
    /// The change of this number, counted from 1.
    Change(u64),
    /// Nothing that could be named.
    Nothing,
}

/// Why a change was refused: the rule, the node of the change tree where it was refused, counted in
/// preorder from 0, and what it is about. A refusal that is not of a part of a tree names no node.
#[derive(Clone, Copy, PartialEq, Eq)]
pub struct Refused {
    pub rule: Rule,
    pub node: Option<u64>,
    pub at: At,
}

impl Refused {
    /// M1: memory ran out, for the whole of a change.
    pub const NO_MEMORY: Refused = Refused {
        rule: Rule::M1,
        node: None,
        at: At::Nothing,
    };

    /// A refusal of the whole, about nothing that could be named.
    pub fn of(rule: Rule) -> Self
        ensures { result ≡ record { rule = rule; node = None; at = At.Nothing } }
    {
        Refused::about(rule, At::Nothing)
    }

    /// A refusal that names no node.
    pub fn about(rule: Rule, at: At) -> Self
        ensures { result ≡ record { rule = rule; node = None; at = at } }
    {
        Refused {
            rule,
            node: None,
            at,
        }
    }

    /// The same refusal, with the node of the change tree where it came.
    pub fn at_node(self, node: u64) -> Self
        ensures { result ≡ record self { node = Some node } }
    {
        Refused {
            node: Some(node),
            ..self
        }
    }
}
