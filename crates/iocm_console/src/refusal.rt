ghost use Rattle.std.specs.Prelude.{◌≡◌, Some};
ghost use Rattle.iocm_console.specs.Refusal as meaning;

use iocm_lines::SubchannelName;
use iocm_rules::Breach;
use iocm_types::{At, Fault, Key, Refused, Rule, SubId};
use std::alloc::{AllocError, AllocFailed};
use std::fmt;

/// What a refusal is about.
#[derive(Clone, Copy, PartialEq, Eq)]
pub enum About {
    /// The line of a text, counted from 1.
    Line(usize),
    /// The record of this key.
    Key(Key),
    /// This subchannel.
    Subchannel(SubId),
    /// The change of this number, counted from 1.
    Change(u64),
    /// Nothing that could be named.
    Nothing,
}

/// Why a command gives no answer: a text has a fault, a configuration breaks a rule, a change isn't
/// made, or memory is missing.
#[derive(Clone, Copy, PartialEq, Eq)]
pub struct Refusal {
    /// Its number.
    pub number: Rule,
    /// The node of the change tree where it came, if it names one: counted from 0, each node before
    /// its parts.
    pub node: Option<u64>,
    /// What it is about.
    pub about: About,
}

impl Refusal {
    /// Memory is missing, M1.
    pub const NO_MEMORY: Refusal = Refusal {
        number: Rule::M1,
        node: None,
        about: About::Nothing,
    };

    /// A refusal that names no node.
    fn new(number: Rule, about: About) -> Self
        ensures { result ≡ meaning.refusal_about number about }
    {
        Refusal {
            number,
            node: None,
            about,
        }
    }
}

/// A fault is about its line. Lack of memory has none.
impl From<Fault> for Refusal {
    ghost from_gives = { λ fault r. r ≡ meaning.of_fault fault };

    fn from(fault: Fault) -> Refusal {
        match fault.rule {
            Rule::M1 => Refusal::NO_MEMORY,
            _ => Refusal::new(fault.rule, About::Line(fault.line)),
        }
    }
}

/// A breach is about the record that breaks the rule.
impl From<Breach> for Refusal {
    ghost from_gives = { λ breach r. r ≡ meaning.of_breach breach };

    fn from(breach: Breach) -> Refusal {
        Refusal::new(breach.rule, About::Key(breach.key))
    }
}

/// The refusal of a change, or of a machine that isn't opened.
impl From<Refused> for Refusal {
    ghost from_gives = { λ why r. r ≡ meaning.of_change why };

    fn from(why: Refused) -> Refusal {
        Refusal {
            number: why.rule,
            node: why.node,
            about: about_of(why.at),
        }
    }
}

/// What the refusal of a change is about.
fn about_of(at: At) -> About
    ensures { result ≡ meaning.about_of at }
{
    match at {
        At::Key(key) => About::Key(key),
        At::Subchannel(subchannel) => About::Subchannel(subchannel),
        At::Change(number) => About::Change(number),
        At::Nothing => About::Nothing,
    }
}

/// Lack of memory is M1.
impl From<AllocError> for Refusal {
    ghost from_gives = { λ _ r. r ≡ meaning.no_memory };

    fn from(_error: AllocError) -> Refusal {
        Refusal::NO_MEMORY
    }
}

/// Lack of memory for a value is M1; the value is dropped.
impl<T: Drop> From<AllocFailed<T>> for Refusal {
    ghost from_gives = { λ _ r. r ≡ meaning.no_memory };

    fn from(_error: AllocFailed<T>) -> Refusal {
        Refusal::NO_MEMORY
    }
}

/// The line of a refusal without its end: its number, the node, and what it is about, as far as it
/// names them.
impl fmt::Display for Refusal {
    ghost output = { λ r. Some (meaning.refusal_text r) };

    fn fmt<W: fmt::Write>(&self, f: &mut fmt::Formatter<W>) -> fmt::Result {
        let number = self.number;
        let node = NodeName(self.node);
        let about = AboutName(self.about);
        write!(f, "refused {number}{node}{about}")
    }
}

/// Where in a change tree a refusal came, as it is printed: nothing if no node is named.
#[derive(Clone, Copy)]
struct NodeName(Option<u64>);

impl fmt::Display for NodeName {
    ghost output = { λ n. Some (meaning.node_text n.0) };

    fn fmt<W: fmt::Write>(&self, f: &mut fmt::Formatter<W>) -> fmt::Result {
        match self.0 {
            Some(node) => write!(f, " node {node}"),
            None => Ok(()),
        }
    }
}

/// What a refusal is about, as it is printed.
#[derive(Clone, Copy)]
struct AboutName(About);

impl fmt::Display for AboutName {
    ghost output = { λ a. Some (meaning.about_text a.0) };

    fn fmt<W: fmt::Write>(&self, f: &mut fmt::Formatter<W>) -> fmt::Result {
        match self.0 {
            About::Line(line) => write!(f, " line {line}"),
            About::Key(key) => write!(f, " {key}"),
            About::Subchannel(subchannel) => {
                let name = SubchannelName(subchannel);
                write!(f, " subchannel {name}")
            }
            About::Change(number) => write!(f, " change {number}"),
            About::Nothing => Ok(()),
        }
    }
}
