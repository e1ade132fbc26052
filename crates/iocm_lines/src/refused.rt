ghost use Rattle.std.specs.Prelude.{◌≡◌};
ghost use Rattle.json.specs.Print.{escape};
ghost use Rattle.iocm_types.specs.Key.{key_text};

use crate::names::SubchannelName;
use crate::quoted::Quoted;
use iocm_types::{At, Key, Rule};
use std::fmt;

/// The text that was refused.
#[derive(Clone, Copy, PartialEq, Eq)]
pub enum Input {
    /// A deck.
    Deck,
    /// A change deck.
    Change,
    /// The first of two decks that are compared.
    Old,
    /// The second of them.
    New,
    /// A script.
    Script,
    /// The change deck of this number, counted from 1, of those that a script applies.
    ChangeOf(u64),
}

/// The name of the text.
impl fmt::Display for Input {
    ghost use Rattle.std.specs.Prelude.{Some};
    ghost use Rattle.iocm_lines.specs.Refused.{input_text};

    ghost output = { λ i. Some (input_text i) };

    fn fmt<W: fmt::Write>(&self, f: &mut fmt::Formatter<W>) -> fmt::Result {
        match self {
            Input::Deck => f.write_str("deck"),
            Input::Change => f.write_str("change"),
            Input::Old => f.write_str("old"),
            Input::New => f.write_str("new"),
            Input::Script => f.write_str("script"),
            Input::ChangeOf(number) => write!(f, "change {number}"),
        }
    }
}

/// The line of a refusal.
#[derive(Clone, Copy)]
pub struct RefusedLine<'t> {
    /// Its number.
    pub number: Rule,
    /// The text where it came, if one was read.
    pub input: Option<Input>,
    /// The line of the text, counted from 1, if it names one.
    pub line: Option<usize>,
    /// The node of the change tree, counted from 0, if it names one.
    pub node: Option<u64>,
    /// What it is about.
    pub about: At,
    /// What is wrong, in a few words.
    pub title: &'t str,
}

/// The line without its end.
impl<'t> fmt::Display for RefusedLine<'t> {
    ghost use Rattle.std.specs.Prelude.{Some};
    ghost use Rattle.serde_json.specs.Written.{compact_text};
    ghost use Rattle.iocm_lines.specs.Refused.{refused_value, told};

    ghost output = { λ l. Some (compact_text (refused_value (told l))) };

    fn fmt<W: fmt::Write>(&self, f: &mut fmt::Formatter<W>) -> fmt::Result {
        let about = AboutMember(self.about);
        let input = InputMember(self.input);
        let line = LineMember(self.line);
        let node = NodeMember(self.node);
        let number = self.number;
        let title = Quoted(self.title);
        write!(
            f,
            "{{{about}{input}{line}{node}\"rule\":\"{number}\",\"title\":{title},\"type\":\"refused\"}}"
        )
    }
}

/// What a refusal is about, if it names anything, with a comma.
#[derive(Clone, Copy)]
pub(crate) struct AboutMember(pub At);

impl fmt::Display for AboutMember {
    ghost use Rattle.std.specs.Prelude.{Some, codes, option_map};
    ghost use Rattle.serde_json.specs.Data.{string};
    ghost use Rattle.iocm_lines.specs.Lines.{with_comma_if_there};
    ghost use Rattle.iocm_lines.specs.Refused.{about_text};

    ghost output = { λ a. Some (with_comma_if_there (codes "about") (option_map string (about_text a.0))) };

    fn fmt<W: fmt::Write>(&self, f: &mut fmt::Formatter<W>) -> fmt::Result {
        match self.0 {
            At::Key(key) => {
                let key = plain_key(key);
                write!(f, "\"about\":\"{key}\",")
            }
            At::Subchannel(subchannel) => {
                let name = SubchannelName(subchannel);
                write!(f, "\"about\":\"subchannel {name}\",")
            }
            At::Change(number) => write!(f, "\"about\":\"change {number}\","),
            At::Nothing => Ok(()),
        }
    }
}

/// The same key: its text needs no escapes, for a name has letters and digits alone.
fn plain_key(key: Key) -> Key
    ensures same { result ≡ key }
    ensures plain { escape (key_text key) ≡ key_text key }
{
    if let Key::Online(_, _, name) = &key {
        name.as_bytes();
    }
    key
}

/// The text that was refused, if one was read, with a comma.
#[derive(Clone, Copy)]
struct InputMember(Option<Input>);

impl fmt::Display for InputMember {
    ghost use Rattle.std.specs.Prelude.{Some, codes, option_map};
    ghost use Rattle.serde_json.specs.Data.{string};
    ghost use Rattle.iocm_lines.specs.Lines.{with_comma_if_there};
    ghost use Rattle.iocm_lines.specs.Refused.{input_text};

    ghost output = { λ i. Some
        (with_comma_if_there (codes "input") (option_map (λ input. string (input_text input)) i.0)) };

    fn fmt<W: fmt::Write>(&self, f: &mut fmt::Formatter<W>) -> fmt::Result {
        match self.0 {
            Some(input) => write!(f, "\"input\":\"{input}\","),
            None => Ok(()),
        }
    }
}

/// The line of the text, if it is named, with a comma.
#[derive(Clone, Copy)]
struct LineMember(Option<usize>);

impl fmt::Display for LineMember {
    ghost use Rattle.std.specs.Prelude.{Some, codes, option_map};
    ghost use Rattle.iocm_lines.specs.Lines.{with_comma_if_there};
    ghost use Rattle.iocm_lines.specs.Members.{count};

    ghost output = { λ l. Some (with_comma_if_there (codes "line") (option_map count l.0)) };

    #[tactic(auto, unfolding(json::specs::Print::escape_byte))]
    fn fmt<W: fmt::Write>(&self, f: &mut fmt::Formatter<W>) -> fmt::Result {
        match self.0 {
            Some(line) => write!(f, "\"line\":{line},"),
            None => Ok(()),
        }
    }
}

/// The node of the change tree, if it is named, with a comma.
#[derive(Clone, Copy)]
pub(crate) struct NodeMember(pub Option<u64>);

impl fmt::Display for NodeMember {
    ghost use Rattle.std.specs.Prelude.{Some, codes, option_map};
    ghost use Rattle.iocm_lines.specs.Lines.{with_comma_if_there};
    ghost use Rattle.iocm_lines.specs.Members.{count};

    ghost output = { λ n. Some (with_comma_if_there (codes "node") (option_map count n.0)) };

    #[tactic(auto, unfolding(json::specs::Print::escape_byte))]
    fn fmt<W: fmt::Write>(&self, f: &mut fmt::Formatter<W>) -> fmt::Result {
        match self.0 {
            Some(node) => write!(f, "\"node\":{node},"),
            None => Ok(()),
        }
    }
}
