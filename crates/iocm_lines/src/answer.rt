use crate::order_answer::OrderAnswer;
use crate::quoted::Quoted;
use crate::refused::{AboutMember, NodeMember};
use iocm_types::{Answer, Counts, Refused};
use std::fmt;
use std::fmt::Display;

/// The line of an answer to a line of a script.
#[derive(Clone, Copy)]
pub struct AnswerLine<'t> {
    /// The line of the script, counted from 1.
    pub line: usize,
    /// The answer.
    pub answer: Answer,
    /// What is wrong, in a few words, if the answer is a refusal.
    pub title: &'t str,
}

/// The line without its end.
impl<'t> fmt::Display for AnswerLine<'t> {
    ghost use Rattle.std.specs.Prelude.{Some};
    ghost use Rattle.serde_json.specs.Written.{compact_text};
    ghost use Rattle.iocm_lines.specs.Answer.{answer_value};

    ghost output = { λ l. Some (compact_text (answer_value l.line l.answer l.title.now)) };

    fn fmt<W: fmt::Write>(&self, f: &mut fmt::Formatter<W>) -> fmt::Result {
        let line = self.line;
        let title = self.title;
        match self.answer {
            Answer::Io(io) => OrderAnswer { line, io }.fmt(f),
            Answer::Begun(true) => WordAnswer(line, "active").fmt(f),
            Answer::Ended(true) => WordAnswer(line, "ended").fmt(f),
            Answer::Begun(false) | Answer::Ended(false) => WordAnswer(line, "nothing").fmt(f),
            Answer::Held => WordAnswer(line, "held").fmt(f),
            Answer::Changed(number) => ChangeAnswer(line, "change", number).fmt(f),
            Answer::Staged(edits) => EditsAnswer(line, "staged", edits).fmt(f),
            Answer::Left(edits) => EditsAnswer(line, "left", edits).fmt(f),
            Answer::Aborted => WordAnswer(line, "aborted").fmt(f),
            Answer::Undone(number) => ChangeAnswer(line, "undone", number).fmt(f),
            Answer::Redone(number) => ChangeAnswer(line, "redone", number).fmt(f),
            Answer::Shown(counts) => CountsAnswer(line, counts).fmt(f),
            Answer::Refused(why) => RefusalAnswer { line, why, title }.fmt(f),
        }
    }
}

/// The answer to this line is one word, and nothing else.
#[derive(Clone, Copy)]
struct WordAnswer(usize, &'static str);

impl fmt::Display for WordAnswer {
    ghost use Rattle.std.specs.Prelude.{Some};
    ghost use Rattle.serde_json.specs.Written.{compact_text};
    ghost use Rattle.iocm_lines.specs.Answer.{word_answer};

    ghost output = { λ a. Some (compact_text (word_answer a.0 a.1.now)) };

    #[tactic(auto, unfolding(json::specs::Print::escape_byte))]
    fn fmt<W: fmt::Write>(&self, f: &mut fmt::Formatter<W>) -> fmt::Result {
        let line = self.0;
        let word = Quoted(self.1);
        write!(
            f,
            "{{\"answer\":{word},\"line\":{line},\"type\":\"answer\"}}"
        )
    }
}

/// The answer to this line is a word and the number of a change.
#[derive(Clone, Copy)]
struct ChangeAnswer(usize, &'static str, u64);

impl fmt::Display for ChangeAnswer {
    ghost use Rattle.std.specs.Prelude.{Some};
    ghost use Rattle.serde_json.specs.Written.{compact_text};
    ghost use Rattle.iocm_lines.specs.Answer.{change_answer};

    ghost output = { λ a. Some (compact_text (change_answer a.0 a.1.now a.2)) };

    #[tactic(auto, unfolding(json::specs::Print::escape_byte))]
    fn fmt<W: fmt::Write>(&self, f: &mut fmt::Formatter<W>) -> fmt::Result {
        let line = self.0;
        let word = Quoted(self.1);
        let change = self.2;
        write!(
            f,
            "{{\"answer\":{word},\"change\":{change},\"line\":{line},\"type\":\"answer\"}}"
        )
    }
}

/// The answer to this line is a word and how many edits there are.
#[derive(Clone, Copy)]
struct EditsAnswer(usize, &'static str, u64);

impl fmt::Display for EditsAnswer {
    ghost use Rattle.std.specs.Prelude.{Some};
    ghost use Rattle.serde_json.specs.Written.{compact_text};
    ghost use Rattle.iocm_lines.specs.Answer.{edits_answer};

    ghost output = { λ a. Some (compact_text (edits_answer a.0 a.1.now a.2)) };

    #[tactic(auto, unfolding(json::specs::Print::escape_byte))]
    fn fmt<W: fmt::Write>(&self, f: &mut fmt::Formatter<W>) -> fmt::Result {
        let line = self.0;
        let word = Quoted(self.1);
        let edits = self.2;
        write!(
            f,
            "{{\"answer\":{word},\"edits\":{edits},\"line\":{line},\"type\":\"answer\"}}"
        )
    }
}

/// The answer to this line is what the machine counts.
#[derive(Clone, Copy)]
struct CountsAnswer(usize, Counts);

impl fmt::Display for CountsAnswer {
    ghost use Rattle.std.specs.Prelude.{Some};
    ghost use Rattle.serde_json.specs.Written.{compact_text};
    ghost use Rattle.iocm_lines.specs.Answer.{counts_answer};

    ghost output = { λ a. Some (compact_text (counts_answer a.0 a.1)) };

    #[tactic(auto, unfolding(json::specs::Print::escape_byte))]
    fn fmt<W: fmt::Write>(&self, f: &mut fmt::Formatter<W>) -> fmt::Result {
        let line = self.0;
        let records = self.1.records;
        let standing = self.1.standing;
        let subchannels = self.1.subchannels;
        let undone = self.1.undone;
        write!(
            f,
            "{{\"answer\":\"shown\",\"line\":{line},\"records\":{records},\"standing\":{standing},\
             \"subchannels\":{subchannels},\"type\":\"answer\",\"undone\":{undone}}}"
        )
    }
}

/// The answer is a refusal.
#[derive(Clone, Copy)]
struct RefusalAnswer<'t> {
    line: usize,
    why: Refused,
    title: &'t str,
}

impl<'t> fmt::Display for RefusalAnswer<'t> {
    ghost use Rattle.std.specs.Prelude.{Some};
    ghost use Rattle.serde_json.specs.Written.{compact_text};
    ghost use Rattle.iocm_lines.specs.Answer.{refusal_answer};

    ghost output = { λ a. Some (compact_text (refusal_answer a.line a.why a.title.now)) };

    fn fmt<W: fmt::Write>(&self, f: &mut fmt::Formatter<W>) -> fmt::Result {
        let line = self.line;
        let about = AboutMember(self.why.at);
        let node = NodeMember(self.why.node);
        let rule = self.why.rule;
        let title = Quoted(self.title);
        write!(
            f,
            "{{{about}\"answer\":\"refused\",\"line\":{line},{node}\"rule\":\"{rule}\",\
             \"title\":{title},\"type\":\"answer\"}}"
        )
    }
}
