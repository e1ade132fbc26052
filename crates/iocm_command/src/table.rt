//! The table of the commands: what each takes, and what it asks for.

ghost use Rattle.std.specs.Prelude.{◌≡◌, IfOk};
ghost use Rattle.std.specs.Option.{option_map};
ghost use Rattle.clap.specs.Walk.{texts};
ghost use Rattle.iocm_command.specs.CommandLine.{files_of, filters_of_deck, meant_of};

use crate::argument::{Argument, Form};
use crate::report::{PlanScope, Report};
use iocm_filter::Filters;
use std::alloc::{AllocError, Global};

/// What a command line asks for: files by their names, and what else a command takes.
#[derive(Drop)]
pub enum Command<'a> {
    /// Check the rules of a deck, and print how many records it has, or the first breach, or all of them.
    Check {
        deck: &'a str,
        breaches: Breaches,
    },
    /// Print the table of subchannels of a deck, of those that are asked for.
    Show {
        deck: &'a str,
        filters: Filters,
    },
    /// List what a deck has of one kind, of what is connected with what is asked for.
    List {
        listed: Listed,
        deck: &'a str,
        filters: Filters,
    },
    /// Print the canonical deck of a deck.
    Write {
        deck: &'a str,
    },
    /// Print the change deck that leads from one deck to another, with what was there before, if that
    /// is asked for.
    Diff {
        old: &'a str,
        new: &'a str,
        before: Before,
    },
    /// Print what leads from one deck to another does to images and devices, of what is asked for.
    Plan {
        old: &'a str,
        new: &'a str,
        scope: PlanScope,
        filters: Filters,
    },
    /// Print the change deck that takes paths of a deck offline for images, or online.
    Vary {
        deck: &'a str,
        to: Varied,
        filters: Filters,
    },
    /// Activate a change deck on the machine of a deck, and print this report of the subchannels that
    /// are asked for; the change tree is read in a heap of so many bytes, if that is given.
    Apply {
        deck: &'a str,
        change: &'a str,
        heap: Option<u32>,
        report: Report,
        filters: Filters,
    },
    /// Print what a change deck does to images and devices of a deck, of what is asked for, and activate it nowhere;
    /// the change tree is read in a heap of so many bytes, if that is given.
    PlanChange {
        deck: &'a str,
        change: &'a str,
        heap: Option<u32>,
        scope: PlanScope,
        filters: Filters,
    },
    /// Run a script on the machine of a deck, with change decks in their order; each change tree is
    /// read in a heap of so many bytes, if that is given.
    Run {
        deck: &'a str,
        script: &'a str,
        changes: Vec<&'a str>,
        heap: Option<u32>,
    },
    /// Print what the refusals of these numbers mean, or a list of all.
    Explain {
        rules: Vec<&'a str>,
    },
}

impl<'a> Command<'a> {
    /// The names of the files that it reads, in the order of the command line: the deck first.
    ///
    /// `AllocError`: memory ran out.
    pub fn files(&self, alloc: Global) -> Result<Vec<&'a str>, AllocError>
        ensures { IfOk result (λ files. texts files.items ≡ files_of (meant_of self.now)) }
    {
        match self {
            Command::Check { deck, .. }
            | Command::Show { deck, .. }
            | Command::List { deck, .. }
            | Command::Write { deck }
            | Command::Vary { deck, .. } => Vec::from_slice(alloc, &[*deck]),
            Command::Diff { old, new, .. } | Command::Plan { old, new, .. } => {
                Vec::from_slice(alloc, &[*old, *new])
            }
            Command::Apply { deck, change, .. } | Command::PlanChange { deck, change, .. } => {
                Vec::from_slice(alloc, &[*deck, *change])
            }
            Command::Run {
                deck,
                script,
                changes,
                ..
            } => {
                let mut files = Vec::from_slice(alloc, &[*deck, *script])?;
                files.extend_from_slice(changes)?;
                Ok(files)
            }
            Command::Explain { .. } => Ok(Vec::new(alloc)),
        }
    }

    /// What it asks for of its decks, if it has filters and changes nothing.
    pub fn filters(&self) -> Option<&Filters>
        ensures { option_map (λ filters. filters.now) result ≡ filters_of_deck (meant_of self.now) }
    {
        match self {
            Command::Show { filters, .. }
            | Command::List { filters, .. }
            | Command::Plan { filters, .. }
            | Command::Vary { filters, .. } => Some(filters),
            _ => None,
        }
    }
}

/// Which breaches of the rules are printed.
#[derive(Clone, Copy, PartialEq, Eq)]
pub enum Breaches {
    /// The first one alone.
    First,
    /// All.
    All,
}

/// What is listed.
#[derive(Clone, Copy, PartialEq, Eq)]
pub enum Listed {
    /// Images.
    Images,
    /// Channel paths.
    Paths,
    /// Control units.
    Units,
    /// Devices, in runs.
    Devices,
}

/// Whether what was there before each change is printed, as comments.
#[derive(Clone, Copy, PartialEq, Eq)]
pub enum Before {
    /// It isn't.
    LeftOut,
    /// It is.
    Shown,
}

/// What becomes of a path for an image.
#[derive(Clone, Copy, PartialEq, Eq)]
pub enum Varied {
    /// It is taken offline.
    Offline,
    /// It is brought online.
    Online,
}

/// A command.
#[derive(Clone, Copy)]
pub(crate) struct Row<'a> {
    /// Its name.
    pub(crate) name: &'a str,
    /// What help says of it.
    pub(crate) about: &'a str,
    /// What it takes.
    pub(crate) arguments: &'a [Argument<'a>],
    /// What its help ends with: two examples, and the page that says more.
    pub(crate) examples: &'a str,
}

/// The commands of decks alone, in the order in which help lists them.
pub(crate) const OF_DECKS: [Row<'static>; 4] = [CHECK, SHOW, LIST, WRITE];

/// The commands of changes, which help lists behind those.
pub(crate) const OF_CHANGES: [Row<'static>; 4] = [DIFF, PLAN, VARY, APPLY];

/// The others.
pub(crate) const OTHERS: [Row<'static>; 2] = [RUN, EXPLAIN];

const CHECK: Row<'static> = Row {
    name: "check",
    about: "Reads a configuration deck, checks its rules and says how many records it has",
    arguments: &[QUIET, JSON, DECK, ALL],
    examples: "Examples:\n  iocm check my.deck\n  iocm check my.deck --all\n\nMore: docs/MESSAGES.md",
};

const SHOW: Row<'static> = Row {
    name: "show",
    about: "Reads a configuration deck and prints the table of its subchannels",
    arguments: &[QUIET, JSON, DECK, IMAGE, DEVICE, UNIT, PATH, ONLINE],
    examples: "Examples:\n  iocm show my.deck\n  iocm show my.deck --image LPB --paths-online 1\n\n\
               More: docs/DEFINITIONS.md",
};

const LIST: Row<'static> = Row {
    name: "list",
    about: "Reads a configuration deck and lists its images, channel paths, control units or devices",
    arguments: &[
        QUIET,
        JSON,
        KIND,
        DECK,
        WITH_IMAGE,
        WITH_DEVICE,
        WITH_UNIT,
        WITH_PATH,
        WITH_ONLINE,
    ],
    examples: "Examples:\n  iocm list images my.deck\n  iocm list devices my.deck --path 0.50\n\n\
               More: docs/DEFINITIONS.md",
};

const WRITE: Row<'static> = Row {
    name: "write",
    about: "Reads a configuration deck and prints it again in canonical order and forms",
    arguments: &[QUIET, JSON, DECK],
    examples: "Examples:\n  iocm write my.deck\n  iocm write my.deck > canonical.deck\n\nMore: docs/CHANGES.md",
};

const DIFF: Row<'static> = Row {
    name: "diff",
    about: "Reads two configuration decks and prints the change deck that leads from one to the other",
    arguments: &[QUIET, JSON, OLD, NEW, BEFORE, EXIT_CODE],
    examples: "Examples:\n  iocm diff old.deck new.deck > my.change\n  iocm diff old.deck new.deck --old\n\n\
               More: docs/CHANGES.md",
};

const PLAN: Row<'static> = Row {
    name: "plan",
    about: "Reads two configuration decks and prints what leads from one to the other does to images and devices",
    arguments: &[
        QUIET,
        OLD,
        NEW,
        BRIEF,
        EXIT_CODE,
        LOST,
        PLAN_IMAGE,
        PLAN_DEVICE,
        PLAN_UNIT,
        PLAN_PATH,
    ],
    examples: "Examples:\n  iocm plan old.deck new.deck\n  iocm plan old.deck new.deck --lost --exit-code\n\n\
               More: docs/CHANGES.md",
};

const VARY: Row<'static> = Row {
    name: "vary",
    about: "Reads a configuration deck and prints the change deck that takes channel paths offline, or online",
    arguments: &[QUIET, DECK, STATE, PATHS, FOR_IMAGE],
    examples: "Examples:\n  iocm vary my.deck offline 0.50 | iocm apply my.deck - --count\n  \
               iocm vary my.deck online 50 51 --image LPB\n\nMore: docs/CHANGES.md",
};

const APPLY: Row<'static> = Row {
    name: "apply",
    about: "Activates a change deck on the machine of a configuration deck and prints the table afterwards, \
            what was altered, or how to take it back",
    arguments: &[
        QUIET, JSON, DECK, CHANGE, HEAP, UNDO, ALTERED, COUNT, AFTERWARDS, TEST, FORESEEN, BRIEF,
        EXIT_CODE, LOST, IMAGE, DEVICE, UNIT, PATH, ONLINE,
    ],
    examples: "Examples:\n  iocm apply my.deck my.change --count\n  iocm apply my.deck my.change --undo > back.change\n\n\
               More: docs/CHANGES.md",
};

const RUN: Row<'static> = Row {
    name: "run",
    about: "Runs a script of images and operators on the machine of a configuration deck, and prints the answers \
            and the table afterwards",
    arguments: &[QUIET, JSON, DECK, SCRIPT, CHANGES, HEAP],
    examples: "Examples:\n  iocm run my.deck my.script\n  iocm run my.deck my.script first.change second.change\n\n\
               More: docs/SCRIPTS.md",
};

const EXPLAIN: Row<'static> = Row {
    name: "explain",
    about: "Says what a refusal means and what to do, or lists all refusals",
    arguments: &[RULE],
    examples: "Examples:\n  iocm explain\n  iocm explain V14 S5\n\nMore: docs/MESSAGES.md",
};

const QUIET: Argument<'static> = Argument {
    name: "quiet",
    form: Form::Letter('q'),
    value: "",
    help: "Prints nothing on standard error beside a refusal",
};

const JSON: Argument<'static> = Argument {
    name: "json",
    form: Form::Flag,
    value: "",
    help: "Prints lines of JSON, for programs",
};

const DECK: Argument<'static> = Argument {
    name: "DECK",
    form: Form::File,
    value: "",
    help: "A configuration deck: the file of its input statements, or - for standard input",
};

const ALL: Argument<'static> = Argument {
    name: "all",
    form: Form::Flag,
    value: "",
    help: "Prints every breach of the rules, not the first one alone",
};

const IMAGE: Argument<'static> = Argument {
    name: "image",
    form: Form::Filter,
    value: "IMAGE",
    help: "Only subchannels of this image: 0.2, or LPB; may be given several times",
};

const FOR_IMAGE: Argument<'static> = Argument {
    name: "image",
    form: Form::Filter,
    value: "IMAGE",
    help: "Only for this image: 0.2, or LPB; may be given several times",
};

const DEVICE: Argument<'static> = Argument {
    name: "device",
    form: Form::Filter,
    value: "DEVICES",
    help: "Only these devices: 1003, 1000-100F, 1.1000-10FF; may be given several times",
};

const UNIT: Argument<'static> = Argument {
    name: "unit",
    form: Form::Filter,
    value: "UNIT",
    help: "Only devices on this control unit: 1000; may be given several times",
};

const PATH: Argument<'static> = Argument {
    name: "path",
    form: Form::Filter,
    value: "PATH",
    help: "Only subchannels with this path: 0.50, or 50 of every channel subsystem; may be given several times",
};

const ONLINE: Argument<'static> = Argument {
    name: "paths-online",
    form: Form::Filter,
    value: "N",
    help: "Only subchannels with at most so many paths online, 0 to 8",
};

const KIND: Argument<'static> = Argument {
    name: "KIND",
    form: Form::Word,
    value: "",
    help: "What is listed: images, paths, units, or devices",
};

const WITH_IMAGE: Argument<'static> = Argument {
    name: "image",
    form: Form::Filter,
    value: "IMAGE",
    help: "Only what this image has, may use or sees: 0.2, or LPB; may be given several times",
};

const WITH_DEVICE: Argument<'static> = Argument {
    name: "device",
    form: Form::Filter,
    value: "DEVICES",
    help: "Only these devices, or what leads to them: 1003, 1000-100F, 1.1000-10FF; may be given several times",
};

const WITH_UNIT: Argument<'static> = Argument {
    name: "unit",
    form: Form::Filter,
    value: "UNIT",
    help: "Only this control unit, its paths, its devices, or images that reach it: 1000; may be given several times",
};

const WITH_PATH: Argument<'static> = Argument {
    name: "path",
    form: Form::Filter,
    value: "PATH",
    help: "Only this path, and what it leads to or who may use it: 0.50, or 50 of every channel subsystem; may be \
           given several times",
};

const WITH_ONLINE: Argument<'static> = Argument {
    name: "paths-online",
    form: Form::Filter,
    value: "N",
    help: "Only devices with at most so many paths online, 0 to 8",
};

const OLD: Argument<'static> = Argument {
    name: "OLD",
    form: Form::File,
    value: "",
    help: "The configuration deck before: its file, or - for standard input",
};

const NEW: Argument<'static> = Argument {
    name: "NEW",
    form: Form::File,
    value: "",
    help: "The configuration deck afterwards: its file, or - for standard input",
};

const BEFORE: Argument<'static> = Argument {
    name: "old",
    form: Form::Flag,
    value: "",
    help: "Prints what was there before each change, as comments",
};

const STATE: Argument<'static> = Argument {
    name: "STATE",
    form: Form::Word,
    value: "",
    help: "What becomes of the paths: offline, or online",
};

const PATHS: Argument<'static> = Argument {
    name: "path",
    form: Form::Paths,
    value: "PATH",
    help: "Channel paths: 0.50, or 50 of every channel subsystem",
};

const CHANGE: Argument<'static> = Argument {
    name: "CHANGE",
    form: Form::File,
    value: "",
    help: "A change deck: the file of the statements of a change, or - for standard input",
};

const HEAP: Argument<'static> = Argument {
    name: "heap",
    form: Form::Heap,
    value: "BYTES",
    help: "The heap that the change tree is read in: 16 to 16777216 bytes; if it isn't given, as much as it takes",
};

const UNDO: Argument<'static> = Argument {
    name: "undo",
    form: Form::Flag,
    value: "",
    help: "Prints the change deck that takes the change back, in place of the table",
};

const ALTERED: Argument<'static> = Argument {
    name: "altered",
    form: Form::Flag,
    value: "",
    help: "Prints the subchannels that are altered, before and after, in place of the table",
};

const COUNT: Argument<'static> = Argument {
    name: "count",
    form: Form::Flag,
    value: "",
    help: "Prints how many subchannels of each image are altered, in place of the table",
};

const AFTERWARDS: Argument<'static> = Argument {
    name: "deck",
    form: Form::Flag,
    value: "",
    help: "Prints the canonical deck of the configuration afterwards, in place of the table",
};

const TEST: Argument<'static> = Argument {
    name: "test",
    form: Form::Flag,
    value: "",
    help: "Prints how many subchannels are altered, and nothing else",
};

const FORESEEN: Argument<'static> = Argument {
    name: "plan",
    form: Form::Flag,
    value: "",
    help: "Prints what the change does to images and devices, as plan does, in place of the table",
};

const BRIEF: Argument<'static> = Argument {
    name: "brief",
    form: Form::Flag,
    value: "",
    help: "Leaves out of a plan what differs in the deck, and the rows of devices",
};

const EXIT_CODE: Argument<'static> = Argument {
    name: "exit-code",
    form: Form::Flag,
    value: "",
    help: "Ends with 4 if something is told, and with 0 if nothing is",
};

const LOST: Argument<'static> = Argument {
    name: "lost",
    form: Form::Flag,
    value: "",
    help: "Only devices that an image loses, and what was on the way to them",
};

const PLAN_IMAGE: Argument<'static> = Argument {
    name: "image",
    form: Form::Filter,
    value: "IMAGE",
    help: "Only what this image sees, and what leads there: 0.2, or LPB; may be given several times",
};

const PLAN_DEVICE: Argument<'static> = Argument {
    name: "device",
    form: Form::Filter,
    value: "DEVICES",
    help: "Only these devices, and what leads to them: 1003, 1000-100F, 1.1000-10FF; may be given several times",
};

const PLAN_UNIT: Argument<'static> = Argument {
    name: "unit",
    form: Form::Filter,
    value: "UNIT",
    help: "Only devices on this control unit, and what leads there: 1000; may be given several times",
};

const PLAN_PATH: Argument<'static> = Argument {
    name: "path",
    form: Form::Filter,
    value: "PATH",
    help: "Only devices with this path, and what leads there: 0.50, or 50 of every channel subsystem; may be given \
           several times",
};

const SCRIPT: Argument<'static> = Argument {
    name: "SCRIPT",
    form: Form::File,
    value: "",
    help: "A script: the file of its lines, or - for standard input",
};

const CHANGES: Argument<'static> = Argument {
    name: "CHANGE",
    form: Form::Words,
    value: "",
    help: "A change deck, which the script names by its place, from 1: its file, or - for standard input",
};

const RULE: Argument<'static> = Argument {
    name: "RULE",
    form: Form::Words,
    value: "",
    help: "The numbers of refusals, as V14; if there is none, all are listed",
};
