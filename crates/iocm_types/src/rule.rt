use std::fmt;

/// The number of a refusal, printed as it is called. All refusals of the product are here, with one
/// numbering: L columns, S statements, V configuration rules, E and B edits, C and M trees and
/// memory, J undo and redo, O the core, K scripts, Q and G queue and gate, X seats. The numbers are
/// own.
#[derive(Clone, Copy, Debug, PartialEq, Eq)]
pub enum Rule {
    /// A byte outside printable ASCII.
    L1,
    /// A line of more than 80 bytes.
    L2,
    /// A nonblank in columns 1 to 15 of a continuation.
    L3,
    /// The deck ends inside a continuation.
    L4,
    /// The reader failed, or was read as often as the limit allows without an end.
    L5,
    /// The writer failed.
    L6,
    /// An operation that is not known here.
    S1,
    /// A keyword that comes twice.
    S2,
    /// A required keyword that is missing.
    S3,
    /// A malformed value.
    S4,
    /// A form that this product leaves out.
    S5,
    /// Parentheses or quotes that do not match.
    S6,
    /// A second ID or RESOURCE statement.
    S7,
    /// A key that comes twice.
    S8,
    /// An END that is unmatched or missing.
    S9,
    /// A change statement without a verb.
    S10,
    /// An image whose name an image with a smaller key has.
    V1,
    /// A name in a path's lists that is that of no image of its channel subsystem.
    V2,
    /// A path that more images reach than its kind allows.
    V3,
    /// An image online at a path that isn't there or doesn't list it, or a second one at a
    /// dedicated or REC path.
    V4,
    /// A control unit with no path, too many, one twice, or one that is not there.
    V5,
    /// As many links as paths are wanted in each channel subsystem with links.
    V6,
    /// Unit address ranges that pass FF or overlap.
    V7,
    /// A device with no control unit, too many, one twice, or one that is not there.
    V8,
    /// A unit address that a control unit of the device does not have.
    V9,
    /// Two devices with one unit address on a common control unit.
    V10,
    /// A path list that is too long or has a path twice.
    V11,
    /// A candidate that is no image.
    V12,
    /// A subchannel number at or above the limit.
    V13,
    /// Two control units that answer to one address on one path and link.
    V14,
    /// The key to be added is there.
    E1,
    /// The key to be deleted or modified is not there.
    E2,
    /// An empty Choose.
    E3,
    /// A subchannel number that a change brings along is taken.
    E4,
    /// An altered subchannel is busy or status pending.
    B1,
    /// No such change that stands (undo), or that was undone (redo).
    J1,
    /// A later change stands on it.
    J2,
    /// Redo of a change that is not the one undone last, or that is past.
    J3,
    /// A change is being staged.
    O1,
    /// No change is being staged.
    O2,
    /// The trace is full.
    O3,
    /// A script line that is no command.
    K1,
    /// A change deck that the command line does not name.
    K2,
    /// More operator lines in one round than the queue holds.
    K3,
    /// The operator queue is full.
    Q1,
    /// A gate gave up.
    G1,
    /// A change tree that is too deep.
    C1,
    /// A change tree with too many leaves.
    C2,
    /// Want of memory.
    M1,
    /// A seat that is not this board's.
    X1,
}

/// The letter and the number, as `S10`.
impl fmt::Display for Rule {
    ghost use Rattle.std.specs.Prelude.{Some};
    ghost use Rattle.iocm_types.specs.Rule.{rule_text};

    ghost output = { λ r. Some (rule_text r) };

    fn fmt<W: fmt::Write>(&self, f: &mut fmt::Formatter<W>) -> fmt::Result {
        f.write_str(match self {
            Rule::L1 => "L1",
            Rule::L2 => "L2",
            Rule::L3 => "L3",
            Rule::L4 => "L4",
            Rule::L5 => "L5",
            Rule::L6 => "L6",
            Rule::S1 => "S1",
            Rule::S2 => "S2",
            Rule::S3 => "S3",
            Rule::S4 => "S4",
            Rule::S5 => "S5",
            Rule::S6 => "S6",
            Rule::S7 => "S7",
            Rule::S8 => "S8",
            Rule::S9 => "S9",
            Rule::S10 => "S10",
            Rule::V1 => "V1",
            Rule::V2 => "V2",
            Rule::V3 => "V3",
            Rule::V4 => "V4",
            Rule::V5 => "V5",
            Rule::V6 => "V6",
            Rule::V7 => "V7",
            Rule::V8 => "V8",
            Rule::V9 => "V9",
            Rule::V10 => "V10",
            Rule::V11 => "V11",
            Rule::V12 => "V12",
            Rule::V13 => "V13",
            Rule::V14 => "V14",
            Rule::E1 => "E1",
            Rule::E2 => "E2",
            Rule::E3 => "E3",
            Rule::E4 => "E4",
            Rule::B1 => "B1",
            Rule::J1 => "J1",
            Rule::J2 => "J2",
            Rule::J3 => "J3",
            Rule::O1 => "O1",
            Rule::O2 => "O2",
            Rule::O3 => "O3",
            Rule::K1 => "K1",
            Rule::K2 => "K2",
            Rule::K3 => "K3",
            Rule::Q1 => "Q1",
            Rule::G1 => "G1",
            Rule::C1 => "C1",
            Rule::C2 => "C2",
            Rule::M1 => "M1",
            Rule::X1 => "X1",
        })
    }
}
