// Written by tests/messages --write from docs/MESSAGES.md: change the entries there, not here.
ghost use Rattle.std.specs.Prelude.{◌≡◌};
ghost use Rattle.iocm_types.specs.Rule.{rule_text};
ghost use Rattle.iocm_explain.specs.Entry.{text_of, title_of};

pub mod changes;
pub mod machine;
pub mod rules;
pub mod texts;

use crate::Entry;
use iocm_types::Rule;

/// An entry of its number, its title and its text.
macro_rules! entry {
    ($number:literal, $title:expr, $text:expr) => {
        Entry {
            number: $number,
            title: $title,
            text: $text,
        }
    };
}

/// All refusals, by letter as docs/MESSAGES.md has them, and then by number.
pub const RULES: [Rule; 50] = [
    Rule::L1,
    Rule::L2,
    Rule::L3,
    Rule::L4,
    Rule::L5,
    Rule::L6,
    Rule::S1,
    Rule::S2,
    Rule::S3,
    Rule::S4,
    Rule::S5,
    Rule::S6,
    Rule::S7,
    Rule::S8,
    Rule::S9,
    Rule::S10,
    Rule::V1,
    Rule::V2,
    Rule::V3,
    Rule::V4,
    Rule::V5,
    Rule::V6,
    Rule::V7,
    Rule::V8,
    Rule::V9,
    Rule::V10,
    Rule::V11,
    Rule::V12,
    Rule::V13,
    Rule::V14,
    Rule::E1,
    Rule::E2,
    Rule::E3,
    Rule::E4,
    Rule::B1,
    Rule::C1,
    Rule::C2,
    Rule::J1,
    Rule::J2,
    Rule::J3,
    Rule::O1,
    Rule::O2,
    Rule::O3,
    Rule::K1,
    Rule::K2,
    Rule::K3,
    Rule::M1,
    Rule::Q1,
    Rule::X1,
    Rule::G1,
];

/// The entry of a refusal.
pub fn entry_of(rule: Rule) -> Entry
    ensures number { result.number.now ≡ rule_text rule }
    ensures title { result.title.now ≡ title_of rule }
    ensures text { result.text.now ≡ text_of rule }
{
    match rule {
        Rule::L1 => entry!("L1", texts::L1_TITLE, texts::L1_TEXT),
        Rule::L2 => entry!("L2", texts::L2_TITLE, texts::L2_TEXT),
        Rule::L3 => entry!("L3", texts::L3_TITLE, texts::L3_TEXT),
        Rule::L4 => entry!("L4", texts::L4_TITLE, texts::L4_TEXT),
        Rule::L5 => entry!("L5", texts::L5_TITLE, texts::L5_TEXT),
        Rule::L6 => entry!("L6", texts::L6_TITLE, texts::L6_TEXT),
        Rule::S1 => entry!("S1", texts::S1_TITLE, texts::S1_TEXT),
        Rule::S2 => entry!("S2", texts::S2_TITLE, texts::S2_TEXT),
        Rule::S3 => entry!("S3", texts::S3_TITLE, texts::S3_TEXT),
        Rule::S4 => entry!("S4", texts::S4_TITLE, texts::S4_TEXT),
        Rule::S5 => entry!("S5", texts::S5_TITLE, texts::S5_TEXT),
        Rule::S6 => entry!("S6", texts::S6_TITLE, texts::S6_TEXT),
        Rule::S7 => entry!("S7", texts::S7_TITLE, texts::S7_TEXT),
        Rule::S8 => entry!("S8", texts::S8_TITLE, texts::S8_TEXT),
        Rule::S9 => entry!("S9", texts::S9_TITLE, texts::S9_TEXT),
        Rule::S10 => entry!("S10", texts::S10_TITLE, texts::S10_TEXT),
        Rule::V1 => entry!("V1", rules::V1_TITLE, rules::V1_TEXT),
        Rule::V2 => entry!("V2", rules::V2_TITLE, rules::V2_TEXT),
        Rule::V3 => entry!("V3", rules::V3_TITLE, rules::V3_TEXT),
        Rule::V4 => entry!("V4", rules::V4_TITLE, rules::V4_TEXT),
        Rule::V5 => entry!("V5", rules::V5_TITLE, rules::V5_TEXT),
        Rule::V6 => entry!("V6", rules::V6_TITLE, rules::V6_TEXT),
        Rule::V7 => entry!("V7", rules::V7_TITLE, rules::V7_TEXT),
        Rule::V8 => entry!("V8", rules::V8_TITLE, rules::V8_TEXT),
        Rule::V9 => entry!("V9", rules::V9_TITLE, rules::V9_TEXT),
        Rule::V10 => entry!("V10", rules::V10_TITLE, rules::V10_TEXT),
        Rule::V11 => entry!("V11", rules::V11_TITLE, rules::V11_TEXT),
        Rule::V12 => entry!("V12", rules::V12_TITLE, rules::V12_TEXT),
        Rule::V13 => entry!("V13", rules::V13_TITLE, rules::V13_TEXT),
        Rule::V14 => entry!("V14", rules::V14_TITLE, rules::V14_TEXT),
        Rule::E1 => entry!("E1", changes::E1_TITLE, changes::E1_TEXT),
        Rule::E2 => entry!("E2", changes::E2_TITLE, changes::E2_TEXT),
        Rule::E3 => entry!("E3", changes::E3_TITLE, changes::E3_TEXT),
        Rule::E4 => entry!("E4", changes::E4_TITLE, changes::E4_TEXT),
        Rule::B1 => entry!("B1", changes::B1_TITLE, changes::B1_TEXT),
        Rule::C1 => entry!("C1", changes::C1_TITLE, changes::C1_TEXT),
        Rule::C2 => entry!("C2", changes::C2_TITLE, changes::C2_TEXT),
        Rule::J1 => entry!("J1", changes::J1_TITLE, changes::J1_TEXT),
        Rule::J2 => entry!("J2", changes::J2_TITLE, changes::J2_TEXT),
        Rule::J3 => entry!("J3", changes::J3_TITLE, changes::J3_TEXT),
        Rule::O1 => entry!("O1", machine::O1_TITLE, machine::O1_TEXT),
        Rule::O2 => entry!("O2", machine::O2_TITLE, machine::O2_TEXT),
        Rule::O3 => entry!("O3", machine::O3_TITLE, machine::O3_TEXT),
        Rule::K1 => entry!("K1", machine::K1_TITLE, machine::K1_TEXT),
        Rule::K2 => entry!("K2", machine::K2_TITLE, machine::K2_TEXT),
        Rule::K3 => entry!("K3", machine::K3_TITLE, machine::K3_TEXT),
        Rule::M1 => entry!("M1", machine::M1_TITLE, machine::M1_TEXT),
        Rule::Q1 => entry!("Q1", machine::Q1_TITLE, machine::Q1_TEXT),
        Rule::X1 => entry!("X1", machine::X1_TITLE, machine::X1_TEXT),
        Rule::G1 => entry!("G1", machine::G1_TITLE, machine::G1_TEXT),
    }
}
