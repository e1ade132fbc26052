//! What holds of the definitions themselves. Each law is the contract of a function that does
//! nothing.
ghost use Rattle.std.specs.Prelude.{◌≡◌, None, Some, Ok, Err, true, is_ok, [], ◌∷◌, ◌++◌, codes};
ghost use Rattle.iocm_types.specs.declared.order.Order.TheVariants.{Start, Halt, Clear, Cancel, Test, Store, Modify};
ghost use Rattle.iocm_types.specs.declared.rule.Rule.TheVariants.{K1, K2, K3, L1};
ghost use Rattle.iocm_types.specs.Fault.{at};
ghost use Rattle.iocm_columns.specs.Examples.{line};
ghost use Rattle.iocm_script.specs.declared.line.Spoken.TheVariants as spoken;
ghost use Rattle.iocm_script.specs.declared.said.ImageCommand.TheVariants.{Io, DeviceBegin, DeviceEnd};
ghost use Rattle.iocm_script.specs.declared.said.ImageThread.TheVariants.{A, B};
ghost use Rattle.iocm_script.specs.declared.said.OperatorCommand.TheVariants.{Activate, Begin, Advance, Commit, Abort};
ghost use Rattle.iocm_script.specs.declared.said.OperatorCommand.TheVariants.{Undo, Redo, Show};
ghost use Rattle.iocm_script.specs.declared.said.OperatorThread.TheVariants.{P, Q};
ghost use Rattle.iocm_script.specs.declared.said.Said.TheVariants.{Image, Operator};
ghost use Rattle.iocm_script.specs.Examples.{first, last, some_setting, said_in, two_rounds, its_rounds, pairs};
ghost use Rattle.iocm_script.specs.Lines.{spoken_by};
ghost use Rattle.iocm_script.specs.Scripts.{HaveOneRoundMore, KeepLines, script_in};
ghost use Rattle.iocm_script.specs.Words.{words_of};
ghost use Rattle.iocm_script.specs.Written.{FindsWords, ReadsSaidAgain};

/// Each command once, as it was worked by hand.
pub fn commands_are_read()
    ensures start { said_in (codes "A start 0.1.0.0001") ≡ Some (Image A (Io first Start)) }
    ensures halt { said_in (codes "B halt 5.F.3.FFFF") ≡ Some (Image B (Io last Halt)) }
    ensures clear { said_in (codes "A clear 0.1.0.0001") ≡ Some (Image A (Io first Clear)) }
    ensures cancel { said_in (codes "A cancel 0.1.0.0001") ≡ Some (Image A (Io first Cancel)) }
    ensures test { said_in (codes "A test 0.1.0.0001") ≡ Some (Image A (Io first Test)) }
    ensures store { said_in (codes "A store 0.1.0.0001") ≡ Some (Image A (Io first Store)) }
    ensures modify { said_in (codes "A modify 0.1.0.0001 1 8F 0000ABCD")
        ≡ Some (Image A (Io first (Modify some_setting))) }
    ensures active { said_in (codes "A active 0.1.0.0001") ≡ Some (Image A (DeviceBegin first)) }
    ensures end { said_in (codes "A end 0.1.0.0001") ≡ Some (Image A (DeviceEnd first)) }
    ensures activate { said_in (codes "P activate 1") ≡ Some (Operator P (Activate 1)) }
    ensures begin { said_in (codes "Q begin 0002") ≡ Some (Operator Q (Begin 2)) }
    ensures advance { said_in (codes "P advance") ≡ Some (Operator P Advance) }
    ensures commit { said_in (codes "P commit") ≡ Some (Operator P Commit) }
    ensures abort { said_in (codes "P abort") ≡ Some (Operator P Abort) }
    ensures undo { said_in (codes "P undo 4294967295") ≡ Some (Operator P (Undo 4294967295)) }
    ensures redo { said_in (codes "P redo 00000000000000000010") ≡ Some (Operator P (Redo 10)) }
    ensures show { said_in (codes "  Q   show  ") ≡ Some (Operator Q Show) }
{}

/// Lines that are no lines of a script, as they were worked by hand.
pub fn lines_are_refused()
    ensures lower_case { said_in (codes "A start 0.1.0.000a") ≡ None }
    ensures lower_case_image { said_in (codes "A start 0.a.0.0001") ≡ None }
    ensures css { said_in (codes "A start 6.1.0.0001") ≡ None }
    ensures image { said_in (codes "A start 0.0.0.0001") ≡ None }
    ensures set { said_in (codes "A start 0.1.4.0001") ≡ None }
    ensures five_digits { said_in (codes "A start 0.1.0.00001") ≡ None }
    ensures three_digits { said_in (codes "A start 0.1.0.001") ≡ None }
    ensures two_digits { said_in (codes "A start 00.1.0.0001") ≡ None }
    ensures no_point { said_in (codes "A start 0.1.0:0001") ≡ None }
    ensures word_too_many { said_in (codes "A start 0.1.0.0001 x") ≡ None }
    ensures word_too_few { said_in (codes "A start") ≡ None }
    ensures image_alone { said_in (codes "A") ≡ None }
    ensures other_actor { said_in (codes "C start 0.1.0.0001") ≡ None }
    ensures other_word { said_in (codes "A begin 0.1.0.0001") ≡ None }
    ensures images_show { said_in (codes "A show") ≡ None }
    ensures operators_start { said_in (codes "P start 0.1.0.0001") ≡ None }
    ensures upper_case_word { said_in (codes "P SHOW") ≡ None }
    ensures bit { said_in (codes "A modify 0.1.0.0001 2 8F 0000ABCD") ≡ None }
    ensures mask { said_in (codes "A modify 0.1.0.0001 1 8 0000ABCD") ≡ None }
    ensures parm { said_in (codes "A modify 0.1.0.0001 1 8F 0000ABC") ≡ None }
    ensures zero { said_in (codes "P activate 0") ≡ None }
    ensures sign { said_in (codes "P undo +1") ≡ None }
    ensures over { said_in (codes "P undo 4294967296") ≡ None }
    ensures sync_x { spoken_by 1 (words_of (codes "sync x")) ≡ None }
    ensures sync { spoken_by 1 (words_of (codes "  sync ")) ≡ Some spoken.Sync }
{}

/// Scripts and what they are made of, or why they are refused, as they were worked by hand.
pub fn scripts_are_read()
    ensures two_rounds { script_in 1 two_rounds ≡ Ok its_rounds }
    ensures nothing { script_in 0 [] ≡ Ok ([] ∷ []) }
    ensures last_sync { script_in 0 (line (codes "sync")) ≡ Ok ([] ∷ [] ∷ []) }
    ensures no_line { script_in 1 (line (codes "P show") ++ line (codes "A go")) ≡ Err (at K1 2) }
    ensures no_deck { script_in 1 (line (codes "P begin 2")) ≡ Err (at K2 1) }
    ensures any_change { is_ok (script_in 0 (line (codes "P undo 2"))) ≡ true }
    ensures fourteen { is_ok (script_in 0 (pairs 7)) ≡ true }
    ensures fifteen { script_in 0 (pairs 7 ++ line (codes "A test 0.1.0.0001") ++ line (codes "P show"))
        ≡ Err (at K3 16) }
    ensures anew { is_ok (script_in 0 (pairs 7 ++ line (codes "sync") ++ pairs 7)) ≡ true }
    ensures k1_first { script_in 0 (line (codes "P activate 1 x")) ≡ Err (at K1 1) }
    ensures k2_first { script_in 0 (pairs 7 ++ line (codes "P begin 1")) ≡ Err (at K2 15) }
    ensures least_line { script_in 0 (pairs 7 ++ line (codes "Q show") ++ line (codes "sync x")) ≡ Err (at K3 15) }
    ensures k2_before { script_in 0 (line (codes "P begin 1") ++ line (codes "sync x")) ≡ Err (at K2 1) }
    ensures l1_before { script_in 0 (line (codes "sync x") ++ line (9 ∷ [])) ≡ Err (at L1 2) }
{}

/// What is written is read again: words with a blank between each two are the words of that line,
/// and what an actor says is read again of its words.
pub fn what_is_written_is_read_again()
    ensures words { FindsWords }
    ensures said { ReadsSaidAgain }
{}

/// The rounds of a script have the lines of all actors in the order of the text, and there is one
/// round more than lines `sync`.
pub fn rounds_keep_all_lines()
    ensures lines { KeepLines }
    ensures rounds { HaveOneRoundMore }
{}
