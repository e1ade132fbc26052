//! What holds of the definitions themselves. Each law is the contract of a function that does
//! nothing.
ghost use Rattle.std.specs.Prelude.{◌≡◌, All, List, [], ◌∷◌};
ghost use Rattle.iocm_types.specs.declared.rule.Rule.TheVariants.{L1, L3, L4};
ghost use Rattle.iocm_types.specs.Fault.{at};
ghost use Rattle.iocm_columns.specs.declared.card.Card.{Card};
ghost use Rattle.iocm_columns.specs.declared.joined.Joined.{Joined};
ghost use Rattle.iocm_columns.specs.Examples.{deck_with_tab, deck_without_end, deck_without_margin};
ghost use Rattle.iocm_columns.specs.Examples.{device_deck, device_statement};
ghost use Rattle.iocm_columns.specs.StatementCards.{statement_cards};
ghost use Rattle.iocm_columns.specs.Slices.{AreStatementsOf};
ghost use Rattle.iocm_columns.specs.Statements.{joined_of, statements_of};
ghost use Rattle.iocm_columns.specs.Written.{IsReadAgain, IsWritable};

/// The statements of a deck stand one after the other in all of its cards, name and operation in
/// the first card of each, and the text is the concatenation of one slice of the columns of each
/// card; no other statements have this relation to the cards.
pub fn statements_are_slices()
    ensures found { (cards : List Card) (joined : List Joined)
        → statements_of cards ≡ Ok joined → AreStatementsOf (statement_cards cards) joined }
    ensures only { (cards : List Card) (joined : List Joined)
        → AreStatementsOf (statement_cards cards) joined → statements_of cards ≡ Ok joined }
{}

/// Worked examples of decks and what they give.
pub fn decks_are_joined()
    ensures device { joined_of device_deck ≡ Ok (device_statement ∷ []) }
    ensures margin { joined_of deck_without_margin ≡ Err (at L3 3) }
    ensures end { joined_of deck_without_end ≡ Err (at L4 2) }
    ensures tab { joined_of deck_with_tab ≡ Err (at L1 2) }
{}

/// What is written is read again: the bytes of a deck of statements that can be written give these
/// statements, each with the line that it was read from. The statement of the worked example can be
/// written.
pub fn written_statements_are_read_again()
    ensures again { (deck : List Joined) → All IsWritable deck → IsReadAgain deck }
    ensures example { IsWritable device_statement }
{}
