ghost use Rattle.std.specs.Prelude.{◌≡◌};

use crate::view::View;
use atomic_table::{Join, Play, Split, TableRule};
use iocm_core::{Core, Entry};

/// The rule of the board's word and views.
pub struct Law;

impl TableRule<Entry, View, Core> for Law {
    ghost use Rattle.iocm_board.specs.Rule.{Holds};
    ghost use Rattle.iocm_board.specs.Views.{first_view};

    ghost holds = { Holds };

    ghost first = { first_view };
}

/// A seat reads how many calls are published.
pub struct Look;

impl Play<Entry, View> for Look {
    ghost use Rattle.iocm_board.specs.Steps.{Alone, Looks};

    ghost then = { λ s v n w. Alone Looks v n w };
}

/// A seat publishes an entry.
pub struct Publish;

impl Play<Entry, View> for Publish {
    ghost use Rattle.iocm_board.specs.Steps.{Alone, Publishes};

    ghost then = { λ s v n w. Alone (Publishes s) v n w };
}

/// A seat compares its receipts with all entries.
pub struct Compare;

impl Play<Entry, View> for Compare {
    ghost use Rattle.iocm_board.specs.Steps.{Alone, Compares};

    ghost then = { λ s v n w. Alone Compares v n w };
}

/// A seat lends a name to a new one.
pub struct Lend;

impl Split<View> for Lend {
    ghost use Rattle.iocm_board.specs.Views.{lends, borrows};

    ghost left = { lends };

    ghost right = { borrows };
}

/// Two seats become one.
pub struct BothViews;

impl Join<View> for BothViews {
    ghost use Rattle.iocm_board.specs.Views.{both};
    ghost use Rattle.iocm_board.specs.Spent.{spent};

    ghost both = { both };

    ghost spent = { spent };
}

/// A seat that keeps the list gives it to a seat of its own.
pub struct SetBack;

impl Split<View> for SetBack {
    ghost use Rattle.iocm_board.specs.Views.{caller_of, keeper_of};

    ghost left = { caller_of };

    ghost right = { keeper_of };
}

/// A caller's seat takes up the list of the keeper's.
pub struct TakeUp;

impl Join<View> for TakeUp {
    ghost use Rattle.iocm_board.specs.Views.{takes};
    ghost use Rattle.iocm_board.specs.Spent.{spent};

    ghost both = { takes };

    ghost spent = { spent };
}
