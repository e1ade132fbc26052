ghost use Rattle.std.specs.Prelude.{◌≡◌, ◌≢◌, true};
ghost use Rattle.iocm_board.specs.Views.{first_view};

use iocm_board::{Blank, Identity};
use iocm_core::Core;
use iocm_system::{Caller, System};
use std::alloc::Global;
use std::marker::Brand;

/// Opens two systems, each with its own first caller. Each caller has the tag of its system and not
/// that of the other. A call from a caller at the other system isn't built: `io` requires that the
/// caller's tag is the system's.
pub fn opened_apart<B: Identity>(
    alloc: Global,
    core: Core,
    blank: Blank,
    other_core: Core,
    other_blank: Blank,
) -> ((System<B>, Caller<B>), (System<B>, Caller<B>))
    requires table { blank.table.shared.table_id ≡ B.table 1 }
    requires origin { blank.keeper.me.0.origin ≡ B.origin 1 }
    requires blank { blank.keeper.me.0 ≡ first_view core }
    requires other_table { other_blank.table.shared.table_id ≡ B.table 2 }
    requires other_origin { other_blank.keeper.me.0.origin ≡ B.origin 2 }
    requires other_blank { other_blank.keeper.me.0 ≡ first_view other_core }
    ensures own { (result.0.0.board.tag ≡ 1) × (result.0.1.tag ≡ 1) }
    ensures other_own { (result.1.0.board.tag ≡ 2) × (result.1.1.tag ≡ 2) }
    ensures apart { result.0.1.tag ≢ result.1.0.board.tag }
    ensures cores { (result.0.1.origin ≡ core) × (result.1.1.origin ≡ other_core) }
{
    let (board, keeper) = blank.named::<B>(1);
    let opened = System::open(alloc, core, board, keeper);
    let (board, keeper) = other_blank.named::<B>(2);
    (opened, System::open(alloc, other_core, board, keeper))
}

/// Whether each of two systems has its own caller and not that of the other.
fn are_apart<B: Identity>(
    alloc: Global,
    core: Core,
    blank: Blank,
    other_core: Core,
    other_blank: Blank,
) -> bool
    requires table { blank.table.shared.table_id ≡ B.table 1 }
    requires origin { blank.keeper.me.0.origin ≡ B.origin 1 }
    requires blank { blank.keeper.me.0 ≡ first_view core }
    requires other_table { other_blank.table.shared.table_id ≡ B.table 2 }
    requires other_origin { other_blank.keeper.me.0.origin ≡ B.origin 2 }
    requires other_blank { other_blank.keeper.me.0 ≡ first_view other_core }
    ensures { result ≡ true }
{
    let ((system, me), (other_system, other)) = opened_apart::<B>(
        alloc,
        core,
        blank,
        other_core,
        other_blank,
    );
    system.is_mine(&me)
        && other_system.is_mine(&other)
        && !system.is_mine(&other)
        && !other_system.is_mine(&me)
}

/// A caller is of one system: of two systems that are opened, each has its own caller and not that
/// of the other. It shows that the premises of `opened_apart` can be met.
pub fn a_caller_is_of_one_system(
    alloc: Global,
    core: Core,
    blank: Blank,
    other_core: Core,
    other_blank: Blank,
) -> bool
    requires blank { blank.keeper.me.0 ≡ first_view core }
    requires other_blank { other_blank.keeper.me.0 ≡ first_view other_core }
    ensures { result ≡ true }
{
    are_apart::<Brand>(alloc, core, blank, other_core, other_blank)
}
