use std::marker::Brand;

/// Which board a tag names: its table, and the core with which it was made. A type parameter of
/// this bound is how contracts tell that a seat and a board with the same tag belong together,
/// since no test at run time can compare two tables.
pub trait Identity {
    ghost use Rattle.std.specs.Prelude.{ℕ};
    ghost use Rattle.atomic_table.specs.Seated.{TableId};
    ghost use Rattle.iocm_core.specs.Seen as seen;

    ghost table: { ℕ → TableId };

    ghost origin: { ℕ → seen.Core };
}

/// Whoever names a board by `Brand` picks in its proof what the tags name.
impl Identity for Brand {
    ghost use Rattle.iocm_board.specs.Spent.{no_core, no_table};

    ghost table = { λ tag. no_table };

    ghost origin = { λ tag. no_core };
}
