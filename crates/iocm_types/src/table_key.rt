use crate::{Key, Naming, NumberCell, Place, SubId};

/// What rows of a table are kept under and looked up by. `Ord` alone says that keys which tie can
/// stand for one another; tables of finite maps want more: the order has a name that contracts
/// write, and keys that tie are equal.
pub trait TableKey: Ord {
    ghost use Rattle.std.specs.Prelude.{◌≡◌};
    ghost use Rattle.std.specs.declared.cmp.Ordering.{Ordering};
    ghost use Rattle.std.specs.FinMap.{IsAntisymmetric};

    ghost order: { Self → Self → Ordering };

    ghost is_cmp: { ◌≡◌ {A = Self → Self → Ordering} Self.cmp order };

    ghost exact: { IsAntisymmetric Self.cmp };
}

impl TableKey for Key {
    ghost use Rattle.iocm_types.specs.Key.{key_cmp};
    ghost use Rattle.iocm_types.specs.KeyOrder.{derived_cmp, derived_keys_exact};

    ghost order = { key_cmp };

    ghost is_cmp = { derived_cmp };

    ghost exact = { derived_keys_exact };
}

impl TableKey for Place {
    ghost use Rattle.iocm_types.specs.Place.{place_cmp};
    ghost use Rattle.iocm_types.specs.KeyOrder.{derived_place_cmp, derived_places_exact};

    ghost order = { place_cmp };

    ghost is_cmp = { derived_place_cmp };

    ghost exact = { derived_places_exact };
}

impl TableKey for NumberCell {
    ghost use Rattle.iocm_types.specs.Place.{cell_cmp};
    ghost use Rattle.iocm_types.specs.KeyOrder.{derived_cell_cmp, derived_cells_exact};

    ghost order = { cell_cmp };

    ghost is_cmp = { derived_cell_cmp };

    ghost exact = { derived_cells_exact };
}

impl TableKey for SubId {
    ghost use Rattle.iocm_types.specs.SubId.{sub_id_cmp};
    ghost use Rattle.iocm_types.specs.KeyOrder.{derived_sub_id_cmp, derived_sub_ids_exact};

    ghost order = { sub_id_cmp };

    ghost is_cmp = { derived_sub_id_cmp };

    ghost exact = { derived_sub_ids_exact };
}

impl TableKey for Naming {
    ghost use Rattle.iocm_types.specs.Naming.{naming_cmp};
    ghost use Rattle.iocm_types.specs.KeyOrder.{derived_naming_cmp, derived_namings_exact};

    ghost order = { naming_cmp };

    ghost is_cmp = { derived_naming_cmp };

    ghost exact = { derived_namings_exact };
}
