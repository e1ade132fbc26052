ghost use Rattle.iocm_model.specs.Laws.Edits.{
  AltersWhatDiffers,
  KeepsTheOthers,
  AlteredHaveTheirLives,
  NamesTheLeast,
  NamesNoneWhereQuiet,
  RefusalNamesTheLeast,
};

/// An edit alters exactly the subchannels at which what is seen differs. These have the live
/// records that the edit leaves them, and all others keep theirs where each subchannel that is seen
/// has a live record.
pub fn an_edit_alters_what_differs()
    ensures altered { AltersWhatDiffers }
    ensures others { KeepsTheOthers }
    ensures lives { AlteredHaveTheirLives }
{}

/// The subchannel that B1 names is the least of the altered ones that isn't quiet, and none is
/// named exactly where all of them are quiet. An edit is refused by B1 only where it isn't by E1,
/// E2 or E4.
pub fn the_least_subchannel_is_named()
    ensures least { NamesTheLeast }
    ensures none { NamesNoneWhereQuiet }
    ensures refusal { RefusalNamesTheLeast }
{}
