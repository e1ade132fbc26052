//! What holds of the definitions themselves. Each law is the contract of a function that does
//! nothing.
ghost use Rattle.iocm_reports.specs.Laws.{
  CountsSumUp,
  DeckSaysAll,
  OnlyADeckSaysAll,
  RowsAreCounted,
  RowsAreOfOneKind,
  RowsLeadBack,
  RowsLeadToTheTable,
  RowsStandInOrder,
};
ghost use Rattle.iocm_reports.specs.Examples.{
  CountsAsJson,
  CountsOfTwoImages,
  LinesOfJson,
  LinesOfRows,
  RemarkOfALive,
  RemarksOnPairs,
};

/// There is a row for each subchannel of the effect, in order. The table before, without the rows
/// behind `-` and with those behind `+`, is the table after. The other way round it is the one
/// before.
///
/// Promise: the rows of `--altered` lead from the table before to the one after, and back.
pub fn rows_lead_to_the_table()
    ensures counted { RowsAreCounted }
    ensures order { RowsStandInOrder }
    ensures table { RowsLeadToTheTable }
    ensures back { RowsLeadBack }
{}

/// A row is of one kind alone, so the counts of all images together are the number of rows.
///
/// Promise: the counts of `--count` are together the number of altered subchannels.
pub fn counts_sum_up()
    ensures kinds { RowsAreOfOneKind }
    ensures all { CountsSumUp }
{}

/// There is no comment exactly where the pairs of the access lists are those that are online.
///
/// Promise: `--deck` has no comment if just the paths of the access lists are online.
pub fn only_a_deck_says_all()
    ensures all { DeckSaysAll }
    ensures only { OnlyADeckSaysAll }
{}

/// Each form of a line is as it is stated by hand.
pub fn lines_are_as_worked()
    ensures rows { LinesOfRows }
    ensures rows_as_json { LinesOfJson }
    ensures counts { CountsOfTwoImages }
    ensures counts_as_json { CountsAsJson }
    ensures remarks { RemarksOnPairs }
{}

/// The remark of a subchannel that is enabled, with a parameter and a status pending, is as it is
/// stated by hand.
pub fn remark_of_a_subchannel_is_as_worked()
    ensures { RemarkOfALive }
{}
