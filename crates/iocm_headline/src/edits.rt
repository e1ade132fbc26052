ghost use Rattle.iocm_headline.specs.WayBack.{PerformedEditsGoBackWhole, UnappliedEditsGoBackWhole};

/// Where an edit is performed and directly after taken back, by what performing it gave, the whole
/// machine is as it was: records, numbers, what is seen with its masks, and live records. Places
/// that were made stay, and none is lost.
///
/// Promise: an edit that is taken back at once leaves the machine as it was, but for room it made.
pub fn performed_edits_go_back_whole()
    ensures { PerformedEditsGoBackWhole }
{}

/// Where an edit is unapplied and directly after that is unapplied too, by what the first gave, the
/// whole machine is as it was, with the same places. So an edit that was taken back is done again.
pub fn unapplied_edits_go_back_whole()
    ensures { UnappliedEditsGoBackWhole }
{}
