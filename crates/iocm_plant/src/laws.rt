ghost use Rattle.iocm_plant.specs.Between.{
  SamePlacesAreKept,
  PlacesAreKeptOn,
  StandsAsItDoes,
  StandsOn,
  StepsLeaveItStanding,
  CanStillUnapply,
  TakenBackItStandsAsBefore,
};

/// What may happen between an edit and its way back. Places are kept where they are the same, and
/// over two steps that keep them. A machine stands as before where it has the configuration and the
/// numbers from then, and no place was lost: orders and events leave it so, and so does an edit
/// that is performed and taken back. An edit that could be taken back then can be taken back still.
pub fn what_happens_between()
    ensures same_places { SamePlacesAreKept }
    ensures places { PlacesAreKeptOn }
    ensures itself { StandsAsItDoes }
    ensures on { StandsOn }
    ensures steps { StepsLeaveItStanding }
    ensures edits { TakenBackItStandsAsBefore }
    ensures still { CanStillUnapply }
{}
