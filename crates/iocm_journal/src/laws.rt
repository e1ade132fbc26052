ghost use Rattle.iocm_journal.specs.JournalLaws.{OneThatKeepsTheSameIsOne, OtherEntriesLeaveIt};

/// What holds of each journal of a history. With an entry that is right, and tells that no change
/// was accepted, undone or redone, it is as it is one of the longer history. A journal that keeps
/// the same is one of the same history.
pub fn journals_keep_to_histories()
    ensures others { OtherEntriesLeaveIt }
    ensures same { OneThatKeepsTheSameIsOne }
{}
