ghost use Rattle.iocm_examples.specs.Paths.{APathComesOnline, APathListIsTurned, LiveRecordsComeAlong};

/// What an edit leaves of a subchannel that is enabled, where its available paths or its path list
/// change, computed.
pub fn paths_change_as_worked()
    ensures online { APathComesOnline }
    ensures turned { APathListIsTurned }
    ensures comes_along { LiveRecordsComeAlong }
{}
