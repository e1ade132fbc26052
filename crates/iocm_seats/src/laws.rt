ghost use Rattle.iocm_seats.specs.Settling.{SettledSeatsShow, SettledSeatsLive};
ghost use Rattle.iocm_seats.specs.Exchange.{ExchangedSeatsShow, ExchangedSeatsLive};

/// Seats that are settled by all changes show what is seen afterwards, and have the live records
/// after the edit.
pub fn settled_seats_show()
    ensures views { SettledSeatsShow }
    ensures lives { SettledSeatsLive }
{}

/// Seats of which those that are altered are exchanged show what is seen afterwards, and have the
/// live records after the edit.
pub fn exchanged_seats_show()
    ensures views { ExchangedSeatsShow }
    ensures lives { ExchangedSeatsLive }
{}
