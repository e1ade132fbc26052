//! What holds of the definitions themselves. Each law is the contract of a function that does
//! nothing.
ghost use Rattle.iocm_numbers.specs.Exchange.{AgreeBothWays, ChangesAgree, ExchangeLeads, RowsFitIn, RowsHaveRoom};

/// Two numberings that agree wherever both have a number lead to each other: what the one has alone
/// is exchanged for what the other has alone, and that fits in and has room. The numbers before and
/// after a change of the configuration agree.
pub fn exchanges_lead_from_one_to_the_other()
    ensures leads { ExchangeLeads }
    ensures fit { RowsFitIn }
    ensures room { RowsHaveRoom }
    ensures changes { ChangesAgree }
    ensures both_ways { AgreeBothWays }
{}
