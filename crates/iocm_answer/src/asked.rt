use iocm_command::Report;
use iocm_filter::Filters;
use std::marker::Model;

/// A report, and of which subchannels. Contracts see what is asked for.
#[derive(Drop)]
pub struct Asked<'f> {
    /// What is printed.
    pub report: Report,
    /// The subchannels of which it is printed, in a table, in its rows and in its counts.
    pub filters: &'f Filters,
}

impl<'f> Model for Asked<'f> {
    ghost use Rattle.iocm_answer.specs.Asked.{Question};

    ghost Value = { Question };

    ghost view = { λ a. record { report = a.report; wanted = a.filters.now } };
}
