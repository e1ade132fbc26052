/// What is printed of a change that was made. The word is own.
#[derive(Clone, Copy, PartialEq, Eq)]
pub enum Report {
    /// How many subchannels it altered, and the table afterwards.
    Table,
    /// The change deck that takes it back.
    WayBack,
    /// How many subchannels it altered, and each of them before and afterwards.
    Altered,
    /// How many subchannels it altered, and how many of each image.
    Count,
    /// The deck of the configuration afterwards.
    Deck,
    /// How many subchannels it altered, and nothing else.
    Test,
}

/// How much of a plan is told.
#[derive(Clone, Copy, PartialEq, Eq)]
pub struct PlanScope {
    /// Whether objects and rows are left out.
    pub is_brief: bool,
    /// Whether only what is lost is told.
    pub is_lost: bool,
}
