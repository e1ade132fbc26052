use iocm_numbers::NumberChange;
use iocm_seats::ViewChange;
use iocm_tree::Edit;

/// What an edit did to numbers and subchannels. The word is own.
#[derive(Drop)]
pub struct Touched {
    /// The number cells that changed, in their order, each with the device that had the number and
    /// the one that has it now.
    pub numbers: Vec<NumberChange>,
    /// The subchannels that were altered, in their order, each with what was seen there and what is
    /// seen now.
    pub subchannels: Vec<ViewChange>,
}

/// That an edit was performed. The word is own.
#[derive(Drop)]
pub struct Applied {
    /// The edit that takes it back, without memory.
    pub inverse: Edit,
    /// What it did.
    pub touched: Touched,
}
