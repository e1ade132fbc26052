//! What holds of the definitions themselves. Each law is the contract of a function that does
//! nothing.
ghost use Rattle.iocm_words.specs.Again.{TablesAreReadAgain, LinesHaveTheWordsOfTheHeading};
ghost use Rattle.iocm_words.specs.CellWords.{CellsAreWords};
ghost use Rattle.iocm_words.specs.Examples.{TablesAreLaidOut, WordsAreWritten, PathsAreWritten, ImagesAreWritten};

/// Where each cell of a table is a word, and each row has one for each column, the words of the
/// lines are the headings and the cells. So each line has as many words as the heading.
///
/// Promise: each line of a table has as many words as its heading.
#[tactic(auto, using(crate::proofs::Reading::tables_again, crate::proofs::Reading::words_of_the_heading))]
pub fn tables_are_read_again()
    ensures again { TablesAreReadAgain }
    ensures as_many { LinesHaveTheWordsOfTheHeading }
{}

/// Each cell that is given here is a word, whatever it tells.
#[tactic(auto, using(crate::proofs::CellWords::cells_are_words))]
pub fn cells_are_words()
    ensures { CellsAreWords }
{}

/// Tables are laid out as it is worked by hand.
pub fn tables_are_laid_out()
    ensures { TablesAreLaidOut }
{}

/// Words are written as it is worked by hand.
pub fn words_are_written()
    ensures words { WordsAreWritten }
    ensures paths { PathsAreWritten }
    ensures images { ImagesAreWritten }
{}
