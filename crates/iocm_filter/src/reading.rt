ghost use Rattle.std.specs.Prelude.{map};
ghost use Rattle.iocm_statements.specs.Unread.{Reads};
ghost use Rattle.iocm_values.specs.Reading.{every};
ghost use Rattle.iocm_filter.specs.Words.{filters_of, words_of};

use crate::Filters;
use crate::words::AskedWord;
use iocm_statements::Unread;
use std::alloc::Global;

/// The words of a command line that ask for subchannels, of each kind in their order.
#[derive(Clone, Copy)]
pub struct FilterWords<'m, 'w> {
    /// Images.
    pub images: &'m [&'w str],
    /// Devices.
    pub devices: &'m [&'w str],
    /// Control units.
    pub units: &'m [&'w str],
    /// Paths.
    pub paths: &'m [&'w str],
    /// How many paths are online at most.
    pub online: &'m [&'w str],
}

/// What words ask for, in their order.
#[tactic(auto, using(iocm_values::proofs::Reading::every_steps))]
fn read_words<T: AskedWord>(alloc: Global, words: &[&str]) -> Result<Vec<T>, Unread>
    ensures { Reads (λ v. v.items) result (every (T.asked) (map (λ w. w.now) words.now)) }
{
    let mut found = Vec::new(alloc);
    for word in words {
        found.push(T::read(word.as_bytes()).ok_or(Unread::Malformed)?)?;
    }
    Ok(found)
}

impl Filters {
    /// What the words of each kind ask for.
    ///
    /// `Malformed`: a word of another form, as `misread` answers; `Memory` (M1): memory ran out.
    pub fn of_words(alloc: Global, words: &FilterWords<'_, '_>) -> Result<Self, Unread>
        ensures { Reads (λ f. f) result (filters_of (words_of words.now)) }
    {
        Ok(Filters {
            images: read_words(alloc, words.images)?,
            devices: read_words(alloc, words.devices)?,
            units: read_words(alloc, words.units)?,
            paths: read_words(alloc, words.paths)?,
            online: read_words(alloc, words.online)?,
        })
    }
}
