ghost use Rattle.std.specs.Prelude.{◌≡◌, map, IfOk};
ghost use Rattle.iocm_script.specs.Words as meaning;

use std::alloc::{AllocError, Global};

/// The words of a line, between its blanks.
pub(crate) fn words<'a>(alloc: Global, line: &'a [u8]) -> Result<Vec<&'a [u8]>, AllocError>
    ensures { IfOk result (λ v. map (λ w. w.now) v.items ≡ meaning.words_of line.now) }
{
    line.split(|byte| *byte == b' ')
        .filter(|word| !word.is_empty())
        .collect(alloc)
}

/// Whether a line has an asterisk in column 1.
pub(crate) fn is_comment(line: &[u8]) -> bool
    ensures { result ≡ meaning.is_comment line.now }
{
    match line {
        [first, ..] => *first == b'*',
        [] => false,
    }
}
