ghost use Rattle.std.specs.Prelude.{◌≡◌, ◌<◌, ◌≤◌, ◌++◌, not, length, drop, IfSome};
ghost use Rattle.std.specs.List.{list_all, position, position_or_len};
ghost use Rattle.iocm_columns.specs.Columns.{is_blank, word_of, after_word, after_blanks};

/// Whether all of some columns are blank.
pub(crate) fn are_blank(columns: &[u8]) -> bool
    ensures { result ≡ list_all is_blank columns.now }
{
    columns.iter().all(|byte| *byte == b' ')
}

/// The word that some columns begin with, up to the first blank, and the columns behind it.
pub(crate) fn split_word(columns: &[u8]) -> (&[u8], &[u8])
    ensures word { result.0.now ≡ word_of columns.now }
    ensures rest { result.1.now ≡ after_word columns.now }
{
    columns.split_at(word_len(columns))
}

/// The columns from the first nonblank on.
pub(crate) fn skip_blanks(columns: &[u8]) -> &[u8]
    ensures { result.now ≡ after_blanks columns.now }
{
    let (_, rest) = columns.split_at(blanks_len(columns));
    rest
}

#[tactic(auto, using(crate::proofs::Finding::places))]
fn word_len(columns: &[u8]) -> usize
    ensures len { result ≡ position_or_len is_blank columns.now }
    ensures within { result ≤ length columns.now }
{
    match blank_at(columns) {
        Some(place) => place,
        None => columns.len(),
    }
}

#[tactic(auto, using(crate::proofs::Finding::places))]
fn blanks_len(columns: &[u8]) -> usize
    ensures len { result ≡ position_or_len (λ b. not (is_blank b)) columns.now }
    ensures within { result ≤ length columns.now }
{
    match nonblank_at(columns) {
        Some(place) => place,
        None => columns.len(),
    }
}

fn blank_at(columns: &[u8]) -> Option<usize>
    ensures place { result ≡ position is_blank columns.now }
    ensures within { IfSome result (λ i. i < length columns.now) }
{
    columns.iter().position(|byte| *byte == b' ')
}

fn nonblank_at(columns: &[u8]) -> Option<usize>
    ensures place { result ≡ position (λ b. not (is_blank b)) columns.now }
    ensures within { IfSome result (λ i. i < length columns.now) }
{
    columns.iter().position(|byte| *byte != b' ')
}

/// Puts bytes at the front of some columns.
pub(crate) fn put_front(columns: &mut [u8], bytes: &[u8])
    requires { length bytes.now ≤ length columns.old }
    ensures { columns.new ≡ bytes.now ++ drop (length bytes.now) columns.old }
{
    columns[..bytes.len()].copy_from_slice(bytes);
}
