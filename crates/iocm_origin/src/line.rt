ghost use Rattle.std.specs.Prelude.{◌≡◌, ◌==◌, option_map};
ghost use Rattle.std.specs.List.{slice_get, slice_split};
ghost use Rattle.iocm_origin.specs.Origin as meaning;

/// The line of this number of a text, counted from 1, without its line end. There is none of number
/// 0, or past the last line. A line ends at LF, at CR LF, or at the end of the text.
#[tactic(auto, using(crate::proofs::TextLines::of_number))]
pub fn line_of(text: &[u8], line: usize) -> Option<&[u8]>
    ensures { option_map (λ l. l.now) result ≡ meaning.line_of text.now line }
{
    if line == 0 {
        return None;
    }
    line_at(part_of(text, line - 1), part_of(text, line))
}

/// A line by what stands there between line feeds, and what stands behind it.
fn line_at<'a>(part: Option<&'a [u8]>, next: Option<&'a [u8]>) -> Option<&'a [u8]>
    ensures { option_map (λ l. l.now) result
        ≡ meaning.line_at (option_map (λ l. l.now) part.entry) (option_map (λ l. l.now) next.entry) }
{
    match (part?, next) {
        (part, Some(_)) => Some(part.strip_suffix(b"\r").unwrap_or(part)),
        (part, None) if part.is_empty() => None,
        (part, None) => Some(part),
    }
}

/// What stands between line feeds, at a place counted from 0.
fn part_of(text: &[u8], place: usize) -> Option<&[u8]>
    ensures { option_map (λ l. l.now) result ≡ slice_get (slice_split (λ b. b == 10) text.now) place }
{
    text.split(|b| *b == b'\n').nth(place)
}
