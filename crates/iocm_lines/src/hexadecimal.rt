ghost use Rattle.std.specs.Prelude.{◌≡◌, ◌/◌, ◌%◌, ◌<◌, [], ◌∷◌, slice_index, true};
ghost use Rattle.std.specs.Fmt.{digit_glyph};

/// The two hexadecimal digits of each byte as they are printed, 00 to FF.
const PAIRS: [u8; 512] = *b"000102030405060708090A0B0C0D0E0F\
    101112131415161718191A1B1C1D1E1F\
    202122232425262728292A2B2C2D2E2F\
    303132333435363738393A3B3C3D3E3F\
    404142434445464748494A4B4C4D4E4F\
    505152535455565758595A5B5C5D5E5F\
    606162636465666768696A6B6C6D6E6F\
    707172737475767778797A7B7C7D7E7F\
    808182838485868788898A8B8C8D8E8F\
    909192939495969798999A9B9C9D9E9F\
    A0A1A2A3A4A5A6A7A8A9AAABACADAEAF\
    B0B1B2B3B4B5B6B7B8B9BABBBCBDBEBF\
    C0C1C2C3C4C5C6C7C8C9CACBCCCDCECF\
    D0D1D2D3D4D5D6D7D8D9DADBDCDDDEDF\
    E0E1E2E3E4E5E6E7E8E9EAEBECEDEEEF\
    F0F1F2F3F4F5F6F7F8F9FAFBFCFDFEFF";

/// A hexadecimal digit as it is printed, in upper case.
#[inline]
pub fn digit(value: u8) -> u8
    requires { value < 16 }
    ensures { result ≡ digit_glyph true value }
{
    let [_, low] = digits(value);
    low
}

/// The two hexadecimal digits of a byte as they are printed, in upper case.
#[inline]
pub fn digits(value: u8) -> [u8; 2]
    ensures { result ≡ digit_glyph true (value / 16) ∷ digit_glyph true (value % 16) ∷ [] }
{
    let at = 2 * usize::from(value);
    [pair_digit(at), pair_digit(at + 1)]
}

#[inline]
fn pair_digit(at: usize) -> u8
    requires { at < 512 }
    ensures { result ≡ slice_index PAIRS at }
{
    PAIRS[at]
}
