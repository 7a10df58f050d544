//! Sizes with units, as options take them.

ghost use Rattle.cap_cmd.specs.Sizes.{after_digits, capped_number, digits_of, number_after, size_words, unit_words};
ghost use Rattle.std.specs.Prelude.{◌≡◌, ◌≤◌, drop, length, option_map, take};

// How many decimal digits a text begins with.
fn digit_count(text: &[u8]) -> usize
    ensures within { result ≤ length text.now }
    ensures digits { take result text.now ≡ digits_of text.now }
    ensures rest { drop result text.now ≡ after_digits text.now }
{
    let mut count = 0;
    while count < text.len() {
        if !text[count].is_ascii_digit() {
            return count;
        }
        count += 1;
    }
    count
}

// The number of decimal digits, or 2^64 - 1 if it is more.
fn number(digits: &[u8]) -> u64
    ensures { result ≡ capped_number (number_after 0 digits.now) }
{
    let (mut number, mut count): (u64, usize) = (0, 0);
    while count < digits.len() {
        let digit = u64::from(digits[count].saturating_sub(b'0'));
        number = number.saturating_mul(10).saturating_add(digit);
        count += 1;
    }
    number
}

// The words of a unit.
fn unit_words(unit: &[u8]) -> Option<u64>
    ensures { result ≡ unit_words unit.now }
{
    if unit == b"kB".as_slice() {
        Some(125)
    } else if unit == b"MB".as_slice() {
        Some(125_000)
    } else if unit == b"GB".as_slice() {
        Some(125_000_000)
    } else if unit == b"KiB".as_slice() {
        Some(128)
    } else if unit == b"MiB".as_slice() {
        Some(131_072)
    } else if unit == b"GiB".as_slice() {
        Some(134_217_728)
    } else {
        None
    }
}

/// The words of 8 bytes of a size with a unit, such as `64MiB`, or 2^64 - 1 if it has more. `None` if
/// the text is no such size. A size is a decimal number before one of the units `kB`, `MB`, `GB`,
/// `KiB`, `MiB` and `GiB`.
pub(crate) fn size_words(text: &str) -> Option<u64>
    ensures { result ≡ option_map capped_number (size_words text.now) }
{
    let bytes = text.as_bytes();
    let count = digit_count(bytes);
    if count == 0 {
        return None;
    }
    match unit_words(&bytes[count..]) {
        Some(each) => Some(number(&bytes[..count]).saturating_mul(each)),
        None => None,
    }
}
