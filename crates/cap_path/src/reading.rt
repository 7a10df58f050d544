//! A step of a path, read from the path's text.

ghost use Rattle.cap_path.specs.PathReading.{IsBadNumber, IsNumberAt, IsStepAt, number_with};
ghost use Rattle.cap_spec.specs.PathTexts.{IsBadAt, IsStep, step_text};
ghost use Rattle.cap_spec.specs.declared.Step.{Step};
ghost use Rattle.std.specs.List.{AllByRecursion, flat_map};
ghost use Rattle.std.specs.Prelude.{◌<◌, ◌≤◌, ◌^◌, ◌≡◌, IfErr, IfOk, List, length, slice_index, take};

use cap_spec::Step;

/// A number with one more digit. `None` if the byte is no digit, or if the number would have a
/// leading zero or be more than `most`.
#[inline(always)]
fn longer_number(n: u64, byte: u8, most: u64) -> Option<u64>
    requires most { most < 2 ^ 32 }
    requires few { n ≤ most }
    ensures { result ≡ number_with n byte most }
{
    if !byte.is_ascii_digit() {
        return None;
    }
    if n == 0 {
        return None;
    }
    let longer = 10 * n + u64::from(byte - b'0');
    if longer > most { None } else { Some(longer) }
}

/// The number of at most `most` that begins at byte `from` of a text, and where its digits end: at
/// the end of the text, or before a slash. The error is the first byte at which no such number goes
/// on.
#[inline(always)]
fn number_at(text: &[u8], from: usize, most: u64) -> Result<(u64, usize), usize>
    requires inside { from ≤ length text.now }
    requires most { most < 2 ^ 32 }
    requires digits { 9 ≤ most }
    ensures ok { IfOk result (λ x. IsNumberAt text.now from most x.0 x.1) }
    ensures bad { IfErr result (IsBadNumber text.now from most) }
{
    if from == text.len() || !text[from].is_ascii_digit() {
        return Err(from);
    }
    let mut number = u64::from(text[from] - b'0');
    for end in from + 1..text.len() {
        match longer_number(number, text[end], most) {
            Some(longer) => number = longer,
            None if text[end] == b'/' => return Ok((number, end)),
            None => return Err(end),
        }
    }
    Ok((number, text.len()))
}

/// The step whose text begins at the slash of this place, and where its text ends: at the end of
/// the whole text, or before a slash. The error is the first byte at which no path goes on, if the
/// whole text is longer than a slash and has the texts of steps before the place.
#[inline(always)]
pub(crate) fn step_at(text: &[u8], slash: usize) -> Result<(Step, usize), usize>
    requires inside { slash < length text.now }
    requires slash { slice_index text.now slash ≡ 47 }
    ensures ok { IfOk result (λ x. IsStepAt text.now slash x.0 x.1) }
    ensures bad { (before : List Step) → AllByRecursion IsStep before →
        take slash text.now ≡ flat_map step_text before → 1 < length text.now →
        IfErr result (IsBadAt text.now) }
{
    let letter = slash + 1;
    if letter == text.len() {
        return Err(letter);
    }
    match text[letter] {
        b'p' => {
            let (number, end) = number_at(text, letter + 1, 65535)?;
            Ok((Step::Ptr(number as u16), end))
        }
        b'i' => {
            let (number, end) = number_at(text, letter + 1, 4294967295)?;
            Ok((Step::Item(number as u32), end))
        }
        _ => Err(letter),
    }
}
