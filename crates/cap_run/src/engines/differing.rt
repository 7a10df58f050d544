//! The text of an accepted message on whether it is canonical, and why not.

ghost use Rattle.cap_difference.specs.Differences.{FirstDifference};
ghost use Rattle.cap_run.specs.Differing.{IsDifference, counted_by, difference_lines, difference_path, explained_lines, number_by};
ghost use Rattle.cap_spec.specs.Accepting.{IsWithin};
ghost use Rattle.cap_spec.specs.GreatestLimits.{most_depth};
ghost use Rattle.cap_text.specs.Writing.{Writes, Wrote};
ghost use Rattle.cap_walk.specs.Limits.{depth_of};
ghost use Rattle.std.specs.Prelude.{◌++◌, ◌≡◌, List, ℕ};

use crate::engines::passing::write_more;
use crate::engines::stream::Counted;
use cap_difference::{Difference, DifferenceReason};
use cap_explain::{Explanation, MessageStart, explain_difference};
use cap_frame::Segments;
use cap_text::{Page, write_difference};
use cap_trace::NamedPath;
use cap_vet::Limits;
use cap_words::{ByteOut, OutFault};

/// The greatest limits.
pub(crate) fn greatest_limits() -> Limits
    ensures { depth_of result ≡ most_depth }
{
    Limits::greatest()
}

/// What is counted of an accepted message by its first difference.
pub(crate) fn counted_by(difference: &Option<Difference>) -> Counted
    ensures { result ≡ counted_by difference.now }
{
    match difference {
        Some(_) => Counted::NotCanonical,
        None => Counted::Accepted,
    }
}

/// The number of the pointer that differs, and 0 if none does.
fn number_of(difference: &Difference) -> u64
    ensures { result ≡ number_by difference.now.reason difference.now.pointers }
{
    match difference.reason {
        DifferenceReason::Trailing => 0,
        _ => difference.pointers,
    }
}

/// Finds the path to the pointer that differs, if one does.
pub(crate) fn find_difference<M: Segments>(
    path: &mut NamedPath,
    message: &M,
    difference: &Difference,
)
    ensures { let m = M.segments message.now in (words : ℕ) → IsWithin m words most_depth →
        (h : FirstDifference m difference.now) → path.new ≡ difference_path m difference.now h }
{
    path.find(message, greatest_limits(), number_of(difference));
}

/// Writes the lines that explain the first difference of a message that begins at `start`, after a
/// text that isn't empty. Writes nothing if there is none.
fn write_explained<M: Segments, O: ByteOut>(
    out: &mut O,
    message: &M,
    difference: &Option<Difference>,
    start: MessageStart,
) -> Result<(), OutFault>
    ensures { let m = M.segments message.now in (words : ℕ) → IsWithin m words most_depth →
        (h : IsDifference m difference.now) (before : O) (text : List ℕ) →
        Wrote O.ByteOut before out.old text →
        Writes O.ByteOut before out.new result (text ++ explained_lines m start difference.now h) }
{
    match difference {
        Some(difference) => {
            let mut path = NamedPath::new();
            find_difference(&mut path, message, difference);
            let mut lines = Explanation::new();
            explain_difference(&mut lines, message, Some(start), difference, path.steps());
            write_more(out, lines.text())
        }
        None => Ok(()),
    }
}

/// Writes the line of message `number` by its first difference, and the lines that explain that,
/// after a text that isn't empty.
pub(crate) fn write_difference_lines<M: Segments, O: ByteOut>(
    page: &mut Page,
    out: &mut O,
    number: u32,
    message: &M,
    difference: &Option<Difference>,
    start: MessageStart,
) -> Result<(), OutFault>
    ensures { let m = M.segments message.now in (words : ℕ) → IsWithin m words most_depth →
        (h : IsDifference m difference.now) (before : O) (text : List ℕ) →
        Wrote O.ByteOut before out.old text →
        Writes O.ByteOut before out.new result
        (text ++ difference_lines m number start difference.now h) }
{
    match write_difference(page, out, number, difference) {
        Ok(()) => write_explained(out, message, difference, start),
        Err(fault) => Err(fault),
    }
}
