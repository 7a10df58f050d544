//! The line of the first pointer that uses a word which the pointer of an overlap uses too.

ghost use Rattle.cap_explain.specs.Explaining.{earlier_explanation, earlier_line};
ghost use Rattle.std.specs.Option.{option_map};
ghost use Rattle.std.specs.Prelude.{◌+◌, ◌*◌, ◌++◌, ◌≡◌, ◌≤◌, length};

use crate::explanation::{CAPACITY, Explanation};
use crate::path::{PATH, push_shown_path};
use cap_buffer::{DIGITS, STEPS};
use cap_spec::Step;

/// Appends the line.
fn push_earlier_line(text: &mut Explanation, steps: &[Step], segment: u32, word: u32)
    requires few { length steps.now ≤ STEPS }
    requires fits { length text.old + PATH + 4 * DIGITS ≤ CAPACITY }
    ensures { text.new ≡ text.old ++ earlier_line steps.now segment word }
{
    text.push_text(b"  first used by ");
    push_shown_path(text, steps);
    text.push_text(b" at ");
    text.push_place(segment, word as u64);
    text.push_text(b"\n");
}

/// Writes the line that explains which pointer is the first to use a word that the pointer of an
/// overlap uses too: the path to it, and its word. A path of more than 24 steps is shortened. What
/// the text held before is removed. Allocates nothing. There is no line without a path, or if it has
/// more than 257 steps.
pub fn explain_earlier(text: &mut Explanation, segment: u32, word: u32, path: Option<&[Step]>)
    ensures { text.new ≡ earlier_explanation (option_map (λ steps. steps.now) path.entry) segment word }
{
    text.clear();
    if let Some(steps) = path {
        if steps.len() <= STEPS {
            push_earlier_line(text, steps, segment, word);
        }
    }
}
