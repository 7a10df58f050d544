//! The line of a path.

ghost use Rattle.cap_explain.specs.Explaining.{path_line, path_lines, shortened, shown_path};
ghost use Rattle.std.specs.Option.{option_map};
ghost use Rattle.std.specs.Prelude.{◌+◌, ◌*◌, ◌++◌, ◌<◌, ◌≡◌, ◌≤◌, length};

use crate::explanation::{CAPACITY, Explanation};
use cap_buffer::{DIGITS, STEP, STEPS};
use cap_spec::Step;

/// The most steps of a path that is shown whole.
const WHOLE: usize = 24;

/// How many steps of a longer path are shown at each end.
const ENDS: usize = 8;

/// The space for the line of a path without its steps.
const HEAD: usize = 10;

/// The space for the line of a path.
pub(crate) const PATH: usize = HEAD + STEP * STEPS;

/// Appends the text of a long path: its first and last steps, and how many are between.
fn push_shortened(text: &mut Explanation, steps: &[Step])
    requires many { WHOLE < length steps.now }
    requires fits { length text.old + STEP * length steps.now + DIGITS ≤ CAPACITY }
    ensures items { text.new ≡ text.old ++ shortened steps.now }
    ensures few { length text.new ≤ length text.old + STEP * length steps.now }
{
    let rest = steps.len() - ENDS;
    text.push_steps(&steps[..ENDS]);
    text.push_named(b"/.. ", (rest - ENDS) as u64);
    text.push_text(b" steps ..");
    text.push_steps(&steps[rest..]);
}

/// Appends the text of a path, shortened if it has more than 24 steps.
pub(crate) fn push_shown_path(text: &mut Explanation, steps: &[Step])
    requires { length text.old + 1 + STEP * length steps.now + DIGITS ≤ CAPACITY }
    ensures items { text.new ≡ text.old ++ shown_path steps.now }
    ensures few { length text.new ≤ length text.old + 1 + STEP * length steps.now }
{
    if steps.len() > WHOLE {
        push_shortened(text, steps);
    } else {
        text.push_path(steps);
    }
}

/// Appends the line of a path.
fn push_path_line(text: &mut Explanation, steps: &[Step])
    requires few { length steps.now ≤ STEPS }
    requires fits { length text.old + PATH + DIGITS ≤ CAPACITY }
    ensures items { text.new ≡ text.old ++ path_line steps.now }
    ensures few { length text.new ≤ length text.old + PATH }
{
    text.push_text(b"  path ");
    push_shown_path(text, steps);
    text.push_text(b"\n");
}

/// Appends the line of a path, if there is a path of at most 257 steps.
pub(crate) fn push_path_lines(text: &mut Explanation, path: Option<&[Step]>)
    requires { length text.old + PATH + DIGITS ≤ CAPACITY }
    ensures items { text.new ≡ text.old ++ path_lines (option_map (λ steps. steps.now) path.entry) }
    ensures few { length text.new ≤ length text.old + PATH }
{
    if let Some(steps) = path {
        if steps.len() <= STEPS {
            push_path_line(text, steps);
        }
    }
}
