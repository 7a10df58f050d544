//! The reason of a refusal as a sentence, from the lines that explain the refusal.

ghost use Rattle.cap_run.specs.ExplainedJson.{plain_lines};
ghost use Rattle.cap_run.specs.LastLines.{GivesReason};
ghost use Rattle.std.specs.Prelude.{◌<◌, ◌≡◌, ◌≤◌, List, length, ℕ};

use cap_explain::{Explanation, Numbers, explain};
use cap_frame::Segments;
use cap_spec::StrictRefusal;

/// The lines that explain a refusal, without a path. The last gives its sentence, which no number
/// changes.
pub(crate) fn reason_lines<M: Segments>(message: &M, refusal: &StrictRefusal) -> Explanation
    ensures { result ≡ plain_lines (M.segments message.now) refusal.now }
{
    let numbers = Numbers {
        words: 0,
        depth: 0,
        charge: None,
        cycle: None,
        has_table: true,
        start: None,
    };
    let mut lines = Explanation::new();
    explain(&mut lines, message, refusal, numbers, None);
    lines
}

/// How many bytes of a line with a reason are before its sentence: those of `  reason `.
const BEFORE: usize = 9;

/// Where the last line of some lines begins, if it gives a reason: at the last two blanks in a row.
fn last_start(lines: &[u8]) -> usize
    ensures last { (sentence : List ℕ) → (r : GivesReason lines.now sentence) → result ≡ length r.before }
    ensures within { result ≤ length lines.now }
{
    let mut start = lines.len().saturating_sub(2);
    while start > 0 {
        if lines[start - 1] == b' ' && lines[start] == b' ' {
            return start - 1;
        }
        start -= 1;
    }
    start
}

/// The sentence of the last of some lines, if that line gives a reason.
pub(crate) fn last_reason(lines: &[u8]) -> &[u8]
    ensures { (sentence : List ℕ) → GivesReason lines.now sentence → result.now ≡ sentence }
{
    let start = last_start(lines) + BEFORE;
    if start >= lines.len() {
        return &[];
    }
    &lines[start..lines.len() - 1]
}
