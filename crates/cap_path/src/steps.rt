//! The steps of a path, read from its text without memory.

ghost use Rattle.cap_path.specs.PathSteps.{AreStepsLeft, text_bytes_left};
ghost use Rattle.cap_spec.specs.PathTexts.{IsBadAt, IsStep, path_text};
ghost use Rattle.cap_spec.specs.declared.Step.{Step};
ghost use Rattle.std.specs.List.{AllByRecursion};
ghost use Rattle.std.specs.Prelude.{◌<◌, ◌≡◌, [], ◌∷◌, Err, IfErr, IfOk, IfSome, IsOkAnd, List, None, Some, ℕ};

use crate::reading::step_at;
use cap_spec::Step;

/// The steps of a path that are still to be read from its text.
#[derive(Clone, Copy, Drop)]
pub struct PathSteps<'t> {
    // the text of these steps, and nothing of the empty path
    rest: &'t [u8],
}

/// The steps of a path, which [`PathSteps::next`] gives one after the other. Allocates nothing.
///
/// `/` alone is the empty path. Any other path is one step or more. A step is `/p` and the number
/// of a pointer, from 0 to 65535, or `/i` and the number of an element, from 0 to 4294967295.
/// Numbers are decimal, without leading zeros (docs/format.md, Paths).
///
/// # Errors
///
/// The text isn't a path. The error is the first byte, counted from 0, at which no path can go on.
/// If all of the text is a prefix of a path, it is the length of the text in bytes.
pub fn read_path(text: &[u8]) -> Result<PathSteps<'_>, usize>
    ensures ok { IfOk result (λ left. (steps : List Step) × AllByRecursion IsStep steps
        × (text.now ≡ path_text steps) × AreStepsLeft left steps) }
    ensures bad { IfErr result (IsBadAt text.now) }
    // The other direction.
    ensures path { (steps : List Step) → AllByRecursion IsStep steps → text.now ≡ path_text steps →
        IsOkAnd result (λ left. AreStepsLeft left steps) }
    ensures no_path { (at : ℕ) → IsBadAt text.now at → result ≡ Err at }
{
    if text.is_empty() || text[0] != b'/' {
        return Err(0);
    }
    // The only path that ends with a slash.
    if text.len() == 1 {
        return Ok(PathSteps { rest: &[] });
    }
    let mut at = 0;
    while at < text.len() {
        let (_, end) = step_at(text, at)?;
        at = end;
    }
    Ok(PathSteps { rest: text })
}

impl<'t> PathSteps<'t> {
    /// The next step of the path, and `None` after the last one. Allocates nothing.
    #[inline]
    pub fn next(&mut self) -> Option<Step>
        ensures some { (step : Step) (more : List Step) → AreStepsLeft self.old (step ∷ more) →
            (result ≡ Some step) × AreStepsLeft self.new more }
        ensures none { AreStepsLeft self.old [] → (result ≡ None) × AreStepsLeft self.new [] }
        ensures shorter { IfSome result (λ _. text_bytes_left self.new < text_bytes_left self.old) }
    {
        let rest = self.rest;
        if rest.is_empty() || rest[0] != b'/' {
            return None;
        }
        match step_at(rest, 0) {
            Ok((step, end)) => {
                self.rest = &rest[end..];
                Some(step)
            }
            Err(_) => None,
        }
    }
}
