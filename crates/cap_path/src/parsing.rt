//! Parsing the text of a path into a vector of its steps.

ghost use Rattle.cap_spec.specs.PathTexts.{IsBadAt, IsStep, path_text};
ghost use Rattle.cap_spec.specs.declared.Step.{Step};
ghost use Rattle.std.specs.List.{AllByRecursion};
ghost use Rattle.std.specs.Prelude.{◌≡◌, [], Err, IfOk, IsErrOf, IsOk, List, MatchResult, ℕ};

use crate::steps::read_path;
use cap_spec::Step;
use std::alloc::Global;
use thiserror::Error;

/// Why a text gives no steps.
#[derive(Clone, Copy, Debug, PartialEq, Eq, Drop, Error)]
pub enum PathFault {
    /// The text isn't a path.
    #[error("bad path at {at}")]
    Bad {
        /// The first byte, counted from 0, at which the text stops being a prefix of a path's text.
        /// If the whole text is such a prefix, this is its length in bytes.
        at: usize,
    },
    /// An allocation failed.
    #[error("out of memory")]
    Memory,
}

/// Parses the text of a path into its steps, as [`read_path`] reads them.
///
/// Allocates for the steps alone. The empty path allocates nothing.
///
/// # Errors
///
/// - [`PathFault::Bad`]: the text isn't a path. `at` is the first byte, counted from 0, at which no
///   path can go on. If all of the text is a prefix of a path, `at` is its length in bytes.
/// - [`PathFault::Memory`]: an allocation failed. The text is a path.
pub fn parse_path(alloc: Global, text: &str) -> Result<Vec<Step>, PathFault>
    ensures ok { IfOk result (λ steps.
        AllByRecursion IsStep steps.items × (text.now ≡ path_text steps.items)) }
    ensures bad { (at : ℕ) → IsErrOf result (PathFault.Bad at) → IsBadAt text.now at }
    // The other direction: a path gives its steps unless an allocation fails, and any other text is
    // bad at its bad byte.
    ensures path { (steps : List Step) → AllByRecursion IsStep steps → text.now ≡ path_text steps →
        MatchResult result (λ v. v.items ≡ steps) (λ fault. fault ≡ PathFault.Memory) }
    ensures no_path { (at : ℕ) → IsBadAt text.now at → result ≡ Err (PathFault.Bad at) }
    // The empty path allocates nothing.
    ensures root { text.now ≡ path_text [] → IsOk result }
{
    let mut left = match read_path(text.as_bytes()) {
        Ok(left) => left,
        Err(at) => return Err(PathFault::Bad { at }),
    };
    let mut steps = Vec::new(alloc);
    while let Some(step) = left.next() {
        match steps.push(step) {
            Ok(()) => {}
            Err(_) => return Err(PathFault::Memory),
        }
    }
    Ok(steps)
}
