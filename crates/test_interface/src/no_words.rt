//! A source that has only the members which a source must have.

ghost use Rattle.std.specs.Prelude.{◌∷◌, [], Some, false, true};

use cap_words::{SourceFault, WordSource};

/// A source without words.
#[derive(Drop)]
pub(crate) struct NoWords;

impl WordSource for NoWords {
    ghost words = { λ _. Some [] };

    ghost is_cut = { λ _. false };

    ghost place = { λ _. 0 };

    ghost places = { λ _. 0 ∷ [] };

    ghost unread = { λ _. Some [] };

    ghost ended = { λ _. true };

    ghost failed = { λ _. false };

    ghost failures = { λ _. 0 };

    ghost broken = { λ _. false };

    ghost are_words = { λ _. tt };

    fn next(&mut self) -> Result<Option<u64>, SourceFault> {
        Ok(None)
    }

    fn position(&self) -> u64 {
        0
    }
}
