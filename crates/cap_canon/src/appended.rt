//! The words of a canonical copy as bytes, appended to a vector that has capacity for them.

ghost use Rattle.cap_canon.specs.Roots.{ForTrimmed, HasTree};
ghost use Rattle.cap_spec.specs.Canonical.{layout};
ghost use Rattle.cap_spec.specs.Plain.{plain_text, plain_words};
ghost use Rattle.std.specs.List.{AllByRecursion};
ghost use Rattle.std.specs.Prelude.{[], ◌*◌, ◌%◌, ◌≡◌, ◌≤◌, ◌<◌, ◌^◌, IfOk, length};
ghost use Rattle.std.specs.Vec.{vec_capacity};

use crate::copying::copy_into;
use crate::output::CopyOutput;
use crate::word_bytes::{write_word, write_zeros};
use cap_frame::Segments;
use cap_words::bytes_of;
use std::alloc::{AllocError, Global};

/// The layout of a message of this depth, trimmed, in a new vector with capacity for `most` words.
/// The layout has no more of them.
// It isn't inlined, so that the stack of its walk costs no other copy anything.
#[inline(never)]
pub(crate) fn copy_within<M: Segments>(
    alloc: Global,
    message: &M,
    depth: u32,
    most: usize,
) -> Result<Vec<u8>, AllocError>
    requires tree { HasTree (M.segments message.now) depth }
    requires most { ForTrimmed (M.segments message.now) (λ u. length (layout u) ≤ most) }
    requires small { most < 2 ^ 60 }
    ensures text { let m = M.segments message.now in
        IfOk result (λ bytes. ForTrimmed m (λ u. bytes.items ≡ plain_text (layout u))) }
    ensures words { let m = M.segments message.now in
        IfOk result (λ bytes. ForTrimmed m (λ u. plain_words bytes.items ≡ layout u)) }
{
    let bytes = Vec::with_capacity(alloc, 8 * most)?;
    let mut copy = AppendedWords { bytes, most };
    copy_into(message, depth, &mut copy);
    read_bytes(copy.bytes.as_slice());
    Ok(copy.bytes)
}

// The bytes of a slice are bytes. Nothing is done with them.
#[inline(always)]
fn read_bytes(bytes: &[u8])
    ensures { AllByRecursion (λ b. b < 256) bytes.now }
{}

// Words as their bytes, with capacity for `most` of them.
#[derive(Drop)]
struct AppendedWords {
    bytes: Vec<u8>,
    most: usize,
    ghost whole: { length bytes.items % 8 ≡ 0 },
    ghost enough: { 8 * most ≤ vec_capacity bytes },
}

impl CopyOutput for AppendedWords {
    ghost words = { λ s. plain_words s.bytes.items };

    ghost capacity = { λ s. s.most };

    ghost borrow = { λ _. 0 };

    ghost after = { λ _ _. [] };

    fn push(&mut self, word: u64) {
        // within the capacity, so that nothing grows
        self.bytes.extend_from_slice(&bytes_of(word)).unwrap();
    }

    fn set(&mut self, place: u32, word: u64) {
        write_word(self.bytes.as_mut_slice(), place as usize, word);
    }

    // Inlined, since a walk calls it for a few words at a time.
    #[inline(always)]
    fn set_zeros(&mut self, place: u32, count: u32) {
        write_zeros(self.bytes.as_mut_slice(), place as usize, count as usize);
    }

    // Inlined, since a copy calls it at nearly every object.
    #[inline(always)]
    fn append_from<M: Segments>(&mut self, message: &M, segment: u32, start: u32, count: u32) {
        match message.bytes_at(segment, start, count) {
            // within the capacity, so that nothing grows
            Some(row) => self.bytes.extend_from_slice(row).unwrap(),
            None => self.append_each(message, segment, start, count),
        }
    }
}
