//! The engine that writes for each message the hash of its canonical words.

ghost use Rattle.cap_frame.specs.Limit.{limit_of};
ghost use Rattle.cap_run.specs.Engines.{ReportsStream};
ghost use Rattle.cap_run.specs.Hashing.{AllocatesCopy, AllocatesCopyUnder, ReportsDigestUnder, ReportsHashUnder, ReportsHashed, hash_line};
ghost use Rattle.cap_spec.specs.Copies.{HasCopy, IsCanonical};
ghost use Rattle.cap_spec.specs.Messages.{segment_of};
ghost use Rattle.cap_spec.specs.Paths.{IsFirstCap};
ghost use Rattle.cap_spec.specs.Plain.{plain_text};
ghost use Rattle.cap_text.specs.Writing.{Writes};
ghost use Rattle.cap_vet.specs.Vettings.{message_of};
ghost use Rattle.cap_walk.specs.Demands.{no_demands};
ghost use Rattle.cap_walk.specs.Limits.{depth_of, words_of};
ghost use Rattle.sha2.specs.Sha256.{sha256};
ghost use Rattle.std.specs.Prelude.{◌≡◌, ◌<◌, IfOk, IsErrOf, List, length, ℕ};

use crate::engines::stream::Counted;
use crate::engines::vetting::{AcceptedPrinter, after_text, vet_all};
use crate::settings::{Outcome, Settings};
use crate::waiting::{FlushNever, Flushing};
use cap_canon::{CanonFault, canonical_bytes, is_canonical};
use cap_frame::Segments;
use cap_text::{Cause, Page, RunFault, write_digest, write_hash, write_no_form};
use cap_vet::{Demands, Limits, Vetted};
use cap_words::{ByteOut, OutFault, WordSource, bytes_of};
use sha2::{Digest, Sha256};
use std::alloc::Global;

/// The SHA-256 of the bytes of a message's first segment, where they are.
fn digest_in_place<M: Segments>(message: &M) -> [u8; 32]
    requires { 0 < length (M.segments message.now) }
    ensures { result ≡ sha256 (plain_text (segment_of (M.segments message.now) 0)) }
{
    match message.bytes_at(0, 0, message.len(0)) {
        Some(bytes) => Sha256::digest(bytes),
        None => digest_by_words(message),
    }
}

/// The same of a message that doesn't have its words as bytes.
fn digest_by_words<M: Segments>(message: &M) -> [u8; 32]
    requires { 0 < length (M.segments message.now) }
    ensures { result ≡ sha256 (plain_text (segment_of (M.segments message.now) 0)) }
{
    let mut hasher = Sha256::new();
    'words: for at in 0..message.len(0) {
        hasher.update(&bytes_of(message.word(0, at)));
    }
    hasher.finalize()
}

/// The SHA-256 of the canonical words of a message. If the message is canonical, nothing is
/// allocated, since these words are its own. Otherwise they are copied.
///
/// # Errors
///
/// - [`CanonFault::HasCapability`]: a capability is reached, so there are no canonical words. The
///   error names the first in preorder.
/// - [`CanonFault::Memory`]: the allocation of the copy failed.
pub(crate) fn digest_of<M: Segments>(
    alloc: Global,
    vetted: &Vetted<'_, M>,
) -> Result<[u8; 32], CanonFault>
    ensures ok { let m = M.segments (message_of vetted.now) in IfOk result (λ digest.
        (words : List ℕ) × HasCopy m words × (digest ≡ sha256 (plain_text words))) }
    ensures cap { let m = M.segments (message_of vetted.now) in
        (s w : ℕ) → IsErrOf result (CanonFault.HasCapability s w) → IsFirstCap m s w }
    ensures memory { let m = M.segments (message_of vetted.now) in
        IsErrOf result CanonFault.Memory → ¬ IsCanonical m × ((s w : ℕ) → ¬ IsFirstCap m s w) }
{
    if is_canonical(vetted) {
        return Ok(digest_in_place(vetted.message()));
    }
    match canonical_bytes(alloc, vetted) {
        Ok(copy) => Ok(Sha256::digest(copy.as_slice())),
        Err(fault) => Err(fault),
    }
}

/// Writes the line of a hash: its digits alone, or the number of the message before them.
fn write_line<O: ByteOut>(
    page: &mut Page,
    out: &mut O,
    alone: bool,
    number: u32,
    hash: &[u8; 32],
) -> Result<(), OutFault>
    ensures { Writes O.ByteOut out.old out.new result (hash_line alone number hash.now) }
{
    if alone {
        return write_digest(page, out, hash);
    }
    write_hash(page, out, number, hash)
}

/// Writes the hash of a message's canonical words.
#[derive(Clone, Copy)]
struct HashPrinter {
    alloc: Global,
    /// Whether the line of a hash is its digits alone.
    alone: bool,
}

impl AcceptedPrinter for HashPrinter {
    ghost reports = { λ p _ _. ReportsHashed p.alone };

    ghost allocates = { λ _. AllocatesCopy };

    fn print_accepted<M: Segments, O: ByteOut>(
        &self,
        page: &mut Page,
        out: &mut O,
        _before: u64,
        number: u32,
        vetted: &Vetted<'_, M>,
        _limits: Limits,
    ) -> Result<Counted, Cause> {
        match digest_of(self.alloc, vetted) {
            Ok(digest) => {
                let written = write_line(page, out, self.alone, number, &digest);
                after_text(written, Counted::Accepted)
            }
            Err(CanonFault::HasCapability { segment, word }) => {
                let written = write_no_form(page, out, number, segment, word);
                after_text(written, Counted::NotCanonical)
            }
            Err(CanonFault::Memory) => Err(Cause::Memory),
        }
    }
}

/// Does what [`run_hash_with`] does, without demands and without a flush.
///
/// # Errors
///
/// Those of [`run_hash_with`].
pub fn run_hash<S: WordSource, O: ByteOut>(
    alloc: Global,
    source: &mut S,
    out: &mut O,
    settings: &Settings,
) -> Result<Outcome, RunFault>
    ensures { let s = settings.now in ReportsStream S.WordSource O.ByteOut
        (ReportsHashUnder no_demands (words_of s.limits) (depth_of s.limits))
        (AllocatesCopyUnder no_demands (words_of s.limits) (depth_of s.limits))
        (limit_of s.size) s.messages source.old source.new out.old out.new result }
{
    run_hash_with(
        alloc,
        source,
        out,
        settings,
        Demands::default(),
        &FlushNever,
    )
}

/// Reads the messages of a stream to its end, and writes for each the SHA-256 (FIPS 180-4) of the
/// bytes of its canonical words, without a table (encoding: Canonicalization, 64-bit Words). So
/// messages with the same content have the same hash. A message with a capability has no canonical
/// words: its line has the place of the first capability.
///
/// For a message that isn't accepted within `settings.limits`, or doesn't meet the demands, it
/// writes the line of [`run_vet_with`](crate::run_vet_with). A message that is refused or has a
/// capability is counted, and doesn't end the run. The line of a message is written before the next
/// message is read, and flushed as `flushing` says.
///
/// Allocates to hold a message that is larger than all before it: eight bytes for each word. For a
/// message that isn't canonical it allocates the copy too, and frees it after the message.
///
/// # Errors
///
/// The error names the message at which the run ended, counted from 0. The lines of all messages
/// before it were written, and no message after it was read.
///
/// - [`Cause::TooManyMessages`](crate::Cause::TooManyMessages): the stream has more than
///   `settings.messages` messages.
/// - [`Cause::Frame`](crate::Cause::Frame): the message can't be read within `settings.size`, see
///   [`FrameFault`](cap_frame::FrameFault).
/// - [`Cause::Output`](crate::Cause::Output): the output failed as the line was written or flushed.
///   It took a prefix of the line, or all of it.
/// - [`Cause::Memory`](crate::Cause::Memory): the message was accepted and isn't canonical, and the
///   allocation of its copy failed. Nothing was written of it.
pub fn run_hash_with<S: WordSource, O: ByteOut, F: Flushing<S>>(
    alloc: Global,
    source: &mut S,
    out: &mut O,
    settings: &Settings,
    demands: Demands,
    flushing: &F,
) -> Result<Outcome, RunFault>
    ensures { let s = settings.now in ReportsStream S.WordSource O.ByteOut
        (ReportsHashUnder demands (words_of s.limits) (depth_of s.limits))
        (AllocatesCopyUnder demands (words_of s.limits) (depth_of s.limits))
        (limit_of s.size) s.messages source.old source.new out.old out.new result }
{
    let printer = HashPrinter {
        alloc,
        alone: false,
    };
    vet_all(alloc, source, out, settings, demands, printer, flushing)
}

/// Does what [`run_hash_with`] does, but the line of a hash is its 64 digits alone. The lines of
/// messages that are refused or have a capability are the same.
///
/// # Errors
///
/// Those of [`run_hash_with`].
pub fn run_digest_with<S: WordSource, O: ByteOut, F: Flushing<S>>(
    alloc: Global,
    source: &mut S,
    out: &mut O,
    settings: &Settings,
    demands: Demands,
    flushing: &F,
) -> Result<Outcome, RunFault>
    ensures { let s = settings.now in ReportsStream S.WordSource O.ByteOut
        (ReportsDigestUnder demands (words_of s.limits) (depth_of s.limits))
        (AllocatesCopyUnder demands (words_of s.limits) (depth_of s.limits))
        (limit_of s.size) s.messages source.old source.new out.old out.new result }
{
    let printer = HashPrinter { alloc, alone: true };
    vet_all(alloc, source, out, settings, demands, printer, flushing)
}
