//! The canonical copy of a message, over the buffer of an earlier one.

ghost use Rattle.cap_canon.specs.CopyOvers.{MakesEnough, ReportsOver};
ghost use Rattle.cap_spec.specs.Copies.{HasCopy};
ghost use Rattle.cap_spec.specs.GreatestLimits.{most_words};
ghost use Rattle.cap_spec.specs.Plain.{plain_words};
ghost use Rattle.cap_vet.specs.Vettings.{message_of, report_of};
ghost use Rattle.std.specs.Prelude.{◌*◌, ◌+◌, ◌<◌, ◌≡◌, ◌≤◌, ◌↔◌, [], IfErr, IfOk, IsTrue, None, length, take, vec_capacity};

use crate::appended::copy_within;
use crate::length::canonical_len;
use crate::word_bytes::fill_front;
use cap_frame::Segments;
use cap_spec::CanonFault;
use cap_vet::{Report, Vetted};
use std::alloc::{AllocError, Global};

/// Writes the canonical copy of a message over the start of a buffer as bytes, eight a word, the
/// lowest byte first, and returns how many these are (encoding: Canonicalization, 64-bit Words).
/// The bytes of the buffer after the copy may be any.
///
/// Allocates only if the copy has more bytes than the buffer. It then frees the buffer, and allocates
/// one of the length of the copy. An empty buffer may instead get eight bytes for each word of the
/// charge and eight more: if the first segment has as many words, so that it costs no pass over the
/// message.
///
/// # Errors
///
/// - [`CanonFault::HasCapability`]: a capability is reached, so there is no copy. The error names
///   the first in preorder. The buffer is as it was.
/// - [`CanonFault::Memory`]: there is a copy, and the allocation failed. The buffer is empty.
pub fn canonical_over<M: Segments>(
    alloc: Global,
    v: &Vetted<'_, M>,
    buffer: &mut Vec<u8>,
) -> Result<usize, CanonFault>
    ensures reports { let m = M.segments (message_of v.now) in
        ReportsOver m buffer.old.items result buffer.new.items }
    // What was written is the copy, within the buffer.
    ensures ok { let m = M.segments (message_of v.now) in IfOk result (λ count.
        HasCopy m (plain_words (take count buffer.new.items))) }
    ensures within { IfOk result (λ count. count ≤ length buffer.new.items) }
    ensures few { IfOk result (λ count. count ≤ 8 * ((report_of v.now).charge + 1)) }
    // Nothing was allocated for a copy that fits, and for a longer one its length. Of the capacity
    // of an empty buffer nothing is said.
    ensures kept { IfOk result (λ count. count ≤ length buffer.old.items →
        vec_capacity buffer.new ≡ vec_capacity buffer.old) }
    ensures exact { IfOk result (λ count. 0 < length buffer.old.items →
        length buffer.old.items < count → vec_capacity buffer.new ≡ count) }
{
    if buffer.is_empty() && fits_segment(v) {
        return fill_empty(alloc, v, buffer);
    }
    fill_over(alloc, v, buffer)
}

// Whether a message has a copy, which needs no more words than its first segment has.
fn fits_segment<M: Segments>(v: &Vetted<'_, M>) -> bool
    ensures { IsTrue result → (report_of v.now).first_cap ≡ None }
{
    let report = v.report();
    report.first_cap.is_none() && report.charge < u64::from(v.message().len(0))
}

// The same over an empty buffer, which gets capacity for every copy of a message with this charge.
fn fill_empty<M: Segments>(
    alloc: Global,
    v: &Vetted<'_, M>,
    buffer: &mut Vec<u8>,
) -> Result<usize, CanonFault>
    requires empty { buffer.old.items ≡ [] }
    requires no_cap { (report_of v.now).first_cap ≡ None }
    ensures reports { let m = M.segments (message_of v.now) in
        ReportsOver m buffer.old.items result buffer.new.items }
    ensures ok { let m = M.segments (message_of v.now) in IfOk result (λ count.
        HasCopy m (plain_words (take count buffer.new.items))) }
    ensures within { IfOk result (λ count. count ≤ length buffer.new.items) }
    ensures few { IfOk result (λ count. count ≤ 8 * ((report_of v.now).charge + 1)) }
    ensures some { IfOk result (λ count. 0 < count) }
{
    let report = v.report();
    let most = report.charge as usize + 1;
    let Ok(bytes) = copy_within(alloc, v.message(), report.depth, most) else {
        return Err(CanonFault::Memory);
    };
    *buffer = bytes;
    Ok(buffer.len())
}

/// The same over any buffer. A buffer that is too short is replaced by one of the length of the copy.
pub(crate) fn fill_over<M: Segments>(
    alloc: Global,
    v: &Vetted<'_, M>,
    buffer: &mut Vec<u8>,
) -> Result<usize, CanonFault>
    ensures reports { let m = M.segments (message_of v.now) in
        ReportsOver m buffer.old.items result buffer.new.items }
    ensures ok { let m = M.segments (message_of v.now) in IfOk result (λ count.
        HasCopy m (plain_words (take count buffer.new.items))) }
    ensures within { IfOk result (λ count. count ≤ length buffer.new.items) }
    ensures few { IfOk result (λ count. count ≤ 8 * ((report_of v.now).charge + 1)) }
    ensures kept { IfOk result (λ count. count ≤ length buffer.old.items →
        vec_capacity buffer.new ≡ vec_capacity buffer.old) }
    ensures exact { IfOk result (λ count. length buffer.old.items < count →
        vec_capacity buffer.new ≡ count) }
{
    if let Err(fault) = make_enough(alloc, v, buffer) {
        return Err(fault);
    }
    let words = fill_front(v.message(), v.report().depth, buffer.as_mut_slice());
    Ok(8 * words)
}

// Makes sure that a buffer has as many bytes as the copy.
fn make_enough<M: Segments>(
    alloc: Global,
    v: &Vetted<'_, M>,
    buffer: &mut Vec<u8>,
) -> Result<(), CanonFault>
    ensures makes { let m = M.segments (message_of v.now) in
        MakesEnough m buffer.old.items result buffer.new.items }
    ensures kept { IfOk result (λ _. length buffer.new.items ≡ length buffer.old.items →
        vec_capacity buffer.new ≡ vec_capacity buffer.old) }
    ensures exact { IfOk result (λ _. length buffer.old.items < length buffer.new.items →
        vec_capacity buffer.new ≡ length buffer.new.items) }
{
    if fits_any(&v.report(), buffer.len()) {
        return Ok(());
    }
    let words = match canonical_len(v) {
        Ok(words) => words,
        Err(fault) => return Err(fault),
    };
    let count = 8 * words as usize;
    if buffer.len() >= count {
        return Ok(());
    }
    match replace_zeros(alloc, buffer, count) {
        Ok(()) => Ok(()),
        Err(_) => Err(CanonFault::Memory),
    }
}

/// Whether a message with this report has a copy, and every such copy fits into `len` bytes.
pub(crate) fn fits_any(report: &Report, len: usize) -> bool
    requires { report.now.charge ≤ most_words }
    ensures { IsTrue result
        ↔ (report.now.first_cap ≡ None) × (8 * (report.now.charge + 1) ≤ len) }
{
    report.first_cap.is_none() && len >= 8 * (report.charge as usize + 1)
}

// Frees a buffer, and makes one of `count` zeros in its place.
fn replace_zeros(alloc: Global, buffer: &mut Vec<u8>, count: usize) -> Result<(), AllocError>
    ensures ok { IfOk result (λ _. length buffer.new.items ≡ count) }
    ensures exact { IfOk result (λ _. vec_capacity buffer.new ≡ count) }
    ensures err { IfErr result (λ _. buffer.new.items ≡ []) }
{
    *buffer = Vec::new(alloc);
    *buffer = zeros(alloc, count)?;
    Ok(())
}

// A vector of `count` zeros. Each is pushed by itself, because std says of `resize` only that the
// capacity doesn't shrink. The compiler makes one fill of the loop.
fn zeros(alloc: Global, count: usize) -> Result<Vec<u8>, AllocError>
    ensures len { IfOk result (λ bytes. length bytes.items ≡ count) }
    ensures exact { IfOk result (λ bytes. vec_capacity bytes ≡ count) }
{
    let mut bytes = Vec::with_capacity(alloc, count)?;
    'zeros: for _ in 0..count {
        bytes.push_reserved(0);
    }
    Ok(bytes)
}
