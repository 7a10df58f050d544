//! The canonical copy of a message as bytes.

ghost use Rattle.cap_spec.specs.Copies.{HasCopy};
ghost use Rattle.cap_spec.specs.Paths.{IsFirstCap};
ghost use Rattle.cap_spec.specs.Plain.{plain_text, plain_words};
ghost use Rattle.cap_vet.specs.Vettings.{message_of, report_of};
ghost use Rattle.std.specs.Prelude.{◌*◌, ◌+◌, ◌≡◌, ◌≤◌, IfOk, IsErrOf, List, MatchResult, length, vec_capacity, ℕ};

use crate::over::fill_over;
use cap_frame::Segments;
use cap_spec::CanonFault;
use cap_vet::Vetted;
use std::alloc::Global;

/// The canonical copy of a message as bytes, eight a word, the lowest byte first (encoding:
/// Canonicalization, 64-bit Words). They encode the words of `canonical`. Allocates once: the
/// length is computed first, and just that many bytes are reserved.
///
/// # Errors
///
/// - [`CanonFault::HasCapability`]: a capability is reached, so there is no copy. The error names
///   the first in preorder.
/// - [`CanonFault::Memory`]: there is a copy, and the allocation failed.
pub fn canonical_bytes<M: Segments>(alloc: Global, v: &Vetted<'_, M>) -> Result<Vec<u8>, CanonFault>
    ensures ok { let m = M.segments (message_of v.now) in IfOk result (λ bytes.
        let copy = plain_words bytes.items in HasCopy m copy × (bytes.items ≡ plain_text copy)) }
    ensures few { IfOk result (λ bytes.
        length bytes.items ≤ 8 * ((report_of v.now).charge + 1)) }
    ensures capacity { IfOk result (λ bytes. vec_capacity bytes ≡ length bytes.items) }
    ensures cap { let m = M.segments (message_of v.now) in
        (s w : ℕ) → IsErrOf result (CanonFault.HasCapability s w) → IsFirstCap m s w }
    ensures memory { let m = M.segments (message_of v.now) in
        IsErrOf result CanonFault.Memory → (s w : ℕ) → ¬ IsFirstCap m s w }

    // The other direction, unless the call is out of memory.
    ensures copy { (words : List ℕ) → HasCopy (M.segments (message_of v.now)) words
        → MatchResult result
        (λ bytes. bytes.items ≡ plain_text words) (λ fault. fault ≡ CanonFault.Memory) }
    ensures first_cap { let m = M.segments (message_of v.now) in
        (s w : ℕ) → IsFirstCap m s w → result ≡ Err (CanonFault.HasCapability s w) }
{
    let mut bytes = Vec::new(alloc);
    match fill_over(alloc, v, &mut bytes) {
        Ok(_) => Ok(bytes),
        Err(fault) => Err(fault),
    }
}
