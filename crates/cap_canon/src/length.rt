//! How long a canonical copy is.

ghost use Rattle.cap_canon.specs.Roots.{ForTrimmed, HasTree};
ghost use Rattle.cap_spec.specs.Canonical.{layout};
ghost use Rattle.cap_spec.specs.Copies.{HasCopy};
ghost use Rattle.cap_spec.specs.Paths.{IsFirstCap};
ghost use Rattle.cap_vet.specs.Vettings.{message_of, report_of};
ghost use Rattle.std.specs.Prelude.{[], ◌+◌, ◌≡◌, ◌≤◌, IfErr, IfOk, List, length, ⊤, ℕ};

use crate::objects::Object;
use crate::run::PointerPlace;
use crate::walk::{Pass, walk};
use cap_frame::Segments;
use cap_spec::CanonFault;
use cap_vet::Vetted;

/// How many words the canonical copy of a message has, its root word included (encoding:
/// Canonicalization): at most one more than its charge. Allocates nothing.
///
/// # Errors
///
/// - [`CanonFault::HasCapability`]: a capability is reached, so there is no copy. The error names
///   the first in preorder.
pub fn canonical_len<M: Segments>(v: &Vetted<'_, M>) -> Result<u64, CanonFault>
    ensures ok { let m = M.segments (message_of v.now) in
        IfOk result (λ n. (words : List ℕ) × HasCopy m words × (n ≡ length words)) }
    ensures few { IfOk result (λ n. n ≤ (report_of v.now).charge + 1) }
    ensures err { let m = M.segments (message_of v.now) in IfErr result (λ fault.
        (s w : ℕ) × (fault ≡ CanonFault.HasCapability s w) × IsFirstCap m s w) }

    // The other direction: the message decides the result.
    ensures copy { let m = M.segments (message_of v.now) in
        (words : List ℕ) → HasCopy m words → result ≡ Ok (length words) }
    ensures cap { let m = M.segments (message_of v.now) in
        (s w : ℕ) → IsFirstCap m s w → result ≡ Err (CanonFault.HasCapability s w) }
{
    let report = v.report();
    if let Some((segment, word)) = report.first_cap {
        return Err(CanonFault::HasCapability { segment, word });
    }
    Ok(u64::from(length_of(v.message(), report.depth)))
}

// How many words the layout of a message of this depth, trimmed, has.
fn length_of<M: Segments>(message: &M, depth: u32) -> u32
    requires { HasTree (M.segments message.now) depth }
    ensures { ForTrimmed (M.segments message.now) (λ u. result ≡ length (layout u)) }
{
    walk(message, depth, &mut Counting)
}

// The walk counts by itself.
#[derive(Drop)]
struct Counting;

impl Pass for Counting {
    ghost state = { λ _ _ _ _ _. ⊤ };

    ghost kept = { λ _ _. record { capacity = 0; borrow = 0; name = 0; after = [] } };

    #[inline(always)]
    fn visit<M: Segments>(
        &mut self,
        _message: &M,
        _object: &Object,
        _place: PointerPlace,
        _end: u32,
    ) {}

    #[inline(always)]
    fn visit_nulls(&mut self, _slot: u32, _count: u32) {}
}
