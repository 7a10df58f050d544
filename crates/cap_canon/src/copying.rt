//! The canonical copy of a message.

ghost use Rattle.cap_canon.specs.Filling.{IsCopied, LaysObject};
ghost use Rattle.cap_canon.specs.Laying.{own_size};
ghost use Rattle.cap_canon.specs.Objects.{IsObject};
ghost use Rattle.cap_canon.specs.Roots.{ForTrimmed, HasTree, IdentifiesTree};
ghost use Rattle.cap_spec.specs.Copies.{HasCopy};
ghost use Rattle.cap_spec.specs.Canonical.{layout, offsets, trim};
ghost use Rattle.cap_spec.specs.Denoting.{Denotes};
ghost use Rattle.cap_spec.specs.Paths.{IsFirstCap};
ghost use Rattle.cap_spec.specs.Tree.{Tree};
ghost use Rattle.cap_vet.specs.Vettings.{message_of, report_of};
ghost use Rattle.std.specs.List.{AllByRecursion};
ghost use Rattle.std.specs.Prelude.{◌+◌, ◌≡◌, ◌≤◌, ◌<◌, ◌^◌, [], ◌∷◌, IfOk, IsErrOf, List, MatchResult, length, vec_capacity, ℕ};

use crate::appending::append_own;
use crate::length::canonical_len;
use crate::objects::Object;
use crate::output::CopyOutput;
use crate::run::PointerPlace;
use crate::walk::{Pass, walk};
use crate::words::pointer_word;
use cap_frame::Segments;
use cap_spec::CanonFault;
use cap_vet::Vetted;
use std::alloc::Global;

/// The canonical copy of a message: the words of its one segment (encoding: Canonicalization).
/// Allocates once: its length is computed first, and just that many words are reserved.
///
/// # Errors
///
/// - [`CanonFault::HasCapability`]: a capability is reached, so there is no copy. The error names
///   the first in preorder.
/// - [`CanonFault::Memory`]: there is a copy, and the allocation failed.
pub fn canonical<M: Segments>(alloc: Global, v: &Vetted<'_, M>) -> Result<Vec<u64>, CanonFault>
    ensures ok { IfOk result (λ words. HasCopy (M.segments (message_of v.now)) words.items) }
    ensures few { IfOk result (λ words. length words.items ≤ (report_of v.now).charge + 1) }
    ensures capacity { IfOk result (λ words. vec_capacity words ≡ length words.items) }
    ensures cap { let m = M.segments (message_of v.now) in
        (s w : ℕ) → IsErrOf result (CanonFault.HasCapability s w) → IsFirstCap m s w }
    ensures memory { let m = M.segments (message_of v.now) in
        IsErrOf result CanonFault.Memory → (s w : ℕ) → ¬ IsFirstCap m s w }

    // The other direction, unless the call is out of memory.
    ensures copy { (words : List ℕ) → HasCopy (M.segments (message_of v.now)) words
        → MatchResult result
        (λ copied. copied.items ≡ words) (λ fault. fault ≡ CanonFault.Memory) }
    ensures first_cap { let m = M.segments (message_of v.now) in
        (s w : ℕ) → IsFirstCap m s w → result ≡ Err (CanonFault.HasCapability s w) }

    // The copy is accepted under the limits that the message is accepted under, and is its own
    // copy.
    ensures accepted { let m = M.segments (message_of v.now) in IfOk result (λ words.
        (t : Tree) (c d : ℕ) → Denotes m 0 0 t c d
        → (c' : ℕ) × Denotes (words.items ∷ []) 0 0 (trim t) c' d × (c' ≤ c)) }
    ensures own { IfOk result (λ words. HasCopy (words.items ∷ []) words.items) }

    // Its words are a layout, and each offset that the pointer words of this are made from fits 30
    // bits, one of which is the sign.
    ensures near { let m = M.segments (message_of v.now) in
        IfOk result (λ words. ForTrimmed m (λ u.
        (words.items ≡ layout u) × AllByRecursion (λ offset. offset < 2 ^ 29) (offsets u))) }

    // Other messages have these words for their copy exactly if the trimmed trees are equal.
    ensures only { let m = M.segments (message_of v.now) in
        IfOk result (λ words. IdentifiesTree m words.items) }
{
    let length = match canonical_len(v) {
        Ok(length) => length,
        Err(fault) => return Err(fault),
    };
    let Ok(mut words) = Vec::with_capacity(alloc, length as usize) else {
        return Err(CanonFault::Memory);
    };
    copy_into(v.message(), v.report().depth, &mut words);
    Ok(words)
}

/// Appends the layout of a message of this depth, trimmed, to an output that is empty.
pub(crate) fn copy_into<M: Segments, T: CopyOutput>(message: &M, depth: u32, copy: &mut T)
    requires tree { HasTree (M.segments message.now) depth }
    requires capacity { let m = M.segments message.now in
        ForTrimmed m (λ u. length (layout u) ≤ T.capacity copy.old) }
    requires empty { T.words copy.old ≡ [] }
    ensures words { ForTrimmed (M.segments message.now) (λ u. T.words copy.new ≡ layout u) }
    ensures capacity { T.capacity copy.new ≡ T.capacity copy.old }
    ensures borrow { T.borrow copy.new ≡ T.borrow copy.old }
    ensures after { ForTrimmed (M.segments message.now) (λ u. let n = length (layout u) in
        T.after copy.new n ≡ T.after copy.old n) }
{
    copy.push(0);
    let mut copying = Copying { output: copy };
    let _words = walk(message, depth, &mut copying);
}

// A copy so far.
#[derive(Drop)]
struct Copying<'c, T> {
    output: &'c mut T,
}

impl<T: CopyOutput> Pass for Copying<'_, T> {
    ghost state = { λ s _ u end due.
        IsCopied (T.words s.output.now) (T.capacity s.output.now) u end due };

    ghost kept = { λ s u. record {
      capacity = T.capacity s.output.now;
      borrow = T.borrow s.output.now;
      name = s.output.ghost_name;
      after = T.after s.output.now (length (layout u));
    } };

    #[inline(always)]
    fn visit<M: Segments>(&mut self, message: &M, object: &Object, place: PointerPlace, end: u32) {
        lay(message, object, place.slot, end, self.output);
    }

    #[inline(always)]
    fn visit_nulls(&mut self, slot: u32, count: u32) {
        self.output.set_zeros(slot, count);
    }
}

// Writes the pointer word of what is left of an object at `slot`, and its own words from `end` on,
// where the copy ends so far.
// It is inlined, and so is what it calls at nearly every word: the object then stays in registers.
#[inline(always)]
fn lay<M: Segments, T: CopyOutput>(message: &M, object: &Object, slot: u32, end: u32, copy: &mut T)
    requires ends { (length (T.words copy.old) ≡ end) × (slot < end) × (end < 2 ^ 29) }
    requires is { let m = M.segments message.now in
        (d s w : ℕ) × (tree : Tree) × IsObject m d s w tree object.now
        × (end + own_size tree ≤ T.capacity copy.old) }
    ensures agrees { let m = M.segments message.now in
        LaysObject m object.now slot end (T.words copy.old) (T.words copy.new) }
    ensures ends { let m = M.segments message.now in
        (d s w : ℕ) (tree : Tree) → IsObject m d s w tree object.now
        → length (T.words copy.new) ≡ end + own_size tree }
    ensures capacity { T.capacity copy.new ≡ T.capacity copy.old }
    ensures borrow { T.borrow copy.new ≡ T.borrow copy.old }
    ensures after { (n : ℕ) → length (T.words copy.new) ≤ n →
        T.after copy.new n ≡ T.after copy.old n }
{
    copy.set(slot, pointer_word(end - slot - 1, object));
    append_own(message, object, copy);
}
