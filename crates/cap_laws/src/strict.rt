//! Messages without the forms that common readers reject.

ghost use Rattle.std.specs.Prelude.{ℕ, List, [], ◌∷◌, ◌≡◌, ◌≤◌, ◌<◌, ◌^◌, ◌⊎◌, length};
ghost use Rattle.cap_spec.specs.Accepting.{IsWithin};
ghost use Rattle.cap_spec.specs.declared.Lax.{Lax};
ghost use Rattle.cap_spec.specs.declared.Refusal.{Refusal};
ghost use Rattle.cap_spec.specs.declared.Step.{Step};
ghost use Rattle.cap_spec.specs.declared.StrictRefusal.{StrictRefusal};
ghost use Rattle.cap_spec.specs.Copies.{HasCopy};
ghost use Rattle.cap_spec.specs.Denoting.{Denotes, Finds};
ghost use Rattle.cap_spec.specs.Faults.{IsRefused};
ghost use Rattle.cap_spec.specs.Following.{Lead, Leads};
ghost use Rattle.cap_spec.specs.Messages.{segment_of};
ghost use Rattle.cap_spec.specs.Pointers.{extent};
ghost use Rattle.cap_spec.specs.Strict.{IsFirstLax, IsLax, IsLaxAt, IsStrict, IsStrictFault};
ghost use Rattle.cap_spec.specs.Tree.{Tree};

/// A pointer has at most one of the forms that common readers reject, and then it has a landing
/// pad. An object in a segment without words is found over a pad of two words alone, and has no
/// words.
pub fn one_lax_form()
    ensures one { (m : List (List ℕ)) (s w : ℕ) (u v : Lax) →
        IsLaxAt m s w u → IsLaxAt m s w v → u ≡ v }
    ensures pads { (m : List (List ℕ)) (s w : ℕ) (what : Lax) → IsLaxAt m s w what →
        (k : ℕ) × (r : Lead) × Leads m s w k r × (1 ≤ k) }
    ensures empty { (m : List (List ℕ)) (s w k t b q : ℕ) →
        Finds m s w k t b q → segment_of m t ≡ [] → (k ≡ 2) × (b ≡ 0) × (extent q ≡ 0) }
{}

/// The first pointer in preorder of such a form is one, and so are its form and the number of
/// pointer words up to it.
pub fn one_first_lax()
    ensures { (m : List (List ℕ)) (s w : ℕ) (u : Lax) (n s' w' : ℕ) (v : Lax) (n' : ℕ) →
        IsFirstLax m s w u n → IsFirstLax m s' w' v n' → (s ≡ s') × (w ≡ w') × (u ≡ v) × (n ≡ n') }
{}

/// If the root denotes a tree, some pointer is the first in preorder of such a form, or no path
/// reaches one.
pub fn first_lax_or_none()
    ensures { (m : List (List ℕ)) (t : Tree) (c d : ℕ) → Denotes m 0 0 t c d →
        ((s w : ℕ) × (what : Lax) × (pointers : ℕ) × IsFirstLax m s w what pointers)
        ⊎ ((path : List Step) → ¬ IsLax m path) }
{}

/// An accepted message of at most 512 segments is strict, or has a fault. No message is strict and
/// has a fault. No message has two faults: the reason, the place and the number of pointers are
/// one.
pub fn strict_or_one_fault()
    ensures either { (m : List (List ℕ)) (words depth : ℕ) →
        IsWithin m words depth → length m ≤ 512 →
        IsStrict m words depth ⊎ ((fault : StrictRefusal) × IsStrictFault m words depth fault) }
    ensures not_both { (m : List (List ℕ)) (words depth : ℕ) (fault : StrictRefusal) →
        IsStrict m words depth → ¬ IsStrictFault m words depth fault }
    ensures one { (m : List (List ℕ)) (words depth : ℕ) (f g : StrictRefusal) →
        IsStrictFault m words depth f → IsStrictFault m words depth g → f ≡ g }
{}

/// A strict message is accepted: its root denotes a tree within the limits, and it isn't refused.
/// It is strict within wider limits too.
pub fn strict_is_accepted()
    ensures tree { (m : List (List ℕ)) (words depth : ℕ) → IsStrict m words depth →
        IsWithin m words depth }
    ensures not_refused { (m : List (List ℕ)) (words depth : ℕ) (refusal : Refusal) →
        IsStrict m words depth → ¬ IsRefused m words depth refusal }
    ensures wider { (m : List (List ℕ)) (words depth words' depth' : ℕ) →
        IsStrict m words depth → words ≤ words' → depth ≤ depth' → IsStrict m words' depth' }
{}

/// The canonical copy of a message, of a charge below 2^29, is strict within the limits that the
/// message is within.
pub fn copy_is_strict()
    ensures { (m : List (List ℕ)) (words : List ℕ) (limit depth : ℕ) (copy : HasCopy m words) →
        copy.charge < 2 ^ 29 → copy.charge ≤ limit → copy.depth ≤ depth →
        IsStrict (words ∷ []) limit depth }
{}
