//! What the lines say of a message: the target is where the pointer leads, and the reason is true.

ghost use Rattle.cap_explain.specs.Explaining.{explanation, overlap_explanation};
ghost use Rattle.cap_explain.specs.Leading.{landing_of, segment_after, list_tag};
ghost use Rattle.cap_explain.specs.Meanings.{HasTrueReason, Shows, begin_of, segment_named, target_at, word_named};
ghost use Rattle.cap_explain.specs.declared.numbers.MessageStart.{MessageStart};
ghost use Rattle.cap_explain.specs.declared.numbers.Numbers.{Numbers};
ghost use Rattle.cap_explain.specs.declared.target.Target.{Target};
ghost use Rattle.cap_spec.specs.Following.{IsComposite, Leads, to_object};
ghost use Rattle.cap_spec.specs.Messages.{HasWord};
ghost use Rattle.cap_spec.specs.Occupying.{IsFirstOverlap};
ghost use Rattle.cap_spec.specs.declared.Step.{Step};
ghost use Rattle.cap_spec.specs.declared.StrictRefusal.{StrictRefusal};
ghost use Rattle.cap_walk.specs.Demands.{IsDemandFault, words_under};
ghost use Rattle.cap_walk.specs.declared.demands.Demands.{Demands};
ghost use Rattle.std.specs.Prelude.{◌≡◌, ◌↔◌, List, Option, Some, pos, ℕ, ℤ};

/// The target that the lines show is the object that the pointer leads to, and there is no such line
/// otherwise. It is in the segment that they say the pointer leads into. They show the tag of a list of
/// structs exactly if the list begins inside its segment (encoding: Inter-Segment Pointers, Lists).
pub fn target_is_where_the_pointer_leads()
    ensures shown { (m : List (List ℕ)) (s w p k t : ℕ) (b : ℤ) (q : ℕ) → HasWord m s w p →
        Leads m s w k (to_object t b q) → Shows (target_at m s w p) t b q }
    ensures leads { (m : List (List ℕ)) (s w p t : ℕ) (b : ℤ) (q : ℕ) → HasWord m s w p →
        Shows (target_at m s w p) t b q → (k : ℕ) × Leads m s w k (to_object t b q) }
    ensures segment { (m : List (List ℕ)) (s w p t : ℕ) (b : ℤ) (q : ℕ) → HasWord m s w p →
        Shows (target_at m s w p) t b q → segment_after s p (landing_of m p) ≡ t }
    ensures tag { (m : List (List ℕ)) (t : Target) (tag : ℕ) → list_tag m t ≡ Some tag ↔
        (IsComposite t.word × (b : ℕ) × (begin_of t ≡ pos b) × HasWord m t.segment b tag) }
{}

/// The sentence that explains why a message doesn't meet demands is true of it, and of the pointer that
/// is named, under the limits that it passes. So is the sentence that explains an overlap.
pub fn reason_is_true()
    ensures refused { (demands : Demands) (m : List (List ℕ)) (words depth : ℕ)
        (fault : StrictRefusal) (path : Option (List Step)) (k : Numbers) →
        IsDemandFault demands m words depth fault → HasTrueReason m (words_under demands m words)
        depth (segment_named fault) (word_named fault) (explanation path m fault k) }
    ensures overlap { (m : List (List ℕ)) (words depth s w pointers : ℕ)
        (path : Option (List Step)) (start : Option MessageStart) → IsFirstOverlap m s w pointers →
        HasTrueReason m words depth s w (overlap_explanation path m start s w) }
{}
