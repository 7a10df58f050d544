//! What following a pointer word comes to.

ghost use Rattle.cap_laws.specs.FollowingLaws.{OneOutcome};
ghost use Rattle.cap_spec.specs.Following.{Lead, Leads};
ghost use Rattle.std.specs.Prelude.{◌≡◌, List, ℕ};

/// Of each word of a message exactly one thing is so: exactly one reason is wrong there, or it
/// leads to null, or to a capability, or to an object that sits inside its segment.
pub fn one_outcome()
    ensures { OneOutcome }
{}

/// A pointer word leads to one thing at most, over one number of pads.
pub fn one_lead()
    ensures { (m : List (List ℕ)) (s w k l : ℕ) (r r' : Lead) →
        Leads m s w k r → Leads m s w l r' → (k ≡ l) × (r ≡ r') }
{}
