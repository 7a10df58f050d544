//! Where paths lead in a message.

ghost use Rattle.std.specs.Prelude.{ℕ, true, length, List, [], ◌∷◌, ◌++◌, ◌≡◌, ◌↔◌, ◌⊎◌, ◌+◌, ◌^◌, ◌≤◌, Some};
ghost use Rattle.cap_spec.specs.declared.Step.{Step};
ghost use Rattle.cap_spec.specs.declared.Step.TheVariants.{Item, Ptr};
ghost use Rattle.cap_spec.specs.Tree.{Tree, node_at, pointer_count, cap_count, has_cap};
ghost use Rattle.cap_spec.specs.Denoting.{Denotes};
ghost use Rattle.cap_spec.specs.Paths.{Spot, StepsTo, PathLeads, ReachesSpot, Reaches, Before, Rises, IsTour, IsFirstCap, level_of, ReachesCap};
ghost use Rattle.cap_spec.specs.Lists.{IsOneOf, AreDistinct};
ghost use Rattle.cap_spec.specs.SpotTrees.{DenotesAt};
ghost use Rattle.cap_spec.specs.PathTexts.{IsPath, IsBadAt, IsStep, path_text};
ghost use Rattle.std.specs.List.{AllByRecursion};
ghost use Rattle.cap_laws.specs.ReachingLaws.{ReachesSome};

/// A path reaches at most one pointer word, at one level: one step leads from a spot to one spot,
/// and a path comes to one spot.
pub fn one_spot()
    ensures step { (m : List (List ℕ)) (a : Spot) (step : Step) (b b' : Spot) →
        StepsTo m a step b → StepsTo m a step b' → b ≡ b' }
    ensures walk { (m : List (List ℕ)) (a : Spot) (path : List Step) (n n' : ℕ) (b b' : Spot) →
        PathLeads m a path n b → PathLeads m a path n' b' → (n ≡ n') × (b ≡ b') }
    ensures path { (m : List (List ℕ)) (path : List Step) (level level' : ℕ) (a b : Spot) →
        ReachesSpot m path level a → ReachesSpot m path level' b → (level ≡ level') × (a ≡ b) }
    ensures pointer_word { (m : List (List ℕ)) (path : List Step) (level level' s w s' w' : ℕ) →
        Reaches m path level s w → Reaches m path level' s' w' →
        (level ≡ level') × (s ≡ s') × (w ≡ w') }
{}

/// A path and one more step leads to where that step leads from where the path leads; the levels
/// add up.
pub fn last_step()
    ensures walk { (m : List (List ℕ)) (a c : Spot) (path : List Step) (step : Step) (n : ℕ) →
        PathLeads m a (path ++ step ∷ []) n c
        ↔ ((b : Spot) × (n' : ℕ) × PathLeads m a path n' b × StepsTo m b step c × (n ≡ n' + level_of c)) }
    ensures path { (m : List (List ℕ)) (path : List Step) (step : Step) (level : ℕ) (c : Spot) →
        ReachesSpot m (path ++ step ∷ []) level c
        ↔ ((b : Spot) × (level' : ℕ) × ReachesSpot m path level' b × StepsTo m b step c
        × (level ≡ level' + level_of c)) }
{}

/// From where a path comes to, no step to pointer 65,535 or a later one leads anywhere. No step to
/// element 2^30 or a later one ever does.
pub fn high_numbers_lead_to_no_node()
    ensures pointer { (m : List (List ℕ)) (path : List Step) (level i : ℕ) (a b : Spot) →
        ReachesSpot m path level a → 65535 ≤ i → ¬ StepsTo m a (Ptr i) b }
    ensures element { (m : List (List ℕ)) (a b : Spot) (i : ℕ) → 2 ^ 30 ≤ i → ¬ StepsTo m a (Item i) b }
{}

/// If the root denotes a tree, a path comes to a spot exactly if the tree has a node at the path,
/// and that node is at the spot.
pub fn path_arrives_at_node()
    ensures node { (m : List (List ℕ)) (t : Tree) (c d : ℕ) → Denotes m 0 0 t c d →
        (path : List Step) (level : ℕ) (spot : Spot) → ReachesSpot m path level spot →
        (u : Tree) × (node_at t path ≡ Some u) × DenotesAt m spot u }
    ensures spot { (m : List (List ℕ)) (t : Tree) (c d : ℕ) → Denotes m 0 0 t c d →
        (path : List Step) (u : Tree) → node_at t path ≡ Some u →
        (level : ℕ) × (spot : Spot) × ReachesSpot m path level spot × DenotesAt m spot u }
{}

/// Preorder is a strict order of all paths. Of two paths that lead to spots in one message, one
/// comes before the other unless they are equal. (A step to a struct's pointer and one to a list's
/// element may have one number, but no spot has both.)
pub fn preorder_is_a_strict_total_order()
    ensures irreflexive { (p : List Step) → ¬ Before p p }
    ensures transitive { (p q r : List Step) → Before p q → Before q r → Before p r }
    ensures total { (m : List (List ℕ)) (p q : List Step) (level level' : ℕ) (a b : Spot) →
        ReachesSpot m p level a → ReachesSpot m q level' b → (p ≡ q) ⊎ Before p q ⊎ Before q p }
    ensures beginning_first { (p : List Step) (step : Step) (q : List Step) →
        Before p (p ++ step ∷ q) }
{}

/// The tour up to a path is the only one, and has no path twice. The first capability in preorder
/// is one pointer word.
pub fn one_tour()
    ensures one { (m : List (List ℕ)) (p : List Step) (tour tour' : List (List Step)) →
        IsTour m p tour → IsTour m p tour' → tour ≡ tour' }
    ensures distinct { (m : List (List ℕ)) (p : List Step) (tour : List (List Step)) →
        IsTour m p tour → AreDistinct tour }
    ensures first_cap { (m : List (List ℕ)) (s w s' w' : ℕ) →
        IsFirstCap m s w → IsFirstCap m s' w' → (s ≡ s') × (w ≡ w') }
{}

/// Where a path reaches a pointer word, and a longer path through it reaches the same word again,
/// neither that word nor the root denotes a tree.
pub fn reached_cycle_denotes_no_tree()
    ensures root { (m : List (List ℕ)) (path : List Step) (step : Step) (on : List Step)
        (level level' s w : ℕ) →
        Reaches m path level s w → Reaches m (path ++ step ∷ on) level' s w →
        (t : Tree) (c d : ℕ) → ¬ Denotes m 0 0 t c d }
    ensures word { (m : List (List ℕ)) (path : List Step) (step : Step) (on : List Step)
        (level level' s w : ℕ) →
        Reaches m path level s w → Reaches m (path ++ step ∷ on) level' s w →
        (t : Tree) (c d : ℕ) → ¬ Denotes m s w t c d }
{}

/// If the root denotes a tree, its pointers are as many as the paths that reach a pointer word. Its
/// capabilities are as many as the paths that reach a capability. There is a rising list of exactly
/// these paths, of that length. A tree has a capability exactly if some pointer word is the first
/// in preorder that leads to one.
pub fn counts_are_numbers_of_paths()
    ensures pointers { (m : List (List ℕ)) (t : Tree) (c d : ℕ) → Denotes m 0 0 t c d →
        (paths : List (List Step)) × Rises paths × (length paths ≡ pointer_count t)
        × ((q : List Step) → IsOneOf q paths ↔ ReachesSome m q) }
    ensures caps { (m : List (List ℕ)) (t : Tree) (c d : ℕ) → Denotes m 0 0 t c d →
        (paths : List (List Step)) × Rises paths × (length paths ≡ cap_count t)
        × ((q : List Step) → IsOneOf q paths ↔ ReachesCap m q) }
    ensures first_cap { (m : List (List ℕ)) (t : Tree) (c d : ℕ) → Denotes m 0 0 t c d →
        (has_cap t ≡ true) ↔ ((s w : ℕ) × IsFirstCap m s w) }
{}

/// A text is of at most one path. A text that is of none is bad at one place: at no two, and not at
/// none. A text of a path is bad at no place.
pub fn one_path_text()
    ensures path { (xs ys : List Step) → AllByRecursion IsStep xs → AllByRecursion IsStep ys →
        path_text xs ≡ path_text ys → xs ≡ ys }
    ensures bad { (text : List ℕ) (at at' : ℕ) → IsBadAt text at → IsBadAt text at' → at ≡ at' }
    ensures at_some_place { (text : List ℕ) → ¬ IsPath text → ¬ ((at : ℕ) → ¬ IsBadAt text at) }
    ensures apart { (text : List ℕ) (at : ℕ) → IsPath text → ¬ IsBadAt text at }
{}
