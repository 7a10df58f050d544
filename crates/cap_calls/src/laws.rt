//! What the flags mean: with both a call accepts what [`cap_vet::vet`] does. With higher limits or more
//! of these flags no call refuses more. Separate segments are vetted as their frame is. A first
//! difference has the answer of the check.

ghost use Rattle.cap_calls.specs.CallFindings.{JudgesAny, Returns, ReportsCall, ReportsWhole};
ghost use Rattle.cap_calls.specs.CallFlags.{AllowsMore, demands_of};
ghost use Rattle.cap_calls.specs.CallFrames.{AreLimits};
ghost use Rattle.cap_calls.specs.CallInputs.{AreInputLimits};
ghost use Rattle.cap_calls.specs.CallLaws.{AreBytes, PointerCall, RefusesNothing, WritesCopy};
ghost use Rattle.cap_calls.specs.Calls.{IsCheck, IsGood, ReportsCheck, ReportsCheckWords, ReportsFrame, ReportsVet};
ghost use Rattle.cap_calls.specs.CanonicalCalls.{ReportsAnyCopy, ReportsCopy};
ghost use Rattle.cap_calls.specs.DifferenceCalls.{IsDifferent, ReportsDifference};
ghost use Rattle.cap_calls.specs.EarlierCalls.{ReportsEarlierCall};
ghost use Rattle.cap_calls.specs.ExclusiveCalls.{MarksAny, ReportsExclusive};
ghost use Rattle.cap_calls.specs.ExplainCalls.{ReportsExplanation};
ghost use Rattle.cap_calls.specs.ExtentCalls.{ReportsExtents};
ghost use Rattle.cap_calls.specs.NodeCalls.{ReportsGet};
ghost use Rattle.cap_calls.specs.PackedMessages.{ReportsPackMessage};
ghost use Rattle.cap_calls.specs.PointerCalls.{ReportsPointer};
ghost use Rattle.cap_calls.specs.RangeCalls.{RangeCall, ReportsRange};
ghost use Rattle.cap_calls.specs.SegmentsCalls.{FramesParts, ReportsSegmentsCall};
ghost use Rattle.cap_calls.specs.UnpackingMessages.{Unpacked, UnpacksTo};
ghost use Rattle.cap_calls.specs.declared.answer.Answer.{Answer};
ghost use Rattle.cap_calls.specs.declared.answer.Answer.TheVariants.{Good, NoNode, NotCanonical, TooLarge};
ghost use Rattle.cap_calls.specs.declared.extent.CallExtent.{CallExtent};
ghost use Rattle.cap_calls.specs.declared.found.Found.{Found};
ghost use Rattle.cap_calls.specs.declared.limits.CallLimits.{CallLimits};
ghost use Rattle.cap_calls.specs.declared.node.CallNode.{CallNode};
ghost use Rattle.cap_calls.specs.declared.report.CallReport.{CallReport};
ghost use Rattle.cap_calls.specs.declared.unpacking.Unpacking.{Unpacking};
ghost use Rattle.cap_spec.specs.Accepting.{IsWithin};
ghost use Rattle.cap_spec.specs.Faults.{IsRefused};
ghost use Rattle.cap_spec.specs.Getting.{IsRefusedOnPath};
ghost use Rattle.cap_spec.specs.GreatestLimits.{most_words};
ghost use Rattle.cap_spec.specs.declared.Refusal.{Refusal};
ghost use Rattle.cap_spec.specs.declared.Step.{Step};
ghost use Rattle.cap_spec.specs.declared.StrictRefusal.{StrictRefusal};
ghost use Rattle.cap_spec.specs.declared.StrictRefusal.TheVariants.{Refused};
ghost use Rattle.cap_vet.specs.PathDemands.{IsPathFault, KeepsToLimits, MeetsOnPath};
ghost use Rattle.cap_walk.specs.Demands.{IsDemandFault, Meets, no_demands};
ghost use Rattle.std.specs.Prelude.{◌*◌, ◌<◌, ◌≡◌, ◌≢◌, ◌≤◌, ◌↔◌, List, length, true, ℕ, ⊤};

/// With both flags a call judges the message that bytes start with by their form as `vet` of the crate
/// `cap_vet` does, within the limits of charge and depth, and demands nothing else of it. For
/// [`crate::check_canonical`] and [`crate::first_difference`] no bytes may follow the message all the
/// same. Nor is anything else demanded by [`crate::vet_segments`] and [`crate::explain`] of a message, and
/// by [`crate::get`] and [`crate::get_range`] of the pointers on a path.
pub fn all_flags_demand_nothing()
    ensures vet { (l : CallLimits) (bytes : List ℕ) (a : Answer) (r : CallReport) → l.flags ≡ 3 →
        l.form ≡ 1 → ReportsVet l bytes a r ↔
        ((f : Found) × ReportsCall ⊤ (JudgesAny ⊤ IsGood) l bytes f × Returns f a r) }
    ensures exclusive { (l : CallLimits) (bytes : List ℕ) (size : ℕ) (a : Answer) (n : ℕ)
        (r : CallReport) → l.flags ≡ 3 → l.form ≡ 1 → ReportsExclusive l bytes size a n r ↔
        ((f : Found) × ReportsCall ⊤ (MarksAny size) l bytes f × Returns f a r × (n ≡ f.count)) }
    ensures canonical { (l : CallLimits) (bytes old : List ℕ) (a : Answer) (n : ℕ) (new : List ℕ)
        (r : CallReport) → l.flags ≡ 3 → l.form ≡ 1 →
        ReportsCopy l bytes old a n new r ↔ ReportsAnyCopy l bytes old a n new r }
    ensures check_canonical { (l : CallLimits) (bytes : List ℕ) (a : Answer) (r : CallReport) →
        l.flags ≡ 3 → l.form ≡ 1 → ReportsCheck l bytes a r ↔
        ((f : Found) × ReportsWhole true ⊤ (JudgesAny ⊤ IsCheck) l bytes f × Returns f a r) }
    ensures first_difference { (l : CallLimits) (bytes : List ℕ) (a : Answer) (r : CallReport) →
        l.flags ≡ 3 → l.form ≡ 1 → ReportsDifference l bytes a r ↔
        ((f : Found) × ReportsWhole true ⊤ (JudgesAny ⊤ IsDifferent) l bytes f × Returns f a r) }
    ensures demands { (l : CallLimits) → l.flags ≡ 3 → demands_of l ≡ no_demands }
    ensures message { (m : List (List ℕ)) (words depth : ℕ) →
        Meets no_demands m words depth ↔ IsWithin m words depth }
    ensures message_refusal { (m : List (List ℕ)) (words depth : ℕ) (fault : StrictRefusal) →
        IsDemandFault no_demands m words depth fault ↔
        ((refusal : Refusal) × IsRefused m words depth refusal × (fault ≡ Refused refusal)) }
    ensures path { (m : List (List ℕ)) (words depth : ℕ) (path : List Step) →
        MeetsOnPath no_demands m words depth path ↔ KeepsToLimits m words depth path }
    ensures path_refusal { (m : List (List ℕ)) (words depth : ℕ) (path : List Step)
        (fault : StrictRefusal) → IsPathFault no_demands m words depth path fault ↔
        ((refusal : Refusal) × IsRefusedOnPath m words depth path refusal
        × (fault ≡ Refused refusal)) }
{}

/// With higher limits and more flags, and with the form of a prefix in place of a whole message, these
/// sixteen calls refuse no more: what one returns without refusing the input or its message it returns
/// then too, with the same report. The form of words has to be the same, because it says how the bytes
/// are read. [`crate::pointer_path`] and [`crate::earlier_pointer`] may find a pointer then that they
/// didn't find before.
pub fn wider_limits_refuse_no_more()
    ensures vet { (l k : CallLimits) (bytes : List ℕ) (a : Answer) (r : CallReport) →
        AreInputLimits k → AllowsMore l k → RefusesNothing a →
        ReportsVet l bytes a r → ReportsVet k bytes a r }
    ensures exclusive { (l k : CallLimits) (bytes : List ℕ) (size : ℕ) (a : Answer) (n : ℕ)
        (r : CallReport) → AreInputLimits k → AllowsMore l k → RefusesNothing a →
        ReportsExclusive l bytes size a n r → ReportsExclusive k bytes size a n r }
    ensures canonical { (l k : CallLimits) (bytes old : List ℕ) (a : Answer) (n : ℕ) (new : List ℕ)
        (r : CallReport) → AreInputLimits k → AllowsMore l k → RefusesNothing a →
        ReportsCopy l bytes old a n new r → ReportsCopy k bytes old a n new r }
    ensures check_canonical { (l k : CallLimits) (bytes : List ℕ) (a : Answer) (r : CallReport) →
        AreInputLimits k → AllowsMore l k → RefusesNothing a →
        ReportsCheck l bytes a r → ReportsCheck k bytes a r }
    ensures check_words { (l k : CallLimits) (words : List ℕ) (a : Answer) (r : CallReport) →
        AreInputLimits k → AllowsMore l k → RefusesNothing a →
        ReportsCheckWords l words a r → ReportsCheckWords k words a r }
    ensures first_difference { (l k : CallLimits) (bytes : List ℕ) (a : Answer) (r : CallReport) →
        AreInputLimits k → AllowsMore l k → RefusesNothing a →
        ReportsDifference l bytes a r → ReportsDifference k bytes a r }
    ensures segments { (l k : CallLimits) (parts : List (List ℕ)) (a : Answer) (r : CallReport) →
        AreLimits k → AllowsMore l k → RefusesNothing a →
        ReportsSegmentsCall l parts a r → ReportsSegmentsCall k parts a r }
    ensures frame { (l k : CallLimits) (bytes : List ℕ) (a : Answer) (r : CallReport) →
        AreLimits k → AllowsMore l k → RefusesNothing a →
        ReportsFrame l bytes a r → ReportsFrame k bytes a r }
    ensures extents { (l k : CallLimits) (bytes : List ℕ) (old : List CallExtent) (a : Answer)
        (n : ℕ) (new : List CallExtent) (r : CallReport) →
        AreLimits k → AllowsMore l k → RefusesNothing a →
        ReportsExtents l bytes old a n new r → ReportsExtents k bytes old a n new r }
    ensures explain { (l k : CallLimits) (bytes old : List ℕ) (a : Answer) (n : ℕ) (new : List ℕ)
        (r : CallReport) → AreInputLimits k → AllowsMore l k → RefusesNothing a →
        ReportsExplanation l bytes old a n new r → ReportsExplanation k bytes old a n new r }
    ensures get { (l k : CallLimits) (bytes text : List ℕ) (a : Answer) (node : CallNode)
        (r : CallReport) → AreLimits k → AllowsMore l k → RefusesNothing a →
        ReportsGet l bytes text a node r → ReportsGet k bytes text a node r }
    ensures get_range { (l k : CallLimits) (bytes : List ℕ) (c : RangeCall l bytes) →
        AreLimits k → AllowsMore l k → RefusesNothing c.returned →
        ReportsRange k bytes c.steps c.varying c.before c.returned c.count c.after c.report }
    ensures pointer_path { (l k : CallLimits) (bytes : List ℕ) (n : ℕ) (c : PointerCall l bytes n) →
        AreInputLimits k → AllowsMore l k → RefusesNothing c.returned → c.returned ≢ NoNode →
        ReportsPointer k bytes n c.before c.returned c.required c.after c.report }
    ensures earlier_pointer { (l k : CallLimits) (bytes : List ℕ) (n : ℕ) (a : Answer)
        (r : CallReport) → AreInputLimits k → AllowsMore l k → RefusesNothing a → a ≢ NoNode →
        ReportsEarlierCall l bytes n a r → ReportsEarlierCall k bytes n a r }
    ensures pack_message { (l k : CallLimits) (bytes old : List ℕ) (a : Answer) (n : ℕ)
        (new : List ℕ) (r : CallReport) → AreLimits k → AllowsMore l k → RefusesNothing a →
        ReportsPackMessage l bytes old a n new r → ReportsPackMessage k bytes old a n new r }
    ensures unpack_message { (l k : CallLimits) (bytes old : List ℕ) (state : Unpacking)
        (u : Unpacked) → AreLimits k → AllowsMore l k → RefusesNothing u.answer →
        UnpacksTo l bytes old state u → UnpacksTo k bytes old state u }
{}

/// What [`crate::vet_segments`] returns of separate segments, [`crate::vet`] returns of the bytes that
/// frame them, with the same report apart from its length.
pub fn separate_segments_are_vetted_as_framed()
    ensures { (l : CallLimits) (parts : List (List ℕ)) (bytes : List ℕ) (a : Answer)
        (r : CallReport) → FramesParts l parts bytes → ReportsSegmentsCall l parts a r →
        ReportsVet l bytes a (record r { length = length bytes }) }
{}

/// The answer of [`crate::first_difference`] is that of [`crate::check_canonical`], for the same bytes and
/// limits. But for [`Answer::NotCanonical`](crate::Answer::NotCanonical) the report is too. With that answer
/// the reports differ in the number of the reason, the place and the number of the pointer alone.
pub fn first_differences_have_the_answer_of_the_check()
    ensures answer { (l : CallLimits) (bytes : List ℕ) (a b : Answer) (r q : CallReport) →
        ReportsDifference l bytes a r → ReportsCheck l bytes b q → a ≡ b }
    ensures same { (l : CallLimits) (bytes : List ℕ) (a b : Answer) (r q : CallReport) →
        ReportsDifference l bytes a r → ReportsCheck l bytes b q → a ≢ NotCanonical → r ≡ q }
    ensures report { (l : CallLimits) (bytes : List ℕ) (a b : Answer) (r q : CallReport) →
        ReportsDifference l bytes a r → ReportsCheck l bytes b q → r ≡ record q {
          detail = r.detail;
          pointers = r.pointers;
          segment = r.segment;
          word = r.word;
        } }
{}

/// What [`crate::canonical`] wrote is canonical for [`crate::check_canonical_words`] with the same limits,
/// if it has at most 268435456 words. Its charge is then at most the message's, and its depth is the
/// message's. A copy of more words is too large. It has more only if the limit of the charge is the
/// greatest one: a copy has at most one word more than the message's charge. It may have more words than
/// the message, and more than the limit of these.
pub fn copies_pass_within_the_same_limits()
    ensures good { (l : CallLimits) (bytes copy : List ℕ) (r : CallReport) (a : Answer)
        (q : CallReport) → AreBytes bytes → WritesCopy l bytes copy r →
        ReportsCheckWords l copy a q → length copy ≤ 8 * most_words →
        (a ≡ Good) × (q.charge ≤ r.charge) × (q.depth ≡ r.depth) }
    ensures too_large { (l : CallLimits) (bytes copy : List ℕ) (r : CallReport) (a : Answer)
        (q : CallReport) → WritesCopy l bytes copy r → ReportsCheckWords l copy a q →
        8 * most_words < length copy → a ≡ TooLarge }
    ensures few_words { (l : CallLimits) (bytes copy : List ℕ) (r : CallReport) →
        WritesCopy l bytes copy r → l.charge < most_words → length copy ≤ 8 * most_words }
{}
