//! The pointer that an answer names has its path, which the call for a path finds.

ghost use Rattle.cap_calls.specs.CallLaws.{FindsPlace, NamesPointer, PointerCall};
ghost use Rattle.cap_calls.specs.Calls.{ReportsVet};
ghost use Rattle.cap_calls.specs.DifferenceCalls.{ReportsDifference};
ghost use Rattle.cap_calls.specs.DifferenceNumbers.{reason_number};
ghost use Rattle.cap_calls.specs.EarlierCalls.{ReportsEarlierCall};
ghost use Rattle.cap_calls.specs.ExclusiveCalls.{ReportsExclusive};
ghost use Rattle.cap_calls.specs.declared.answer.Answer.{Answer};
ghost use Rattle.cap_calls.specs.declared.answer.Answer.TheVariants.{Good, NotCanonical};
ghost use Rattle.cap_calls.specs.declared.limits.CallLimits.{CallLimits};
ghost use Rattle.cap_calls.specs.declared.report.CallReport.{CallReport};
ghost use Rattle.cap_difference.specs.declared.reason.DifferenceReason.TheVariants.{Segments, Trailing};
ghost use Rattle.std.specs.Prelude.{◌≢◌, List, ℕ};

/// If an answer of [`crate::vet`] or [`crate::vet_exclusive`] names a pointer, its place and its number
/// are in the report. With the same bytes and limits [`crate::pointer_path`] finds the path to it by
/// this number. So it does for the pointer that [`crate::earlier_pointer`] finds, and for that of a first
/// difference, if its reason is about a pointer.
pub fn named_pointers_have_their_paths()
    ensures vet { (l : CallLimits) (bytes : List ℕ) (a : Answer) (r : CallReport) → NamesPointer a →
        ReportsVet l bytes a r → (c : PointerCall l bytes r.pointers) →
        FindsPlace l bytes r.pointers c r.segment r.word }
    ensures exclusive { (l : CallLimits) (bytes : List ℕ) (size : ℕ) (a : Answer) (n : ℕ)
        (r : CallReport) → NamesPointer a → ReportsExclusive l bytes size a n r →
        (c : PointerCall l bytes r.pointers) → FindsPlace l bytes r.pointers c r.segment r.word }
    ensures earlier { (l : CallLimits) (bytes : List ℕ) (n : ℕ) (r : CallReport) →
        ReportsEarlierCall l bytes n Good r → (c : PointerCall l bytes r.pointers) →
        FindsPlace l bytes r.pointers c r.segment r.word }
    ensures difference { (l : CallLimits) (bytes : List ℕ) (r : CallReport) →
        ReportsDifference l bytes NotCanonical r → r.detail ≢ reason_number Segments →
        r.detail ≢ reason_number Trailing → (c : PointerCall l bytes r.pointers) →
        FindsPlace l bytes r.pointers c r.segment r.word }
{}
