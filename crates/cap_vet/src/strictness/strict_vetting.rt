//! The verdict of a message that has to be strict.

ghost use Rattle.cap_spec.specs.Strict.{IsStrict, IsStrictFault};
ghost use Rattle.cap_spec.specs.declared.StrictRefusal.{StrictRefusal};
ghost use Rattle.cap_vet.specs.Stricts.{vetted_of};
ghost use Rattle.cap_vet.specs.Vettings.{message_of, report_of};
ghost use Rattle.cap_walk.specs.Limits.{depth_of, words_of};
ghost use Rattle.cap_walk.specs.Reports.{IsAccepted};
ghost use Rattle.std.specs.Prelude.{Err, ◌≡◌, IfErr, IfOk, IsOk};

use crate::nodes::vetted::Vetted;
use crate::strictness::path_strictness::strict_fault;
use crate::strictness::strict::Strict;
use crate::strictness::strict_turn::LaxSearch;
use cap_frame::Segments;
use cap_spec::StrictRefusal;
use cap_walk::{Demands, Limits, Report, Stopped, walk};

/// Vets a message, and accepts it if it is also strict (profile). Then it has at most 511 segments,
/// and no path reaches a pointer of a form in [`crate::Lax`]. Walks once. Allocates nothing.
///
/// # Errors
///
/// - [`StrictRefusal::Refused`]: `vet` refuses the message.
/// - [`StrictRefusal::ManySegments`]: the message is accepted, and has 512 segments.
/// - [`StrictRefusal::Pointer`]: the message is accepted, has at most 511 segments, and a pointer
///   has one of these forms. The first in preorder is named. Its `pointers` counts the pointer words
///   that were looked at, that one included.
pub fn vet_strict<'m, M: Segments>(
    message: &'m M,
    limits: Limits,
) -> Result<Strict<'m, M>, StrictRefusal>
    ensures ok { let m = M.segments message.now in IfOk result (λ s.
        IsAccepted m (words_of limits) (depth_of limits) (report_of (vetted_of s))
        × IsStrict m (words_of limits) (depth_of limits)) }
    ensures message { IfOk result (λ s. message_of (vetted_of s) ≡ message.now) }
    ensures err { let m = M.segments message.now in
        IfErr result (IsStrictFault m (words_of limits) (depth_of limits)) }

    // The other direction.
    ensures accepts { let m = M.segments message.now in
        IsStrict m (words_of limits) (depth_of limits) → IsOk result }
    ensures refuses { let m = M.segments message.now in (r : StrictRefusal) →
        IsStrictFault m (words_of limits) (depth_of limits) r → result ≡ Err r }
{
    let mut search = LaxSearch { first: None };
    let mut report = Report::default();
    match walk(message, &limits, &mut search, &mut report) {
        Ok(()) => {}
        Err(Stopped::Refused(refusal)) => return Err(StrictRefusal::Refused(refusal)),
        Err(Stopped::ByTurn(never)) => match never {},
    }
    let demands = Demands {
        strict: true,
        unamplified: false,
    };
    match strict_fault(message, demands, search.first) {
        None => Ok(Strict {
            vetted: Vetted { message, report },
        }),
        Some(fault) => Err(fault),
    }
}
