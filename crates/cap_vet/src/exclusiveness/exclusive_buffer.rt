//! An accepted message as one of which no word is used twice, with the caller's buffer for the marks.

ghost use Rattle.cap_frame.specs.SegmentStarts.{start_of};
ghost use Rattle.cap_spec.specs.GreatestLimits.{most_depth, most_words};
ghost use Rattle.cap_spec.specs.Occupying.{IsDisjoint};
ghost use Rattle.cap_spec.specs.declared.Refusal.{Refusal};
ghost use Rattle.cap_vet.specs.Exclusives.{IsExclusiveFault, KeepsUnused, vetted_of};
ghost use Rattle.cap_vet.specs.Overlapping.{EndsMarking};
ghost use Rattle.cap_vet.specs.Taken.{marks_of};
ghost use Rattle.cap_vet.specs.Vettings.{message_of};
ghost use Rattle.cap_vet.specs.declared.exclusiveness.exclusive_buffer.ExclusiveFault.{ExclusiveFault};
ghost use Rattle.cap_walk.specs.Reports.{IsAccepted};
ghost use Rattle.cap_walk.specs.declared.report.Report.{Report};
ghost use Rattle.std.specs.Prelude.{Err, ◌*◌, ◌≡◌, ◌≤◌, IfErr, IfOk, IsErrOf, IsOk, drop, length};

use crate::exclusiveness::exclusive::Exclusive;
use crate::exclusiveness::exclusive_vetting::first_overlap;
use crate::exclusiveness::marks::numbers_for;
use crate::exclusiveness::overlap_turn::Overlap;
use crate::nodes::vetted::Vetted;
use cap_frame::Segments;
use cap_spec::Refusal;
use cap_walk::Report;

/// Why a message isn't found exclusive with the caller's buffer.
#[derive(Clone, Copy, Debug, PartialEq, Eq, Drop)]
pub enum ExclusiveFault {
    /// It isn't accepted at all.
    Refused(Refusal),
    /// It is accepted, and the buffer is too small.
    BufferTooSmall {
        /// How many numbers the marks take.
        needed: usize,
        /// The report of `vet`.
        report: Report,
    },
    /// It is accepted, and a pointer uses a word twice, the root word, or a word that an earlier pointer
    /// uses.
    Overlap {
        /// The segment of the first such pointer in preorder.
        segment: u32,
        /// Its word in that segment.
        word: u32,
        /// How many pointer words were looked at, that one included.
        pointers: u64,
    },
}

impl<'m, M: Segments> Vetted<'m, M> {
    /// As [`into_exclusive`](Vetted::into_exclusive), with the marks in the caller's buffer `marks`.
    /// Walks the message once more, up to the first overlap. Allocates nothing. The buffer may hold
    /// anything. Its first [`crate::marks_for`] numbers, for the words of the message, are cleared and
    /// used. The numbers after these stay as they are.
    ///
    /// # Errors
    ///
    /// [`ExclusiveFault::Refused`] is never returned, since the message is accepted.
    ///
    /// - [`ExclusiveFault::BufferTooSmall`]: the buffer has fewer numbers than the marks take. It is as it
    ///   was.
    /// - [`ExclusiveFault::Overlap`]: a pointer overlaps. It is the first in preorder that uses a
    ///   word which is used already.
    pub fn into_exclusive_in(self, marks: &mut [u64]) -> Result<Exclusive<'m, M>, ExclusiveFault>
        ensures ok { let m = M.segments (message_of self.entry) in
            IfOk result (λ e. IsDisjoint m × (marks_of m ≤ length marks.old)) }
        ensures value { IfOk result (λ e. vetted_of e ≡ self.entry) }
        ensures err { let m = M.segments (message_of self.entry) in
            IfErr result (IsExclusiveFault m most_words most_depth (length marks.old)) }
        ensures not_refused { (r : Refusal) → ¬ IsErrOf result (ExclusiveFault.Refused r) }

        // The other direction.
        ensures accepts { let m = M.segments (message_of self.entry) in
            IsDisjoint m → marks_of m ≤ length marks.old → IsOk result }
        ensures refuses { let m = M.segments (message_of self.entry) in (fault : ExclusiveFault) →
            IsExclusiveFault m most_words most_depth (length marks.old) fault → result ≡ Err fault }

        // The numbers of the buffer after the call.
        ensures rest { let n = marks_of (M.segments (message_of self.entry)) in
            drop n marks.new ≡ drop n marks.old }
        ensures kept { IfErr result (λ fault. KeepsUnused fault marks.old marks.new) }
    {
        let needed = numbers_for(self.message);
        if marks.len() < needed {
            return Err(ExclusiveFault::BufferTooSmall {
                needed,
                report: self.report,
            });
        }
        match overlap_over(self.message, &mut marks[..needed]) {
            None => Ok(Exclusive { vetted: self }),
            Some(overlap) => Err(ExclusiveFault::Overlap {
                segment: overlap.segment,
                word: overlap.word,
                pointers: overlap.pointers,
            }),
        }
    }
}

// The first pointer that overlaps in an accepted message. Clears the marks first, whatever they are.
fn overlap_over<M: Segments>(message: &M, bits: &mut [u64]) -> Option<Overlap>
    requires enough { let m = M.segments message.now in
        start_of m (length m) ≤ 64 * length bits.old }
    requires accepted { (report : Report)
        × IsAccepted (M.segments message.now) most_words most_depth report }
    ensures { EndsMarking (M.segments message.now) result }
{
    bits.fill(0);
    first_overlap(message, bits)
}
