//! Whether structs, alone or in a list, end in zeros or in null pointers.

ghost use Rattle.cap_difference.specs.Reasons.{EndInNulls, EndInZeros};
ghost use Rattle.cap_spec.specs.Messages.{segment_of};
ghost use Rattle.std.specs.Prelude.{◌+◌, ◌*◌, ◌<◌, ◌≤◌, ◌↔◌, IsTrue, length};

use crate::nulls::is_null;
use cap_frame::Segments;

/// Structs of one size in a row: the struct of a pointer, or the elements of a list.
#[derive(Clone, Copy, Drop)]
pub(crate) struct StructRow {
    pub(crate) segment: u32,
    /// The first word of the first of them.
    pub(crate) first: u32,
    pub(crate) count: u32,
    pub(crate) data_words: u16,
    pub(crate) pointers: u16,
}

/// Whether they have data words, and the last one of each is zero.
pub(crate) fn end_in_zeros<M: Segments>(message: &M, row: StructRow) -> bool
    requires exists { row.segment < length (M.segments message.now) }
    requires inside { row.first + row.count * (row.data_words + row.pointers)
        ≤ length (segment_of (M.segments message.now) row.segment) }
    ensures { IsTrue result ↔ EndInZeros (M.segments message.now)
        row.segment row.first row.count row.data_words row.pointers }
{
    if row.data_words == 0 {
        return false;
    }
    let each = u32::from(row.data_words) + u32::from(row.pointers);
    let last = u32::from(row.data_words) - 1;
    'elements: for k in 0..row.count {
        if message.word(row.segment, row.first + k * each + last) != 0 {
            return false;
        }
    }
    true
}

/// Whether they have pointers, and the last one of each denotes null.
pub(crate) fn end_in_nulls<M: Segments>(message: &M, row: StructRow) -> bool
    requires exists { row.segment < length (M.segments message.now) }
    requires inside { row.first + row.count * (row.data_words + row.pointers)
        ≤ length (segment_of (M.segments message.now) row.segment) }
    ensures { IsTrue result ↔ EndInNulls (M.segments message.now)
        row.segment row.first row.count row.data_words row.pointers }
{
    if row.pointers == 0 {
        return false;
    }
    let each = u32::from(row.data_words) + u32::from(row.pointers);
    let last = each - 1;
    'elements: for k in 0..row.count {
        if !is_null(message, row.segment, row.first + k * each + last) {
            return false;
        }
    }
    true
}
