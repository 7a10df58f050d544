//! Why an object isn't as a canonical copy has it.

ghost use Rattle.cap_difference.specs.Reasons.{Decides, ObjectDiffers};
ghost use Rattle.cap_ptr.specs.Shapes.{IsShapedObject};
ghost use Rattle.cap_spec.specs.Messages.{segment_of};
ghost use Rattle.cap_spec.specs.ObjectShapes.{HasKind};
ghost use Rattle.cap_spec.specs.declared.Kind.{Kind};
ghost use Rattle.std.specs.Prelude.{◌+◌, ◌<◌, ◌≤◌, length, ℕ};

use crate::lists::{StructList, Values, pointers_reason, structs_reason, values_reason};
use crate::reason::DifferenceReason;
use crate::structs::{OneStruct, struct_reason};
use cap_frame::Segments;
use cap_ptr::{Shape, Target};

/// The first reason why the object of a pointer word isn't as a copy has it from word `end` on.
#[inline(always)]
pub(crate) fn object_reason<M: Segments>(
    message: &M,
    pointer: u64,
    target: Target,
    end: u64,
) -> Option<DifferenceReason>
    requires exists { target.segment < length (M.segments message.now) }
    requires inside { target.start + target.words
        ≤ length (segment_of (M.segments message.now) target.segment) }
    requires object { (k q tag c : ℕ) × IsShapedObject (M.segments message.now) k
        target.segment target.start q tag target.words c target.shape }
    ensures { let m = M.segments message.now in (k q tag c : ℕ) (what : Kind) →
        IsShapedObject m k target.segment target.start q tag target.words c target.shape →
        HasKind q tag what →
        Decides (ObjectDiffers m end pointer target.segment target.start q what) result }
{
    match target.shape {
        Shape::Struct {
            data_words,
            pointers,
        } => struct_reason(
            message,
            OneStruct {
                pointer,
                segment: target.segment,
                start: target.start,
                data_words,
                pointers,
            },
            end,
        ),
        Shape::Scalars { code, count } => values_reason(
            message,
            Values {
                segment: target.segment,
                start: target.start,
                words: target.words,
                code,
                count,
            },
            end,
        ),
        Shape::Pointers { .. } => pointers_reason(target.start, end),
        Shape::Structs {
            words,
            count,
            data_words,
            pointers,
        } => structs_reason(
            message,
            StructList {
                segment: target.segment,
                start: target.start,
                words,
                count,
                data_words,
                pointers,
            },
            end,
        ),
    }
}
