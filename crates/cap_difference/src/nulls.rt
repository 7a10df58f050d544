//! Whether a pointer word denotes null.

ghost use Rattle.cap_difference.specs.Reasons.{IsNullAt};
ghost use Rattle.cap_spec.specs.Messages.{segment_of};
ghost use Rattle.std.specs.Prelude.{◌<◌, ◌↔◌, IsTrue, length};

use cap_frame::Segments;
use cap_ptr::{Followed, follow};

/// Whether word `w` of segment `s` denotes null: it is zero, or the landing pad that it leads to is.
pub(crate) fn is_null<M: Segments>(message: &M, s: u32, w: u32) -> bool
    requires exists { s < length (M.segments message.now) }
    requires inside { w < length (segment_of (M.segments message.now) s) }
    ensures { IsTrue result ↔ IsNullAt (M.segments message.now) s w }
{
    match follow(message, s, w) {
        Ok(Followed::Null { .. }) => true,
        Ok(Followed::Cap { .. }) => false,
        Ok(Followed::Target(_)) => false,
        Err(_) => false,
    }
}
