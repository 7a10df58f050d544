//! Tables of the segments of a message: their sizes, and where each starts.

ghost use Rattle.cap_frame.specs.Bytes.{starts_of};
ghost use Rattle.cap_spec.specs.GreatestLimits.{most_words};
ghost use Rattle.std.specs.Prelude.{◌≡◌, ◌≤◌, [], length, sum};

use crate::table::{Sizes, empty};

/// Where each segment of a message starts, in words.
pub(crate) type Starts = Sizes;

/// A buffer of 4 KiB for how many words each segment of a message has, and where it starts.
/// Allocates nothing.
#[derive(Drop)]
pub struct SegmentTables {
    pub(crate) sizes: Sizes,
    pub(crate) starts: Starts,
}

impl SegmentTables {
    ghost use Rattle.cap_frame.specs.Framed.{sizes_held};

    /// A buffer of 4 KiB that holds no tables yet.
    pub fn new() -> SegmentTables
        ensures { sizes_held result ≡ [] }
    {
        SegmentTables {
            sizes: Sizes::new(),
            starts: Starts::new(),
        }
    }
}

/// Where segments of these sizes start, one after the other.
pub(crate) fn fill_starts(sizes: &[u32], starts: &mut Starts)
    requires few { length sizes.now ≤ 512 }
    requires small { sum sizes.now ≤ most_words }
    ensures { starts.new.items ≡ starts_of 0 sizes.now }
{
    empty(starts);
    let mut at = 0u32;
    'segments: for size in sizes {
        starts.push(at);
        at += *size;
    }
}
