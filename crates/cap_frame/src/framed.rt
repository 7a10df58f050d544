//! A framed message at the start of borrowed bytes.

ghost use Rattle.cap_frame.specs.Bytes.{starts_of};
ghost use Rattle.cap_frame.specs.Fronts.{sizes_given, table_words};
ghost use Rattle.cap_spec.specs.Frames.{sizes_of};
ghost use Rattle.cap_spec.specs.GreatestLimits.{most_words};
ghost use Rattle.cap_spec.specs.Plain.{plain_words};
ghost use Rattle.std.specs.Prelude.{◌*◌, ◌+◌, ◌≡◌, ◌≤◌, ◌↔◌, IfSome, IsSome, length, sum};

use crate::byte_message::ByteView;
use crate::segment_tables::{SegmentTables, fill_starts};
use crate::segments::Segments;
use crate::table::Sizes;
use byteorder::{ByteOrder, LittleEndian};

/// The framed message at the start of borrowed bytes: its table is read, and its words are not
/// copied.
#[derive(Clone, Copy, Drop)]
pub struct Framed<'b> {
    // of the frame; more may follow it
    pub(crate) bytes: &'b [u8],
    // how many segments there are
    pub(crate) count: u32,
    // how many words they have together
    pub(crate) words: u64,
    ghost some: { 1 ≤ count },
    ghost few: { count ≤ 512 },
    ghost total: { words ≡ sum (sizes_given count (plain_words bytes.now)) },
    ghost small: { words ≤ most_words },
    ghost inside: { 8 * (table_words count + words) ≤ length bytes.now },
}

impl<'b> Framed<'b> {
    ghost use Rattle.cap_frame.specs.Framed.{frame_bytes, framed_segments, framed_sizes};

    /// How many segments the message has, 1 to 512.
    #[inline]
    pub fn count(&self) -> u32
        ensures { result ≡ length (framed_segments self.now) }
    {
        self.count
    }

    /// How many words the segments have together, at most 268435456.
    #[inline]
    pub fn words(&self) -> u64
        ensures total { result ≡ sum (sizes_of (framed_segments self.now)) }
        ensures most { result ≤ most_words }
    {
        self.words
    }

    /// How many bytes the frame has: those of its table and of its words.
    #[inline]
    pub fn length(&self) -> usize
        ensures { result ≡ frame_bytes self.now }
    {
        8 * (self.count as usize / 2 + 1 + self.words as usize)
    }

    // Puts the tables of the message into `tables`, in place of their contents.
    fn fill(&self, tables: &mut SegmentTables)
        ensures sizes { tables.new.sizes.items ≡ framed_sizes self.now }
        ensures starts { tables.new.starts.items ≡ starts_of 0 (framed_sizes self.now) }
    {
        fill_sizes(self.bytes, self.count, &mut tables.sizes);
        fill_starts(&tables.sizes, &mut tables.starts);
    }

    /// The message as its segments, whose tables are put into `tables`.
    #[inline]
    pub fn view(&self, tables: &'b mut SegmentTables) -> ByteView<'b>
        ensures { ⟦<ByteView<'b> as Segments>⟧.segments result ≡ framed_segments self.now }
    {
        self.fill(tables);
        let after = &self.bytes[8 * (self.count as usize / 2 + 1)..];
        ByteView::over(after, &tables.starts, &tables.sizes)
    }

    /// The message as its one segment, whose size is put into `size`, or `None` if it has more.
    #[inline]
    pub fn one_segment(&self, size: &'b mut [u32; 1]) -> Option<ByteView<'b>>
        ensures one { IsSome result ↔ (length (framed_segments self.now) ≡ 1) }
        ensures segments { let of = ⟦<ByteView<'b> as Segments>⟧.segments in
            IfSome result (λ v. of v ≡ framed_segments self.now) }
    {
        if self.count != 1 {
            return None;
        }
        *size = [self.words as u32];
        Some(ByteView::over(&self.bytes[8..], &[0], size))
    }
}

// The sizes of `count` segments, from the table at the start of bytes.
fn fill_sizes(bytes: &[u8], count: u32, sizes: &mut Sizes)
    requires few { count ≤ 512 }
    requires inside { 8 * table_words count ≤ length bytes.now }
    ensures { sizes.new.items ≡ sizes_given count (plain_words bytes.now) }
{
    sizes.clear();
    'sizes: for s in 0..count as usize {
        sizes.push(LittleEndian::read_u32(&bytes[4 + 4 * s..]));
    }
}
