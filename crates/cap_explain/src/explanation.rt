//! The buffer that holds the text of an explanation.

use cap_buffer::TextBuffer;

/// The most bytes of an explanation.
pub(crate) const CAPACITY: usize = 6144;

/// The lines that explain a refusal, in a buffer of 6144 bytes. A caller may keep one for many
/// refusals.
pub type Explanation = TextBuffer<CAPACITY>;
