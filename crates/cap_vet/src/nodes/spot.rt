//! Where a node is in its message.

/// A pointer word, or an element of a list of structs.
#[derive(Clone, Copy)]
pub(crate) enum Spot {
    Word {
        segment: u32,
        word: u32,
    },
    Element {
        segment: u32,
        start: u32,
        data_words: u16,
        pointers: u16,
    },
}
