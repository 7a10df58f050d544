//! The numbers that are reported of an accepted message.

/// The numbers of the tree that a message's root denotes.
#[derive(Clone, Copy, Debug, Default, PartialEq, Eq)]
pub struct Report {
    /// The charge of all followings, in words; a target that is reached twice is charged twice.
    pub charge: u64,
    /// The deepest level of an object, a struct of a list among them, or 0 where there is none.
    pub depth: u32,
    /// The paths that reach a pointer word, the root and null ones too: a word that two paths reach
    /// counts twice.
    pub pointers: u64,
    /// The paths that reach a capability.
    pub caps: u64,
    /// The segment and the word of the pointer that the first of them in preorder reaches.
    pub first_cap: Option<(u32, u32)>,
}
