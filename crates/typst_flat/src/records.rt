//! The records, as C lays them out.

/// A node of a tree, in 32 bytes.
///
/// Its subtree is the node itself and as many nodes after it as `nodes` says less one, so the next sibling,
/// if there is one, has the number `number + nodes`. Numbers and bytes from the largest `u32` on are that.
#[repr(C)]
#[derive(Debug, Clone, Copy, PartialEq, Eq)]
pub struct Node {
    /// The file times 2^48 and the number of the node's span, or 0 where the span is detached.
    pub span: u64,
    /// Its first byte.
    pub start: u32,
    /// The byte after it.
    pub end: u32,
    /// Its place among all nodes of the tree in preorder, from 0 on.
    pub number: u32,
    /// How many nodes its subtree has, itself counted.
    pub nodes: u32,
    /// The number of its parent; of the root 0.
    pub parent: u32,
    /// Its kind, by `kind_code`.
    pub kind: u8,
    /// Its tag, by `tag_code`.
    pub tag: u8,
    /// The sum of 1 for an inner node, 2 for an error, and 4 for a node with remarks.
    pub flags: u8,
    /// Always 0.
    pub spare: u8,
}

/// An error or a warning of a node, or a hint on the last of these before it, in 24 bytes.
#[repr(C)]
#[derive(Debug, Clone, Copy, PartialEq, Eq)]
pub struct Remark {
    /// The number of the node.
    pub node: u32,
    /// The first byte that it is about.
    pub start: u32,
    /// The byte after these.
    pub end: u32,
    /// Where its message begins among the messages.
    pub message: u32,
    /// How many bytes its message has.
    pub message_len: u32,
    /// 1 for an error, 2 for a warning, 3 for a hint.
    pub severity: u32,
}

/// A stretch of bytes.
#[repr(C)]
#[derive(Debug, Clone, Copy, PartialEq, Eq)]
pub struct Stretch {
    pub start: usize,
    pub end: usize,
}

impl Stretch {
    /// The stretch of all bytes.
    pub const ALL: Stretch = Stretch {
        start: 0,
        end: usize::MAX,
    };
}
