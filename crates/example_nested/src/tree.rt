//! A `Tree`, which is a list of branches.

/// A tree: its branches, each a tree.
#[derive(Debug, Drop)]
pub struct Tree {
    /// The branches, in order
    pub branches: Vec<Tree>,
}
