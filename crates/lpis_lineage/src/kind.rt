//! What became of an identifier.

/// What became of an identifier of the last release in the next one.
#[derive(Clone, Copy, PartialEq, Eq, Debug, Drop)]
pub enum Kind {
    /// It is live in both.
    Kept,
    /// It has several successors, each of which has no other predecessor.
    Split,
    /// It has one successor, which has other predecessors too.
    Merged,
    /// It has one successor, which has no other predecessor.
    Replaced,
    /// It has several successors, and one of them has other predecessors too.
    Redrawn,
    /// Its row is an ending.
    Ended,
}
