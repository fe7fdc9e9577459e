//! The kinds of lines, and which can stand.

/// What a line is, by its first word.
#[derive(Clone, Copy, Debug, PartialEq, Eq)]
pub(crate) enum Kind {
    /// `piece`
    Piece,
    /// `t`
    Triangle,
    /// `f`
    Flat,
    /// `parcel`
    Parcel,
    /// `exact`
    Exact,
    /// `pairs`
    Pairs,
    /// `s`
    Pair,
    /// `end`
    End,
}

/// Which blocks can begin.
#[derive(Clone, Copy, Debug, PartialEq, Eq)]
pub(crate) enum Stage {
    /// A piece, a parcel, an exact block or the pairs.
    Pieces,
    /// A parcel, an exact block or the pairs.
    Parcels,
    /// An exact block or the pairs.
    Exacts,
}

/// Which kinds of lines can stand.
#[derive(Clone, Copy, Debug, PartialEq, Eq)]
pub(crate) enum Expected {
    /// This kind alone.
    One(Kind),
    /// The first line of a block.
    Block(Stage),
}
