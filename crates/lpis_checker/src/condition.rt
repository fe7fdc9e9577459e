//! What a good certificate meets, and where it may fail to.

ghost use Rattle.std.specs.Prelude.{◌≡◌};
ghost use Rattle.lpis_checker.specs.Codes.{check_code_text};
ghost use Rattle.lpis_checker.specs.FirstFault.{condition_of};

/// What a good certificate meets, in the order in which it is reported where it does not.
#[derive(Clone, Copy, Debug, PartialEq, Eq)]
pub enum Condition {
    /// Its pieces and parcels have the release's identifiers in order, and its pair lines ascend
    /// and name two triangles each.
    Names,
    /// Each piece has a triangle.
    Triangles,
    /// Each triangle is counter-clockwise.
    CounterClockwise,
    /// Each flat is three different points of one line.
    Flats,
    /// Each corner is a point of the piece's rings; of a parcel's flats, of the parcel's rings or
    /// those of its pieces.
    Corners,
    /// Each piece's edges have the net counts of the edges of its triangles and flats.
    PieceEdges,
    /// Each parcel's edges have the net counts of its pieces' edges and the edges of its flats.
    ParcelEdges,
    /// Two triangles whose boxes are not apart are named by a pair line.
    NearPairs,
    /// Two triangles that a pair line names have boxes that are not apart.
    NotApart,
    /// The edge that a pair line names separates its two triangles.
    Separating,
}

impl Condition {
    /// The two characters that stand in a refusal for a condition that fails: `60` to `69`.
    #[tactic(auto, unfolding(crate::specs::Codes::check_code_text))]
    pub fn as_str(self) -> &'static str
        ensures { result.now ≡ check_code_text self }
    {
        match self {
            Condition::Names => "60",
            Condition::Triangles => "61",
            Condition::CounterClockwise => "62",
            Condition::Flats => "63",
            Condition::Corners => "64",
            Condition::PieceEdges => "65",
            Condition::ParcelEdges => "66",
            Condition::NearPairs => "67",
            Condition::NotApart => "68",
            Condition::Separating => "69",
        }
    }
}

/// What is asked of a piece and its part.
#[derive(Clone, Copy, Debug)]
pub enum PieceCondition {
    Names,
    Triangles,
    CounterClockwise,
    Flats,
    Corners,
    Edges,
}

/// What is asked of a parcel and its part.
#[derive(Clone, Copy, Debug)]
pub enum ParcelCondition {
    Names,
    Flats,
    Corners,
    Edges,
}

/// What is asked of the triangles that a pair line names.
#[derive(Clone, Copy, Debug)]
pub enum LineCondition {
    NotApart,
    Separating,
}

/// Where a condition may fail: one on the piece, the parcel or the pair line of an index, counted
/// from 0, the order of the pair line of an index, or that two triangles are named.
#[derive(Clone, Copy, Debug)]
pub enum Site {
    Piece(PieceCondition, usize),
    Parcel(ParcelCondition, usize),
    Order(usize),
    Pair(u32, u32),
    Line(LineCondition, usize),
}

impl Site {
    /// The condition that fails there.
    pub(crate) fn condition(self) -> Condition
        ensures { result ≡ condition_of self }
    {
        match self {
            Site::Piece(PieceCondition::Names, _) => Condition::Names,
            Site::Piece(PieceCondition::Triangles, _) => Condition::Triangles,
            Site::Piece(PieceCondition::CounterClockwise, _) => Condition::CounterClockwise,
            Site::Piece(PieceCondition::Flats, _) => Condition::Flats,
            Site::Piece(PieceCondition::Corners, _) => Condition::Corners,
            Site::Piece(PieceCondition::Edges, _) => Condition::PieceEdges,
            Site::Parcel(ParcelCondition::Names, _) => Condition::Names,
            Site::Parcel(ParcelCondition::Flats, _) => Condition::Flats,
            Site::Parcel(ParcelCondition::Corners, _) => Condition::Corners,
            Site::Parcel(ParcelCondition::Edges, _) => Condition::ParcelEdges,
            Site::Order(_) => Condition::Names,
            Site::Pair(_, _) => Condition::NearPairs,
            Site::Line(LineCondition::NotApart, _) => Condition::NotApart,
            Site::Line(LineCondition::Separating, _) => Condition::Separating,
        }
    }
}
