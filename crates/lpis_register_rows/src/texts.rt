//! What becomes of the texts that keep shapes, when those of a release follow.

ghost use Rattle.std.specs.Prelude.{◌≡◌, ◌+◌, ◌<◌, ◌++◌, [], MatchOption, length};
ghost use Rattle.lpis_register_rows.specs.Shapes.{edits_of, text_edits};
ghost use Rattle.lpis_register_rows.specs.Editing.{edits_in};

use crate::kept_shape::KeptShape;
use lpis_release::is_same_polygon;
use lpis_tables::Id;
use std::cmp::Ordering;

/// What becomes of a text.
#[derive(Clone, Copy)]
pub enum Edit<'a> {
    /// The one of this identifier is deleted.
    Deletes(&'a Id),
    /// That of this shape takes the place of the one of its identifier.
    Replaces(&'a KeptShape),
    /// That of this shape is inserted.
    Inserts(&'a KeptShape),
}

/// Shapes that are kept, and those that follow them, both ascending by identifier.
#[derive(Clone, Copy)]
pub struct ShapeChange<'a> {
    /// Those that are kept.
    pub kept: &'a [KeptShape],
    /// Those that follow.
    pub shapes: &'a [KeptShape],
}

/// What becomes of the text of a kept shape where one of its identifier follows: nothing where both
/// have the same points.
fn edit_of<'a>(kept: &KeptShape, shape: &'a KeptShape) -> Option<Edit<'a>>
    ensures { edits_in result ≡ edits_of kept.now shape.now }
{
    if is_same_polygon(kept.polygon(), shape.polygon()) {
        None
    } else {
        Some(Edit::Replaces(shape))
    }
}

/// The first step through both lists: what becomes of a text, if anything, and what is left of the
/// lists then; `None` at their end.
pub fn next_edit(change: ShapeChange<'_>) -> Option<(Option<Edit<'_>>, ShapeChange<'_>)>
    ensures edits { MatchOption result
        (text_edits change.entry.kept.now change.entry.shapes.now ≡ [])
        (λ step. text_edits change.entry.kept.now change.entry.shapes.now
        ≡ edits_in step.0 ++ text_edits step.1.kept.now step.1.shapes.now) }
    ensures shorter { MatchOption result (Unit {0}) (λ step.
        length step.1.kept.now + length step.1.shapes.now
        < length change.entry.kept.now + length change.entry.shapes.now) }
{
    let ShapeChange { kept, shapes } = change;
    match (kept.split_first(), shapes.split_first()) {
        (None, None) => None,
        (Some((first, kept)), None) => {
            Some((
                Some(Edit::Deletes(first.id())),
                ShapeChange { kept, shapes },
            ))
        }
        (None, Some((shape, shapes))) => {
            Some((Some(Edit::Inserts(shape)), ShapeChange { kept, shapes }))
        }
        (Some((first, others)), Some((shape, more))) => match first.id().cmp(shape.id()) {
            Ordering::Less => {
                let rest = ShapeChange {
                    kept: others,
                    shapes,
                };
                Some((Some(Edit::Deletes(first.id())), rest))
            }
            Ordering::Equal => {
                let rest = ShapeChange {
                    kept: others,
                    shapes: more,
                };
                Some((edit_of(first, shape), rest))
            }
            Ordering::Greater => {
                let rest = ShapeChange { kept, shapes: more };
                Some((Some(Edit::Inserts(shape)), rest))
            }
        },
    }
}
