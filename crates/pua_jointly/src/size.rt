//! Where the rows of a crew's table are.

ghost use Rattle.std.specs.Prelude.{◌≡◌, ◌+◌};

use crate::shape::Shape;

/// How many words a row of the table has, and where its kinds of rows end.
#[derive(Clone, Copy)]
pub(crate) struct Size {
    /// How much the table is of.
    pub(crate) shape: Shape,
    /// How many words a row has.
    pub(crate) columns: usize,
    /// The row after those of directories and of what each process makes.
    pub(crate) seats: usize,
    /// The row after those of where each can put things: that of the first name.
    pub(crate) names: usize,
    ghost after_made: { seats ≡ (shape.last + 1) + shape.hands },
    ghost after_drops: { names ≡ seats + (shape.hands + shape.hands) },
}
