// Letters: the shapes that are tried at a position.

use gx_include_followers::number_set::NumberSet;
use gx_types::shape::Shape;

/// A shape that the item type at a position of the left type takes, with the positions of the right type that take it.
#[derive(Drop)]
pub struct Letter {
    pub place: usize,
    pub shape: Shape,
    pub takers: NumberSet,
}
