// One step of the way along the bases of a type.

// Whether a type is derived from another one, or the number of its base, which is so exactly where the type is.
#[derive(Clone, Copy)]
pub enum Lead {
    Answer(bool),
    Base(usize),
}
