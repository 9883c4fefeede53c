// Paths to nodes.

ghost use Rattle.std.specs.Prelude.{◌≡◌, IfOk};

use std::alloc::{AllocError, Global};
use std::marker::Model;
use std::rc::Rc;

/// The positions that lead to a node from the root of its tree, counted from 0, which contracts see as a list. Copies share
/// them, so copying a path takes no memory.
#[derive(Drop)]
pub struct Path {
    shared: Rc<Vec<usize>>,
}

impl Model for Path {
    ghost use Rattle.std.specs.Prelude.{List, ℕ};

    ghost Value = { List ℕ };

    ghost view = { λ path. path.shared.value.items };
}

impl Path {
    /// The path of these positions.
    pub fn from_vec(alloc: Global, positions: Vec<usize>) -> Result<Path, AllocError>
        ensures { IfOk result (λ path. path ≡ positions.items) }
    {
        Ok(Path {
            shared: Rc::new(alloc, positions)?,
        })
    }

    /// Its positions.
    pub fn as_slice(&self) -> &[usize]
        ensures { result.now ≡ self.now }
    {
        self.shared.as_ref().as_slice()
    }
}

impl Clone for Path {
    ghost is_clone = { λ path copy. copy ≡ path };

    // The copy shares the positions.
    fn clone(&self) -> Result<Path, AllocError> {
        Ok(Path {
            shared: self.shared.clone()?,
        })
    }
}
