// Texts of which equal ones share their characters.

ghost use Rattle.std.specs.Prelude.{◌≡◌, IfOk};

use gx_base::text::Text;
use indexmap::IndexSet;
use std::alloc::{AllocError, Global};

/// The texts that were read, each once.
#[derive(Drop)]
pub struct SharedTexts {
    texts: IndexSet<Text>,
}

impl SharedTexts {
    /// No text.
    pub fn new(alloc: Global) -> SharedTexts {
        SharedTexts {
            texts: IndexSet::new(alloc),
        }
    }

    /// The text, with the characters of the first that was equal.
    #[tactic(auto, using(crate::proofs::EqualTexts::equal_texts))]
    pub fn share(&mut self, text: Text) -> Result<Text, AllocError>
        ensures { IfOk result (λ shared. shared ≡ text) }
    {
        let (index, _is_new) = self.texts.insert_full(text)?;
        match self.texts.get_index(index) {
            Some(shared) => shared.clone(),
            None => unreachable!(),
        }
    }
}
