// The children of an element, as far as they were read.

ghost use Rattle.gx_xml.specs.Characters.{spelled};
ghost use Rattle.gx_xml.specs.Gathered.{children_with, text_part};
ghost use Rattle.gx_xml.specs.Nodes.{put_characters, section_text};
ghost use Rattle.gx_xml.specs.Runs.{text_normalised};
ghost use Rattle.gx_xml.specs.SourceTree.{SourceContents, a_child, no_content};
ghost use Rattle.gx_xml.specs.SourceView.{contents_of};
ghost use Rattle.std.specs.Prelude.{◌≡◌, ◌++◌, ◌∷◌, [], ◌↔◌, IfOk, IsTrue, OnOk, string_bytes};
ghost use Rattle.std.specs.Str.{chars};

use crate::characters::Characters;
use crate::shared_texts::SharedTexts;
use crate::source::{SourceChild, SourceElement};
use crate::tag::push_character;
use crate::value::push_normalised_text;
use gx_base::text::Text;
use std::alloc::{AllocError, Global};
use std::mem::replace;

/// The children so far, and the characters behind the last of them.
#[derive(Drop)]
pub struct Children {
    pub done: Vec<SourceChild>,
    pub pending: String,
}

impl Children {
    pub fn new(alloc: Global) -> Children
        ensures { (cs : SourceContents) → children_with result cs ≡ cs }
    {
        Children {
            done: Vec::new(alloc),
            pending: String::new(alloc),
        }
    }

    /// Adds the characters of a run, with line ends as line feeds.
    #[tactic(auto, using(crate::proofs::GatherLemmas::put_both))]
    pub fn push_text(&mut self, run: Characters<'_>) -> Result<(), AllocError>
        ensures { OnOk result ((cs : SourceContents) → children_with self.new cs ≡ children_with self.old (put_characters (text_normalised (spelled run.entry)) cs)) }
    {
        push_normalised_text(&mut self.pending, run)
    }

    /// Adds the characters of a CDATA section, behind which its two brackets stand.
    #[tactic(auto, using(crate::proofs::GatherLemmas::put_both))]
    pub fn push_section(&mut self, run: Characters<'_>) -> Result<(), AllocError>
        ensures { OnOk result ((cs : SourceContents) → children_with self.new cs ≡ children_with self.old (put_characters (section_text (spelled run.entry)) cs)) }
    {
        let length = run.len().saturating_sub(2);
        push_normalised_text(&mut self.pending, run.up_to(length))
    }

    /// Adds a character.
    pub fn push_character(&mut self, character: char) -> Result<(), AllocError>
        ensures { OnOk result ((cs : SourceContents) → children_with self.new cs ≡ children_with self.old (put_characters (character ∷ []) cs)) }
    {
        push_character(&mut self.pending, character)
    }

    // Makes a text of the characters behind the last child, if there are any.
    fn flush(&mut self, alloc: Global, texts: &mut SharedTexts) -> Result<(), AllocError>
        ensures done { OnOk result (self.new.done.items ≡ self.old.done.items ++ text_part (chars (string_bytes self.old.pending))) }
        ensures pending { OnOk result (chars (string_bytes self.new.pending) ≡ []) }
    {
        if is_empty(&self.pending) {
            return Ok(());
        }
        let text = taken(alloc, texts, &mut self.pending)?;
        make_room(&mut self.done)?;
        self.done.push(SourceChild::Text(text))?;
        Ok(())
    }

    /// Adds an element.
    pub fn push_element(
        &mut self,
        alloc: Global,
        texts: &mut SharedTexts,
        element: SourceElement,
    ) -> Result<(), AllocError>
        ensures { OnOk result ((cs : SourceContents) → children_with self.new cs ≡ children_with self.old (a_child element cs)) }
    {
        self.flush(alloc, texts)?;
        self.done.push(SourceChild::Element(element))?;
        Ok(())
    }

    /// All children.
    pub fn finish(
        mut self,
        alloc: Global,
        texts: &mut SharedTexts,
    ) -> Result<Vec<SourceChild>, AllocError>
        ensures { IfOk result (λ v. contents_of v.items ≡ children_with self no_content) }
    {
        self.flush(alloc, texts)?;
        let Children {
            mut done,
            pending: _,
        } = self;
        done.shrink_to_fit();
        Ok(done)
    }
}

// Whether a string has no character.
fn is_empty(text: &String) -> bool
    ensures { IsTrue result ↔ (chars (string_bytes text.now) ≡ []) }
{
    text.as_str().is_empty()
}

// The text of the characters of a string, which is empty then.
fn taken(alloc: Global, texts: &mut SharedTexts, pending: &mut String) -> Result<Text, AllocError>
    ensures text { IfOk result (λ t. t ≡ chars (string_bytes pending.old)) }
    ensures empty { string_bytes pending.new ≡ [] }
{
    let characters = replace(pending, String::new(alloc));
    texts.text_of_string(alloc, characters)
}

// Makes room for a child, and for one alone where it is the first.
fn make_room(done: &mut Vec<SourceChild>) -> Result<(), AllocError>
    ensures { done.new.items ≡ done.old.items }
{
    if done.is_empty() {
        done.reserve_exact(1)?;
    }
    Ok(())
}
