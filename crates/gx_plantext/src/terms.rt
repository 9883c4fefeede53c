// Terms in the making.

ghost use Rattle.std.specs.Prelude.{◌≡◌, [], ◌∷◌, ◌++◌, true, false, IfOk, OnOk, codes};
ghost use Rattle.std.specs.Fmt.{signed_decimal};
ghost use Rattle.std.specs.Str.{chars};
ghost use Rattle.gx_typetext.specs.NameText.{word, name_text, type_name_text};
ghost use Rattle.gx_typetext.specs.TypeText.{type_text};
ghost use Rattle.gx_plantext.specs.TermText.{comma_before, number_text};
ghost use Rattle.gx_plantext.specs.LiteralText.{literal_text};
ghost use Rattle.gx_plantext.specs.NodeTestText.{node_test_text};
ghost use Rattle.gx_plantext.specs.Printing.{AddsFields, OpensTerm, ClosesTerm};

use crate::literals::push_literal;
use crate::node_tests::push_node_test;
use crate::values::{push_decimal, push_name, push_signed, push_type, push_type_name};
use gx_base::name::Name;
use gx_base::text::Text;
use gx_base::text_builder::TextBuilder;
use gx_base::type_name::TypeName;
use gx_facets::AtomValue;
use gx_types::sequence_type::Ty;
use gx_types::step::Test;
use std::alloc::{AllocError, Global};

// A text of terms in the making.
#[derive(Drop)]
pub(crate) struct Terms {
    alloc: Global,
    pub(crate) text: TextBuilder,
    // Whether the next field is the first one of its term.
    pub(crate) is_first: bool,
}

#[tactic(auto, using(crate::proofs::TermLemmas::one_field))]
impl Terms {
    pub(crate) fn new(alloc: Global) -> Terms
        ensures text { result.text ≡ [] }
        ensures first { result.is_first ≡ true }
    {
        Terms {
            alloc,
            text: TextBuilder::new(alloc),
            is_first: true,
        }
    }

    // Adds what stands before a field.
    fn begin_field(&mut self) -> Result<(), AllocError>
        ensures text { OnOk result (self.new.text ≡ self.old.text ++ comma_before self.old.is_first) }
        ensures first { OnOk result (self.new.is_first ≡ false) }
    {
        if !self.is_first {
            self.text.push_str(", ")?;
        }
        self.is_first = false;
        Ok(())
    }

    // Begins a term.
    pub(crate) fn open(&mut self, name: &str) -> Result<(), AllocError>
        ensures { OnOk result (OpensTerm self.old name.now self.new) }
    {
        self.begin_field()?;
        self.text.push_str(name)?;
        self.text.push_str("(")?;
        self.is_first = true;
        Ok(())
    }

    // Ends a term.
    pub(crate) fn close(&mut self) -> Result<(), AllocError>
        ensures { OnOk result (ClosesTerm self.old self.new) }
    {
        self.text.push_str(")")?;
        self.is_first = false;
        Ok(())
    }

    // Ends the term of a declaration. The next field is the first one of another term.
    pub(crate) fn end_declaration(&mut self) -> Result<(), AllocError>
        ensures text { OnOk result (self.new.text ≡ self.old.text ++ (word (codes ")") ++ word (codes "; "))) }
        ensures first { OnOk result (self.new.is_first ≡ true) }
    {
        self.text.push_str(")")?;
        self.text.push_str("; ")?;
        self.is_first = true;
        Ok(())
    }

    // The text.
    pub(crate) fn finish(self) -> Result<Text, AllocError>
        ensures { IfOk result (λ text. text ≡ self.text) }
    {
        let Terms {
            alloc: _alloc,
            text,
            is_first: _is_first,
        } = self;
        text.finish()
    }

    // Adds a word as a field.
    pub(crate) fn word(&mut self, word: &str) -> Result<(), AllocError>
        ensures { OnOk result (AddsFields self.old (chars word.now ∷ []) self.new) }
    {
        self.begin_field()?;
        self.text.push_str(word)
    }

    // Adds a number as a field.
    pub(crate) fn number(&mut self, number: u32) -> Result<(), AllocError>
        ensures { OnOk result (AddsFields self.old (number_text number ∷ []) self.new) }
    {
        self.begin_field()?;
        push_decimal(self.alloc, &mut self.text, number)
    }

    // Adds a number with its sign as a field.
    pub(crate) fn signed_number(&mut self, number: i128) -> Result<(), AllocError>
        ensures { OnOk result (AddsFields self.old (chars (signed_decimal number) ∷ []) self.new) }
    {
        self.begin_field()?;
        push_signed(self.alloc, &mut self.text, number)
    }

    // Adds a name as a field.
    pub(crate) fn name(&mut self, name: &Name) -> Result<(), AllocError>
        ensures { OnOk result (AddsFields self.old (name_text name.now ∷ []) self.new) }
    {
        self.begin_field()?;
        push_name(self.alloc, &mut self.text, name)
    }

    // Adds the name of a type as a field.
    pub(crate) fn type_name(&mut self, name: &TypeName) -> Result<(), AllocError>
        ensures { OnOk result (AddsFields self.old (type_name_text name.now ∷ []) self.new) }
    {
        self.begin_field()?;
        push_type_name(self.alloc, &mut self.text, name)
    }

    // Adds a type as a field.
    pub(crate) fn sequence_type(&mut self, t: &Ty) -> Result<(), AllocError>
        ensures { OnOk result (AddsFields self.old (type_text t.now ∷ []) self.new) }
    {
        self.begin_field()?;
        push_type(self.alloc, &mut self.text, t)
    }

    // Adds a node test as a field.
    pub(crate) fn node_test(&mut self, test: &Test) -> Result<(), AllocError>
        ensures { OnOk result (AddsFields self.old (node_test_text test.now ∷ []) self.new) }
    {
        self.begin_field()?;
        push_node_test(self.alloc, &mut self.text, test)
    }

    // Adds a literal as a field.
    pub(crate) fn literal(&mut self, value: &AtomValue) -> Result<(), AllocError>
        ensures { OnOk result (AddsFields self.old (literal_text value.now ∷ []) self.new) }
    {
        self.begin_field()?;
        push_literal(self.alloc, &mut self.text, value)
    }
}
