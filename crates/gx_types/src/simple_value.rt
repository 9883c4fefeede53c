// The values of texts at types with simple values.

ghost use Rattle.std.specs.Prelude.{◌≡◌, [], ◌∷◌, ◌++◌, IfOk, IfErr, OnOk, map, filter, List, ℕ};
ghost use Rattle.std.specs.Borrow.{Bor};
ghost use Rattle.std.specs.List.{list_all};
ghost use Rattle.gx_facets.specs.Admission.{admits_value};
ghost use Rattle.gx_facets.specs.declared.restriction.Facets.{Facets as FacetsOfType};
ghost use Rattle.gx_types.specs.SimpleValue.{is_admitted, atomic_value, each_value, item_texts, has_characters, value_texts, admits_values, values_at, values_of_text, RefusesValue};
ghost use Rattle.gx_types.specs.ListReading.{values_behind, items_behind};
ghost use Rattle.gx_types.specs.SimpleView.{atomic_view, simple_view, facets_view};

use crate::schemas::Schemas;
use crate::simple_type::{AtomicType, SimpleType, Variety, simple_type};
use gx_base::characters::{is_white_space, next_character};
use gx_base::text::Text;
use gx_base::text_builder::TextBuilder;
use gx_base::type_name::TypeName;
use gx_facets::{AtomValue, Atomic, Facets, ValueRead, admits, admits_list, read_value};
use std::alloc::{AllocError, Global};
use std::mem;

/// The values that the text stands for at the type, each with its own type: the type itself, the item type of a list, or the
/// simple type of simple content (XML Schema 1.0 part 1, section 3.14.4; part 2, sections 2.5.1 and 4.1.4). White space is
/// treated as the built-in type has it, and stands between the items of a list. NotLexical exactly where the text or an
/// item is not in the lexical space of the built-in type, its number is out of that type's range, or a facet of the type or
/// of one of its bases does not admit it; TooLarge and TooPrecise exactly where reading a number gives them; the first
/// item that has a fault decides. A type without simple values has no lexical space.
pub fn read_simple(
    alloc: Global,
    schemas: &Schemas,
    t: &TypeName,
    text: &Text,
) -> Result<Vec<Atomic>, ValueRead>
    ensures value { IfOk result (λ values. values_of_text schemas.now t.now text.now ≡ Ok values.items) }
    ensures fault { IfErr result (λ e. RefusesValue e (values_of_text schemas.now t.now text.now)) }
{
    let kind = simple_type(alloc, schemas, t)?;
    kind.read(alloc, text)
}

impl SimpleType<'_> {
    /// The values that the text stands for at the type, as `read_simple` has them.
    pub fn read(&self, alloc: Global, text: &Text) -> Result<Vec<Atomic>, ValueRead>
        ensures value { IfOk result (λ values. values_at (simple_view self.now) text.now ≡ Ok values.items) }
        ensures fault { IfErr result (λ e. RefusesValue e (values_at (simple_view self.now) text.now)) }
    {
        let values = self.read_texts(alloc, text)?;
        if self.admits(values.as_slice()) {
            Ok(values)
        } else {
            Err(ValueRead::NotLexical)
        }
    }

    // The values of the text, or of each item that it has, whatever the further facets are.
    fn read_texts(&self, alloc: Global, text: &Text) -> Result<Vec<Atomic>, ValueRead>
        ensures value { IfOk result (λ values. each_value (atomic_view self.now.item) (value_texts self.now.variety text.now) ≡ Ok values.items) }
        ensures fault { IfErr result (λ e. RefusesValue e (each_value (atomic_view self.now.item) (value_texts self.now.variety text.now))) }
    {
        match self.variety {
            Variety::Atomic => self.item.read_alone(alloc, text),
            Variety::List => self.item.read_items(alloc, text),
        }
    }

    // Whether each of the further facets admits the values.
    fn admits(&self, values: &[Atomic]) -> bool
        ensures { result ≡ list_all (λ f. admits_values self.now.variety f values.now) (facets_view self.now.facets) }
    {
        admit_values(self.facets.as_slice(), self.variety, values)
    }
}

impl AtomicType<'_> {
    /// Whether each facet of the type and of its bases admits the value.
    pub fn admits(&self, value: &AtomValue) -> bool
        ensures { result ≡ is_admitted (facets_view self.now.facets) value.now }
    {
        admit_value(self.facets.as_slice(), value)
    }

    // The value of a text.
    fn read(&self, alloc: Global, text: &Text) -> Result<Atomic, ValueRead>
        ensures value { IfOk result (λ a. atomic_value (atomic_view self.now) text.now ≡ Ok a) }
        ensures fault { IfErr result (λ e. RefusesValue e (atomic_value (atomic_view self.now) text.now)) }
    {
        let value = read_value(alloc, self.bottom, text)?;
        if self.admits(&value) {
            let kind = self.kind.clone()?;
            Ok(Atomic { value, kind })
        } else {
            Err(ValueRead::NotLexical)
        }
    }

    // The value of a text, as a list of one.
    fn read_alone(&self, alloc: Global, text: &Text) -> Result<Vec<Atomic>, ValueRead>
        ensures value { IfOk result (λ values. each_value (atomic_view self.now) (text.now ∷ []) ≡ Ok values.items) }
        ensures fault { IfErr result (λ e. RefusesValue e (each_value (atomic_view self.now) (text.now ∷ []))) }
    {
        let value = self.read(alloc, text)?;
        let mut values = Vec::new(alloc);
        add(&mut values, value)?;
        Ok(values)
    }

    // The values of the words of a text.
    fn read_items(&self, alloc: Global, text: &Text) -> Result<Vec<Atomic>, ValueRead>
        ensures value { IfOk result (λ values. each_value (atomic_view self.now) (item_texts text.now) ≡ Ok values.items) }
        ensures fault { IfErr result (λ e. RefusesValue e (each_value (atomic_view self.now) (item_texts text.now))) }
    {
        let mut values = Vec::new(alloc);
        let mut word = TextBuilder::new(alloc);
        let mut rest = text.as_str().chars();
        while let Some(c) = next_character(&mut rest) {
            self.read_character(alloc, c, &mut word, &mut values)?;
        }
        self.read_word(alloc, &mut word, &mut values)?;
        Ok(values)
    }

    // Goes on with the word by a character, or ends it at white space.
    fn read_character(
        &self,
        alloc: Global,
        c: char,
        word: &mut TextBuilder,
        values: &mut Vec<Atomic>,
    ) -> Result<(), ValueRead>
        ensures value { (text : List ℕ) → OnOk result (items_behind (atomic_view self.now) values.new.items word.new text ≡ items_behind (atomic_view self.now) values.old.items word.old (c ∷ text)) }
        ensures fault { (text : List ℕ) → IfErr result (λ e. RefusesValue e (items_behind (atomic_view self.now) values.old.items word.old (c ∷ text))) }
    {
        if is_white_space(c) {
            self.read_word(alloc, word, values)
        } else {
            Ok(word.push(c)?)
        }
    }

    // Takes the word, if there is one, and adds its value.
    fn read_word(
        &self,
        alloc: Global,
        word: &mut TextBuilder,
        values: &mut Vec<Atomic>,
    ) -> Result<(), ValueRead>
        ensures value { OnOk result (values_behind values.old.items (each_value (atomic_view self.now) (filter has_characters (word.old ∷ []))) ≡ Ok values.new.items) }
        ensures taken { OnOk result (word.new ≡ []) }
        ensures fault { IfErr result (λ e. RefusesValue e (each_value (atomic_view self.now) (filter has_characters (word.old ∷ [])))) }
    {
        if word.is_empty() {
            return Ok(());
        }
        let text = mem::replace(word, TextBuilder::new(alloc)).finish()?;
        let value = self.read(alloc, &text)?;
        add(values, value)?;
        Ok(())
    }
}

fn add(values: &mut Vec<Atomic>, value: Atomic) -> Result<(), AllocError>
    ensures { OnOk result (values.new.items ≡ values.old.items ++ value ∷ []) }
{
    Ok(values.push(value)?)
}

// Whether each of the facets admits the value.
fn admit_value(facets: &[&Facets], value: &AtomValue) -> bool
    ensures { result ≡ list_all (λ (f : Bor FacetsOfType). admits_value f.now value.now) facets.now }
{
    for f in facets {
        if !admits(f, value) {
            return false;
        }
    }
    true
}

// Whether each of the facets admits the values.
fn admit_values(facets: &[&Facets], variety: Variety, values: &[Atomic]) -> bool
    ensures { result ≡ list_all (λ (f : Bor FacetsOfType). admits_values variety f.now values.now) facets.now }
{
    for f in facets {
        if !admits_values(f, variety, values) {
            return false;
        }
    }
    true
}

// Whether facets admit the values, those of a list as one list.
fn admits_values(facets: &Facets, variety: Variety, values: &[Atomic]) -> bool
    ensures { result ≡ admits_values variety facets.now values.now }
{
    match variety {
        Variety::Atomic => admits_each(facets, values),
        Variety::List => admits_list(facets, values),
    }
}

fn admits_each(facets: &Facets, values: &[Atomic]) -> bool
    ensures { result ≡ list_all (λ a. admits_value facets.now a.value) values.now }
{
    for a in values {
        if !admits(facets, &a.value) {
            return false;
        }
    }
    true
}
