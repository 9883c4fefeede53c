// The content models of types, with what was found of them.

ghost use Rattle.std.specs.Prelude.{◌≡◌, IfOk, IfSome, Some, option_copied};
ghost use Rattle.gx_types.specs.SchemaSet.{declaration_of};
ghost use Rattle.gx_model.specs.DeclaredContent.{content_model};
ghost use Rattle.gx_validate.specs.Taking.{is_text_at_most, takes_shapes};

use crate::content::complex_model;
use gx_base::type_name::TypeName;
use gx_include_takes::taker::Taker;
use gx_types::declaration::Declared;
use gx_types::schemas::Schemas;
use gx_types::shape::Shape;
use indexmap::IndexMap;
use std::alloc::{AllocError, Global};
use std::marker::Model;

// How many slots of types there are.
const SLOTS: usize = 256;

/// Schemas, which contracts see, with what was found so far of the declaration and of the content model of each type, so that elements
/// that are alike cost little. For each slot of types there is the place of the declaration that was asked for last.
#[derive(Drop)]
pub struct Takers<'a> {
    schemas: &'a Schemas,
    known: IndexMap<TypeName, Taker<'a>>,
    holders: IndexMap<TypeName, &'a Declared>,
    last: Vec<usize>,
}

impl<'a> Model for Takers<'a> {
    ghost use Rattle.gx_types.specs.SchemaSet.{SchemaSet};
    ghost use Rattle.gx_types.specs.contracts.sequence_type.Ty as kinds;
    ghost use Rattle.std.specs.Coded.{codes};
    ghost use Rattle.gx_validate.specs.Takers.{AreTakers, AreHolders};

    ghost Value = { SchemaSet };

    ghost coded = { Prim.hlevel (codes, kinds.the_row.coded) };

    ghost view = { λ takers. takers.schemas.now };

    ghost invariant = { λ takers. AreTakers takers.schemas.now takers.known × AreHolders takers.schemas.now takers.holders };
}

impl<'a> Takers<'a> {
    /// Schemas of which nothing is found yet.
    pub fn new(alloc: Global, schemas: &'a Schemas) -> Takers<'a>
        ensures { result ≡ schemas.now }
    {
        Takers {
            schemas,
            known: IndexMap::new(alloc),
            holders: IndexMap::new(alloc),
            last: Vec::new(alloc),
        }
    }

    /// The schemas.
    pub fn schemas(&self) -> &'a Schemas
        ensures { result.now ≡ self.now }
    {
        self.schemas
    }

    /// The declaration of a type; None exactly where it is not declared.
    pub fn declared(&mut self, kind: &TypeName) -> Result<Option<&'a Declared>, AllocError>
        ensures same { self.new ≡ self.old }
        ensures declared { IfOk result (λ declared. option_copied declared ≡ declaration_of self.old kind.now) }
    {
        let slot = slot_of(kind);
        match self.last_declared(slot, kind) {
            Some(declared) => Ok(Some(declared)),
            None => self.declared_sought(slot, kind),
        }
    }

    // The declaration of a type, where the slot has it.
    fn last_declared(&self, slot: usize, kind: &TypeName) -> Option<&'a Declared>
        ensures { IfSome result (λ declared. declaration_of self.now kind.now ≡ Some declared.now) }
    {
        let place = *self.last.get(slot)?;
        let (name, declared) = self.holders.get_index(place)?;
        if name == kind { Some(*declared) } else { None }
    }

    // The same, sought among all declarations.
    fn declared_sought(
        &mut self,
        slot: usize,
        kind: &TypeName,
    ) -> Result<Option<&'a Declared>, AllocError>
        ensures same { self.new ≡ self.old }
        ensures declared { IfOk result (λ declared. option_copied declared ≡ declaration_of self.old kind.now) }
    {
        let Some(declared) = self.schemas.declared(kind) else {
            return Ok(None);
        };
        let (place, _) = self.holders.insert_full(kind.clone()?, declared)?;
        remember(&mut self.last, slot, place)?;
        Ok(Some(declared))
    }

    /// Whether the content of a type, which has this declaration, takes the children (XML Schema 1.0 part 1, section 3.4.4, Element
    /// Locally Valid (Complex Type), clauses 2.2 to 2.4).
    pub fn takes(
        &mut self,
        alloc: Global,
        kind: &TypeName,
        holder: Option<&Declared>,
        shapes: &[Shape],
    ) -> Result<bool, AllocError>
        requires { option_copied holder ≡ declaration_of self.old kind.now }
        ensures same { self.new ≡ self.old }
        ensures taken { IfOk result (λ taken. taken ≡ takes_shapes self.old (content_model (option_copied holder.entry)) shapes.entry.now) }
    {
        let _declarations = self.schemas.types();
        let Some(_) = complex_model(holder) else {
            return Ok(is_text_at_most(shapes));
        };
        match self.known.get_mut(kind) {
            Some(taker) => taker.takes(alloc, shapes),
            None => self.takes_first(alloc, kind, shapes),
        }
    }

    // The same of a type of which nothing is found yet.
    fn takes_first(
        &mut self,
        alloc: Global,
        kind: &TypeName,
        shapes: &[Shape],
    ) -> Result<bool, AllocError>
        ensures same { self.new ≡ self.old }
        ensures taken { IfOk result (λ taken. taken ≡ takes_shapes self.old (content_model (declaration_of self.old kind.now)) shapes.now) }
    {
        let _declarations = self.schemas.types();
        let Some(model) = complex_model(self.schemas.declared(kind)) else {
            return Ok(is_text_at_most(shapes));
        };
        let kind = kind.clone()?;
        let mut taker = Taker::new(alloc, self.schemas, model)?;
        let taken = taker.takes(alloc, shapes)?;
        self.known.insert(kind, taker)?;
        Ok(taken)
    }
}

fn is_text_at_most(shapes: &[Shape]) -> bool
    ensures { result ≡ is_text_at_most shapes.now }
{
    match shapes {
        [] => true,
        [only] => matches!(only, Shape::Text),
        _ => false,
    }
}

// The slot of a type.
fn slot_of(kind: &TypeName) -> usize {
    match kind {
        TypeName::Named(name) => slot_of_text(name.name().local.as_str()),
        _ => 0,
    }
}

fn slot_of_text(text: &str) -> usize {
    let bytes = text.as_bytes();
    match (bytes.first(), bytes.last()) {
        (Some(first), Some(last)) => {
            (*first as usize * 7 + *last as usize * 3 + bytes.len() % SLOTS) % SLOTS
        }
        _ => 0,
    }
}

// Keeps the place of a slot as the last one.
fn remember(last: &mut Vec<usize>, slot: usize, place: usize) -> Result<(), AllocError> {
    if last.is_empty() {
        last.resize(SLOTS, 0)?;
    }
    if let Some(kept) = last.get_mut(slot) {
        *kept = place;
    }
    Ok(())
}
