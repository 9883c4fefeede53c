// Schemas.

ghost use Rattle.std.specs.Prelude.{◌≡◌, option_copied};
ghost use Rattle.gx_types.specs.SchemaSet.{type_of_element};

use crate::declaration::{Declared, GlobalElement};
use crate::declared_types::DeclaredTypes;
use gx_base::name::Name;
use gx_base::text::Text;
use gx_base::type_name::TypeName;
use std::alloc::{AllocError, Global};
use std::marker::Model;

/// What schema files declare: types, global elements with their types, and the target namespace of each file (XML Schema 1.0
/// part 1, section 3.15).
#[derive(Drop)]
pub struct Schemas {
    types: DeclaredTypes,
    elements: Vec<GlobalElement>,
    targets: Vec<Text>,
}

impl Model for Schemas {
    ghost use Rattle.gx_types.specs.SchemaSet.{SchemaSet};
    ghost use Rattle.gx_types.specs.SchemaInvariant.{IsSchemaSet};
    ghost use Rattle.gx_types.specs.contracts.sequence_type.Ty as kinds;
    ghost use Rattle.std.specs.Coded.{codes};

    ghost Value = { SchemaSet };

    ghost coded = { Prim.hlevel (codes, kinds.the_row.coded) };

    ghost view = { λ s. record { types = s.types; elements = s.elements.items; targets = s.targets.items } };

    ghost invariant = { λ s. IsSchemaSet (record { types = s.types; elements = s.elements.items; targets = s.targets.items }) };
}

#[tactic(auto, using(crate::proofs::SchemaLemmas::nothing_is_a_schema_set))]
impl Schemas {
    ghost use Rattle.std.specs.Prelude.{◌≡◌, IfOk, option_copied, slice_get, is_some};
    ghost use Rattle.gx_types.specs.SchemaSet.{no_declarations, declaration_of, global_type};
    ghost use Rattle.gx_types.specs.SchemaInvariant.{IsSchemaSet};

    /// The schemas that declare nothing.
    pub fn empty(alloc: Global) -> Result<Schemas, AllocError>
        ensures { IfOk result (λ s. s ≡ no_declarations) }
    {
        Schemas::new(alloc, Vec::new(alloc), Vec::new(alloc), Vec::new(alloc))
    }

    /// Schemas of these types, in document order, of these global elements, and with the target namespace of each file, empty
    /// where it has none.
    pub fn new(
        alloc: Global,
        types: Vec<Declared>,
        elements: Vec<GlobalElement>,
        targets: Vec<Text>,
    ) -> Result<Schemas, AllocError>
        requires { IsSchemaSet (record { types = types.items; elements = elements.items; targets = targets.items }) }
        ensures { IfOk result (λ s. s ≡ record { types = types.items; elements = elements.items; targets = targets.items }) }
    {
        let types = DeclaredTypes::new(alloc, types)?;
        Ok(Schemas {
            types,
            elements,
            targets,
        })
    }

    /// The declared types, in document order.
    pub fn types(&self) -> &[Declared]
        ensures value { result.now ≡ self.now.types }
        ensures invariant { IsSchemaSet self.now }
    {
        self.types.as_slice()
    }

    // The declared types with their index.
    pub(crate) fn declared_types(&self) -> &DeclaredTypes
        ensures value { result.now ≡ self.now.types }
        ensures invariant { IsSchemaSet self.now }
    {
        &self.types
    }

    /// The declaration of a type; None exactly where it is not declared.
    pub fn declared(&self, t: &TypeName) -> Option<&Declared>
        ensures { option_copied result ≡ declaration_of self.now t.now }
    {
        self.types.declaration(t)
    }

    /// The type of the global element of a name (XML Schema 1.0 part 1, section 3.3); None exactly where none has the name.
    pub fn global(&self, name: &Name) -> Option<&TypeName>
        ensures { option_copied result ≡ global_type self.now name.now }
    {
        global_element(self.elements.as_slice(), name)
    }

    /// The target namespace of each file, empty where it has none.
    pub fn targets(&self) -> &[Text]
        ensures { result.now ≡ self.now.targets }
    {
        self.targets.as_slice()
    }

    /// The target namespace of the file of a number, counted from 0, empty where it has none; None exactly past the last file.
    pub fn target(&self, file: u32) -> Option<&Text>
        ensures { option_copied result ≡ slice_get self.now.targets file }
    {
        self.targets.get(file as usize)
    }
}

// The type of the element of a name.
fn global_element<'a>(elements: &'a [GlobalElement], name: &Name) -> Option<&'a TypeName>
    ensures { option_copied result ≡ type_of_element elements.now name.now }
{
    let mut rest = elements;
    while let Some((element, others)) = rest.split_first() {
        if element.name == *name {
            return Some(&element.kind);
        }
        rest = others;
    }
    None
}
