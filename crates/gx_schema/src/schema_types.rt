// The types and the global elements that schema documents declare.

ghost use Rattle.std.specs.Prelude.{◌≡◌, IfOk, map, None, Some, [], slice_index_or};
ghost use Rattle.gx_schema_simple.specs.Meanings.{own_facets_over};
ghost use Rattle.gx_schema.specs.SchemaTypes.{base_name, declared_complex, content_declared, derived_from_name, schema_element, schema_type, schema_types, schema_types_from, simple_content};
ghost use Rattle.gx_schema.specs.MeaningsView.{effective_at, meanings_view};

use crate::simple_bases::simple_base;
use gx_base::type_name::{Builtin, TypeName};
use gx_facets::Facets;
use gx_schema_attributes::given::copy_of;
use gx_schema_components::component::{Base, Declaration};
use gx_schema_content::effective::Effective;
use gx_schema_content::mixed::model_of;
use gx_schema_simple::meaning::own_facets_of;
use gx_schema_simple::type_form::TypeForm;
use gx_schema_simple::variety::{TypeVariety, known_variety};
use gx_types::declaration::{AttributeUse, AttributeUses, Content, Declared, GlobalElement};
use gx_types::sequence_type::Ty;
use std::alloc::{AllocError, Global};

/// What types mean beside their forms, by number: the varieties of their values, their contents and their attributes.
#[derive(Drop)]
pub struct TypeTables {
    pub varieties: Vec<Option<TypeVariety>>,
    pub contents: Vec<Effective>,
    pub uses: Vec<AttributeUses>,
}

/// The declarations of types of these names.
pub fn schema_types(
    alloc: Global,
    names: &[TypeName],
    forms: &[TypeForm],
    tables: &TypeTables,
) -> Result<Vec<Declared>, AllocError>
    ensures { IfOk result (λ types. types.items ≡ schema_types names.now forms.now (meanings_view tables.now)) }
{
    let mut types = Vec::new(alloc);
    let mut number = 0usize;
    let mut names_left = names;
    let mut forms_left = forms;
    while let Some((name, names_behind)) = names_left.split_first() {
        let Some((form, forms_behind)) = forms_left.split_first() else {
            return Ok(types);
        };
        let place = TypePlace {
            names,
            forms,
            tables,
            number,
        };
        types.push(schema_type(alloc, &place, name, form)?)?;
        number += 1;
        names_left = names_behind;
        forms_left = forms_behind;
    }
    Ok(types)
}

// The number of a type among all types.
#[derive(Clone, Copy)]
struct TypePlace<'a> {
    names: &'a [TypeName],
    forms: &'a [TypeForm],
    tables: &'a TypeTables,
    number: usize,
}

fn schema_type(
    alloc: Global,
    place: &TypePlace<'_>,
    name: &TypeName,
    form: &TypeForm,
) -> Result<Declared, AllocError>
    ensures { IfOk result (λ t. t ≡ schema_type place.now.names.now place.now.forms.now (meanings_view place.now.tables.now) place.now.number name.now form.now) }
{
    let content = content_declared(alloc, place, form)?;
    declared_with(alloc, place, name, form, content)
}

fn declared_with(
    alloc: Global,
    place: &TypePlace<'_>,
    name: &TypeName,
    form: &TypeForm,
    content: Content,
) -> Result<Declared, AllocError>
    ensures { IfOk result (λ t. t ≡ record { name = name.now; base = derived_from_name place.now.names.now form.now; content = content; attributes = (meanings_view place.now.tables.now).uses place.now.number }) }
{
    let attributes = uses_at(alloc, &place.tables.uses, place.number)?;
    let base = derived_from_name(place.names, form)?;
    Ok(Declared {
        name: name.clone()?,
        base,
        content,
        attributes,
    })
}

// What a type of a form holds.
fn content_declared(
    alloc: Global,
    place: &TypePlace<'_>,
    form: &TypeForm,
) -> Result<Content, AllocError>
    ensures { IfOk result (λ content. content ≡ content_declared place.now.names.now place.now.forms.now (meanings_view place.now.tables.now) place.now.number form.now) }
{
    let varieties = place.tables.varieties.as_slice();
    let facets = own_facets_of(alloc, form, varieties)?;
    match form {
        TypeForm::Restriction { .. } | TypeForm::List { .. } => {
            let variety = known_variety(varieties, place.number);
            simple_content(place.names, variety, facets)
        }
        TypeForm::SimpleContent { base, .. } => {
            let simple = simple_base(place.forms, *base);
            Ok(Content::Simple(base_name(place.names, simple)?, facets))
        }
        TypeForm::ComplexContent { .. } => {
            declared_complex(alloc, &place.tables.contents, place.number)
        }
    }
}

fn declared_complex(
    alloc: Global,
    contents: &[Effective],
    number: usize,
) -> Result<Content, AllocError>
    ensures { IfOk result (λ content. content ≡ declared_complex (effective_at contents.now number)) }
{
    match contents.get(number) {
        Some(effective) => Ok(Content::Complex {
            mixed: effective.mixed,
            model: model_of(alloc, effective.mixed, &effective.content)?,
        }),
        None => Ok(Content::Complex {
            mixed: false,
            model: Ty::none(),
        }),
    }
}

fn uses_at(
    alloc: Global,
    uses: &[AttributeUses],
    number: usize,
) -> Result<AttributeUses, AllocError>
    ensures { IfOk result (λ copy. copy ≡ slice_index_or uses.now number []) }
{
    match uses.get(number) {
        Some(uses) => Ok(AttributeUses::from_vec(copies_of(alloc, uses.as_slice())?)),
        None => Ok(AttributeUses::from_vec(Vec::new(alloc))),
    }
}

fn copies_of(alloc: Global, uses: &[AttributeUse]) -> Result<Vec<AttributeUse>, AllocError>
    ensures { IfOk result (λ copies. copies.items ≡ uses.now) }
{
    let mut copies = Vec::with_capacity(alloc, uses.len())?;
    let mut left = uses;
    while let Some((attribute, others)) = left.split_first() {
        copies.push(copy_of(attribute)?)?;
        left = others;
    }
    Ok(copies)
}

fn derived_from_name(declared: &[TypeName], form: &TypeForm) -> Result<TypeName, AllocError>
    ensures { IfOk result (λ name. name ≡ derived_from_name declared.now form.now) }
{
    match form {
        TypeForm::Restriction { base, .. } | TypeForm::SimpleContent { base, .. } => {
            base_name(declared, *base)
        }
        TypeForm::List { .. } => Ok(TypeName::Builtin(Builtin::AnySimple)),
        TypeForm::ComplexContent { base } => match base {
            Some(base) => base_name(declared, *base),
            None => Ok(TypeName::Builtin(Builtin::AnyType)),
        },
    }
}

fn base_name(declared: &[TypeName], base: Base) -> Result<TypeName, AllocError>
    ensures { IfOk result (λ name. name ≡ base_name declared.now base) }
{
    match base {
        Base::Builtin(builtin) => Ok(TypeName::Builtin(builtin)),
        Base::Declared(number) => match declared.get(number) {
            Some(name) => name.clone(),
            None => Ok(TypeName::Builtin(Builtin::AnyType)),
        },
    }
}

fn simple_content(
    declared: &[TypeName],
    variety: TypeVariety,
    facets: Facets,
) -> Result<Content, AllocError>
    ensures { IfOk result (λ content. content ≡ simple_content declared.now variety facets) }
{
    match variety {
        TypeVariety::List(item) => Ok(Content::List(base_name(declared, item)?, facets)),
        TypeVariety::Atomic(_) | TypeVariety::NoValues | TypeVariety::Hidden => {
            Ok(Content::Atomic(facets))
        }
    }
}

/// The global elements with their types.
pub fn schema_elements(
    alloc: Global,
    declarations: &[Declaration],
) -> Result<Vec<GlobalElement>, AllocError>
    ensures { IfOk result (λ elements. elements.items ≡ map schema_element declarations.now) }
{
    let mut elements = Vec::with_capacity(alloc, declarations.len())?;
    let mut left = declarations;
    while let Some((declaration, others)) = left.split_first() {
        elements.push(schema_element(declaration)?)?;
        left = others;
    }
    Ok(elements)
}

fn schema_element(declaration: &Declaration) -> Result<GlobalElement, AllocError>
    ensures { IfOk result (λ element. element ≡ schema_element declaration.now) }
{
    Ok(GlobalElement {
        name: declaration.name.clone()?,
        kind: declaration.kind.clone()?,
    })
}
