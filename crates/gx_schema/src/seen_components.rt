// The components of schema documents, where what stands on circles is not looked through.

ghost use Rattle.std.specs.Prelude.{◌≡◌, ℕ, IfOk, map};
ghost use Rattle.gx_references.specs.PlainReferences.{numbers_in};
ghost use Rattle.gx_schema_content.specs.GroupContents.{groups_in};
ghost use Rattle.gx_schema_simple.specs.Walk.{has_mark};
ghost use Rattle.gx_schema.specs.SeenComponents.{attribute_groups_in_group, is_circular_attribute_group, is_circular_base, is_circular_group, seen_attribute_group, seen_attribute_groups_from, seen_derivation, seen_from, seen_group, seen_groups_from, seen_type, seen_types};
ghost use Rattle.gx_schema.specs.SeenView.{AreCircles};
ghost use Rattle.gx_schema.specs.TypeForms.{forms_of};

use gx_references::circles::circular_among;
use gx_schema_attributes::groups::groups_named;
use gx_schema_components::component::{
    AttributeGroup, AttributeParts, Base, Derivation, DerivedFrom, ModelGroup, Particles,
    TypeComponent, TypeForm,
};
use gx_schema_content::group_content::groups_in;
use gx_schema_simple::circles::{circular_types, is_marked};
use gx_schema_simple::type_form::TypeForm as ValueForm;
use gx_schema_syntax::role::Compositor;
use std::alloc::{AllocError, Global};
use std::marker::Model;

/// Marks at the types, the model groups and the attribute groups that stand on circles, by their numbers.
#[derive(Drop)]
pub struct CircleMarks {
    pub types: Vec<bool>,
    pub groups: Vec<bool>,
    pub attribute_groups: Vec<bool>,
}

/// Components, where what stands on circles is not looked through: model groups and attribute groups on circles hold nothing, and a
/// type whose base stands on a circle names none. Contracts see a record of lists.
#[derive(Drop)]
pub struct SeenComponents {
    pub types: Vec<TypeComponent>,
    pub groups: Vec<ModelGroup>,
    pub attribute_groups: Vec<AttributeGroup>,
}

impl Model for SeenComponents {
    ghost use Rattle.gx_schema.specs.SeenComponents.{SeenComponents};

    ghost Value = { SeenComponents };

    ghost view = { λ seen. record { types = seen.types.items; groups = seen.groups.items; attribute_groups = seen.attribute_groups.items } };
}

/// Which components stand on circles; `forms` are the forms of the types.
pub fn circles(
    alloc: Global,
    types: &[TypeComponent],
    forms: &[ValueForm],
    groups: &[ModelGroup],
    attribute_groups: &[AttributeGroup],
) -> Result<CircleMarks, AllocError>
    requires { forms.now ≡ forms_of types.now }
    ensures { IfOk result (AreCircles types.now groups.now attribute_groups.now) }
{
    let types = circular_types(alloc, forms)?;
    let groups = circular_groups(alloc, groups)?;
    let attribute_groups = circular_attribute_groups(alloc, attribute_groups)?;
    Ok(CircleMarks {
        types,
        groups,
        attribute_groups,
    })
}

fn circular_groups(alloc: Global, groups: &[ModelGroup]) -> Result<Vec<bool>, AllocError>
    ensures { IfOk result (λ marks. (number : ℕ) → has_mark marks.items number ≡ is_circular_group groups.now number) }
{
    let references = group_references(alloc, groups)?;
    circular_among(alloc, references.as_slice())
}

fn group_references(alloc: Global, groups: &[ModelGroup]) -> Result<Vec<Vec<usize>>, AllocError>
    ensures { IfOk result (λ references. map numbers_in references.items ≡ map groups_in groups.now) }
{
    let mut references = Vec::with_capacity(alloc, groups.len())?;
    let mut left = groups;
    while let Some((group, others)) = left.split_first() {
        references.push(groups_in(alloc, group)?)?;
        left = others;
    }
    Ok(references)
}

fn circular_attribute_groups(
    alloc: Global,
    groups: &[AttributeGroup],
) -> Result<Vec<bool>, AllocError>
    ensures { IfOk result (λ marks. (number : ℕ) → has_mark marks.items number ≡ is_circular_attribute_group groups.now number) }
{
    let references = attribute_group_references(alloc, groups)?;
    circular_among(alloc, references.as_slice())
}

fn attribute_group_references(
    alloc: Global,
    groups: &[AttributeGroup],
) -> Result<Vec<Vec<usize>>, AllocError>
    ensures { IfOk result (λ references. map numbers_in references.items ≡ map attribute_groups_in_group groups.now) }
{
    let mut references = Vec::with_capacity(alloc, groups.len())?;
    let mut left = groups;
    while let Some((group, others)) = left.split_first() {
        references.push(groups_named(alloc, group.parts.as_slice())?)?;
        left = others;
    }
    Ok(references)
}

/// Hides the particles of model groups on circles.
pub fn hide_groups(alloc: Global, marks: &[bool], groups: &mut Vec<ModelGroup>)
    ensures { groups.new.items ≡ seen_groups_from (has_mark marks.now) 0 groups.old.items }
{
    for number in 0..groups.len() {
        hide_group(alloc, is_marked(marks, number), &mut groups[number]);
    }
}

fn hide_group(alloc: Global, is_circular: bool, group: &mut ModelGroup)
    ensures { group.new ≡ seen_group is_circular group.old }
{
    if is_circular {
        group.compositor = Compositor::Sequence;
        group.particles = Particles::from_vec(Vec::new(alloc));
    }
}

/// Hides the parts of attribute groups on circles.
pub fn hide_attribute_groups(alloc: Global, marks: &[bool], groups: &mut Vec<AttributeGroup>)
    ensures { groups.new.items ≡ seen_attribute_groups_from (has_mark marks.now) 0 groups.old.items }
{
    for number in 0..groups.len() {
        hide_attribute_group(alloc, is_marked(marks, number), &mut groups[number]);
    }
}

fn hide_attribute_group(alloc: Global, is_circular: bool, group: &mut AttributeGroup)
    ensures { group.new ≡ seen_attribute_group is_circular group.old }
{
    if is_circular {
        group.parts = AttributeParts::from_vec(Vec::new(alloc));
    }
}

/// Hides the bases of types that stand on circles.
pub fn hide_bases(marks: &[bool], types: &mut Vec<TypeComponent>)
    ensures { types.new.items ≡ seen_types (has_mark marks.now) types.old.items }
{
    for number in 0..types.len() {
        hide_base(marks, &mut types[number]);
    }
}

fn hide_base(marks: &[bool], component: &mut TypeComponent)
    ensures { component.new ≡ seen_type (has_mark marks.now) component.old }
{
    if let TypeForm::Complex(definition) = &mut component.form {
        definition.derivation = seen_derivation(marks, definition.derivation);
    }
}

fn seen_derivation(marks: &[bool], derivation: Derivation) -> Derivation
    ensures { result ≡ seen_derivation (has_mark marks.now) derivation }
{
    match derivation {
        Derivation::Own => Derivation::Own,
        Derivation::Extends(from) | Derivation::Restricts(from) => {
            seen_from(marks, from, derivation)
        }
    }
}

fn seen_from(marks: &[bool], from: DerivedFrom, derivation: Derivation) -> Derivation
    ensures { result ≡ seen_from (has_mark marks.now) from derivation }
{
    if is_circular_base(marks, from.base) {
        Derivation::Own
    } else {
        derivation
    }
}

fn is_circular_base(marks: &[bool], base: Base) -> bool
    ensures { result ≡ is_circular_base (has_mark marks.now) base }
{
    match base {
        Base::Builtin(_) => false,
        Base::Declared(number) => is_marked(marks, number),
    }
}
