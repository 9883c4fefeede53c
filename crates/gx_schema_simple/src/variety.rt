// The varieties of types.

ghost use Rattle.std.specs.Prelude.{◌≡◌, ◌<◌, ◌++◌, ◌||◌, ℕ, Bool, true, false, length, Some, None, slice_index_or, IfOk, OnOk};
ghost use Rattle.gx_references.specs.Known.{known};
ghost use Rattle.gx_schema_simple.specs.Varieties.{said, said_by, said_of_base, said_varieties, variety_of, variety_of_base, IsMarked};

use crate::circles::is_marked;
use crate::type_form::TypeForm;
use gx_base::type_name::Builtin;
use gx_references::body::Body;
use gx_references::laws::circles_are_endless;
use gx_references::meanings::meanings;
use gx_schema_components::component::Base;
use std::alloc::{AllocError, Global};

/// What is seen of the values of a type (XML Schema 1.0 part 1, section 3.14.1).
#[derive(Clone, Copy)]
pub enum TypeVariety {
    /// A circle hides them: the type stands on one, or its bases lead to one.
    Hidden,
    /// There are none: the content is complex.
    NoValues,
    /// Single values, of which the built-in type at which the bases end is this.
    Atomic(Builtin),
    /// Lists of items of this type.
    List(Base),
}

/// What a type says of its variety: it has its own, or that of its base.
#[derive(Clone, Copy)]
pub enum SaidVariety {
    Own(TypeVariety),
    OfBase(usize),
}

impl Body for SaidVariety {
    type Meaning = TypeVariety;

    ghost use Rattle.gx_schema_simple.specs.Varieties.{said_number, variety_said};
    ghost use Rattle.gx_schema_simple.specs.VarietyLaws.{variety_said_agrees};
    ghost use Rattle.gx_schema_simple.specs.declared.variety.TypeVariety.TheVariants.{Hidden};

    ghost named = { said_number };

    ghost meant = { variety_said };

    ghost nothing = { Hidden };

    ghost same = { variety_said_agrees };

    fn references(&self, alloc: Global) -> Result<Vec<usize>, AllocError> {
        match self {
            SaidVariety::Own(_) => Ok(Vec::new(alloc)),
            SaidVariety::OfBase(number) => Ok(vec![in alloc; *number]?),
        }
    }

    fn meaning(
        &self,
        _alloc: Global,
        table: &[Option<TypeVariety>],
    ) -> Result<TypeVariety, AllocError> {
        match self {
            SaidVariety::Own(variety) => Ok(*variety),
            SaidVariety::OfBase(number) => Ok(known_variety(table, *number)),
        }
    }
}

/// The varieties of types, of which those on circles are marked.
pub fn varieties(
    alloc: Global,
    forms: &[TypeForm],
    marks: &[bool],
) -> Result<Vec<Option<TypeVariety>>, AllocError>
    requires { IsMarked forms.now marks.now }
    ensures { IfOk result (λ table. (number : ℕ) → known TypeVariety.Hidden table.items number ≡ variety_of forms.now number) }
{
    let said = said_varieties(alloc, forms, marks)?;
    circles_are_endless::<SaidVariety>();
    match meanings(alloc, said.as_slice())? {
        Some(table) => Ok(table),
        None => unreachable!(),
    }
}

fn said_varieties(
    alloc: Global,
    forms: &[TypeForm],
    marks: &[bool],
) -> Result<Vec<SaidVariety>, AllocError>
    requires { IsMarked forms.now marks.now }
    ensures { IfOk result (λ said. said.items ≡ said_varieties forms.now) }
{
    let mut said = Vec::new(alloc);
    for (number, form) in forms.iter().enumerate() {
        said.push(say(is_marked(marks, number), forms.len(), form))?;
    }
    Ok(said)
}

// What a type says, if it does not stand on a circle; there are so many types.
fn say(is_on_circle: bool, count: usize, form: &TypeForm) -> SaidVariety
    ensures { result ≡ said is_on_circle count form.now }
{
    if is_on_circle {
        return SaidVariety::Own(TypeVariety::Hidden);
    }
    match form {
        TypeForm::Restriction { base, .. } | TypeForm::SimpleContent { base, .. } => {
            say_of_base(count, *base)
        }
        TypeForm::List { item, .. } => SaidVariety::Own(TypeVariety::List(*item)),
        TypeForm::ComplexContent { .. } => SaidVariety::Own(TypeVariety::NoValues),
    }
}

fn say_of_base(count: usize, base: Base) -> SaidVariety
    ensures { result ≡ said_of_base count base }
{
    match base {
        Base::Builtin(builtin) => SaidVariety::Own(TypeVariety::Atomic(builtin)),
        Base::Declared(number) if number < count => SaidVariety::OfBase(number),
        Base::Declared(_) => SaidVariety::Own(TypeVariety::Hidden),
    }
}

/// The variety of a type in a table; nothing is seen where the table has none.
pub fn known_variety(table: &[Option<TypeVariety>], number: usize) -> TypeVariety
    ensures { result ≡ known TypeVariety.Hidden table.now number }
{
    match table.get(number) {
        Some(Some(variety)) => *variety,
        _ => TypeVariety::Hidden,
    }
}

/// The variety of a type that is built in or declared.
pub fn base_variety(table: &[Option<TypeVariety>], base: Base) -> TypeVariety
    ensures { result ≡ variety_of_base (known TypeVariety.Hidden table.now) base }
{
    match base {
        Base::Builtin(builtin) => TypeVariety::Atomic(builtin),
        Base::Declared(number) => known_variety(table, number),
    }
}
