// What types say of their attributes.

ghost use Rattle.std.specs.Prelude.{◌≡◌, ◌++◌, ℕ, [], IfOk, OnOk, filter, fold, if◌then◌else◌};
ghost use Rattle.gx_references.specs.Known.{known};
ghost use Rattle.indexmap.specs.IndexSet.{insert_all};
ghost use Rattle.gx_base.specs.Name.{same_name};
ghost use Rattle.gx_schema_attributes.specs.GivenUses.{names_of_uses, nothing_given, with_use};
ghost use Rattle.gx_schema_attributes.specs.GivingView.{HasNameSet, given_in};
ghost use Rattle.gx_schema_attributes.specs.OwnUses.{inherited_by, inherited_from, is_other, own_of_complex, own_of_type, prohibited_name, prohibited_names, stays};

use crate::given::{GivenUses, Giving, give, give_all, given_by_parts, nothing_yet};
use gx_base::name::Name;
use gx_schema_components::component::{
    AttributePart, Base, ComplexType, Derivation, TypeComponent, TypeForm,
};
use gx_types::declaration::{AttributeUse, AttributeUses};
use indexmap::IndexSet;
use std::alloc::{AllocError, Global};
use std::marker::Model;

/// What a type has of the attributes of its base (XML Schema 1.0 part 1, section 3.4.2): none, all of those of the declared type of a
/// number, or those of them that it neither prohibits nor gives anew.
#[derive(Clone, Copy)]
pub enum Inherited {
    Nothing,
    All(usize),
    Staying(usize),
}

/// Names in their order, which contracts see as a list.
#[derive(Drop)]
pub struct Names {
    items: Vec<Name>,
}

impl Model for Names {
    ghost use Rattle.std.specs.Prelude.{List};
    ghost use Rattle.gx_base.specs.declared.name.Name.{Name};

    ghost Value = { List Name };

    ghost view = { λ names. names.items.items };
}

impl Names {
    ghost use Rattle.std.specs.Prelude.{◌≡◌};

    /// The names of the vector, in its order.
    pub fn from_vec(items: Vec<Name>) -> Names
        ensures { result ≡ items.items }
    {
        Names { items }
    }

    /// The names in their order.
    pub fn as_slice(&self) -> &[Name]
        ensures { result.now ≡ self.now }
    {
        self.items.as_slice()
    }
}

/// What a type says of its attributes: what it has of those of its base, those that it gives, and the names that it prohibits.
#[derive(Drop)]
pub struct OwnUses {
    pub inherited: Inherited,
    pub given: AttributeUses,
    pub prohibited: Names,
}

/// What a type says of its attributes, over a table of what attribute groups give.
pub fn own_of_type(
    alloc: Global,
    groups: &[Option<GivenUses>],
    component: &TypeComponent,
) -> Result<OwnUses, AllocError>
    ensures { IfOk result (λ own. own ≡ own_of_type (known nothing_given groups.now) component.now) }
{
    match &component.form {
        TypeForm::Simple(_) => Ok(OwnUses {
            inherited: Inherited::Nothing,
            given: AttributeUses::from_vec(Vec::new(alloc)),
            prohibited: Names::from_vec(Vec::new(alloc)),
        }),
        TypeForm::Complex(complex) => own_of_complex(alloc, groups, complex),
    }
}

/// What a complex type says of its attributes, over a table of what attribute groups give.
pub fn own_of_complex(
    alloc: Global,
    groups: &[Option<GivenUses>],
    complex: &ComplexType,
) -> Result<OwnUses, AllocError>
    ensures { IfOk result (λ own. own ≡ own_of_complex (known nothing_given groups.now) complex.now) }
{
    let parts = complex.attributes.as_slice();
    let GivenUses { uses, doubled: _ } = given_by_parts(alloc, groups, parts)?;
    let prohibited = prohibited_names(alloc, parts)?;
    Ok(OwnUses {
        inherited: inherited_by(complex.derivation),
        given: uses,
        prohibited,
    })
}

fn inherited_by(derivation: Derivation) -> Inherited
    ensures { result ≡ inherited_by derivation }
{
    match derivation {
        Derivation::Own => Inherited::Nothing,
        Derivation::Extends(from) => match from.base {
            Base::Builtin(_) => Inherited::Nothing,
            Base::Declared(number) => Inherited::All(number),
        },
        Derivation::Restricts(from) => match from.base {
            Base::Builtin(_) => Inherited::Nothing,
            Base::Declared(number) => Inherited::Staying(number),
        },
    }
}

fn prohibited_names(alloc: Global, parts: &[AttributePart]) -> Result<Names, AllocError>
    ensures { IfOk result (λ names. names ≡ prohibited_names parts.now) }
{
    let mut names = Vec::new(alloc);
    let mut left = parts;
    while let Some((part, others)) = left.split_first() {
        add_prohibited(&mut names, part)?;
        left = others;
    }
    Ok(Names::from_vec(names))
}

fn add_prohibited(names: &mut Vec<Name>, part: &AttributePart) -> Result<(), AllocError>
    ensures { OnOk result (names.new.items ≡ names.old.items ++ prohibited_name part.now) }
{
    if let AttributePart::Prohibited { name, .. } = part {
        names.push(name.clone()?)?;
    }
    Ok(())
}

/// What a type has of the attributes of its base, given before its own.
pub fn inherited_from(
    alloc: Global,
    base: &[AttributeUse],
    own: &OwnUses,
) -> Result<Giving, AllocError>
    ensures indexed { IfOk result (λ giving. HasNameSet giving) }
    ensures given { IfOk result (λ giving. given_in giving ≡ fold with_use nothing_given (inherited_from base.now own.now)) }
{
    let mut giving = nothing_yet(alloc);
    match own.inherited {
        Inherited::Nothing => {}
        Inherited::All(_) => give_all(&mut giving, base)?,
        Inherited::Staying(_) => give_staying(alloc, &mut giving, base, own)?,
    }
    Ok(giving)
}

fn give_staying(
    alloc: Global,
    giving: &mut Giving,
    base: &[AttributeUse],
    own: &OwnUses,
) -> Result<(), AllocError>
    requires { HasNameSet giving.old }
    ensures indexed { OnOk result (HasNameSet giving.new) }
    ensures given { OnOk result (given_in giving.new ≡ fold with_use (given_in giving.old) (filter (stays own.now) base.now)) }
{
    let replaced = replaced_names(alloc, own)?;
    give_others(giving, &replaced, base)
}

// Gives the attributes whose names are not in a set.
fn give_others(
    giving: &mut Giving,
    replaced: &IndexSet<Name>,
    base: &[AttributeUse],
) -> Result<(), AllocError>
    requires { HasNameSet giving.old }
    ensures indexed { OnOk result (HasNameSet giving.new) }
    ensures given { OnOk result (given_in giving.new ≡ fold with_use (given_in giving.old) (filter (is_other replaced.now.keys) base.now)) }
{
    let mut left = base;
    while let Some((attribute, others)) = left.split_first() {
        give_if(giving, is_other(replaced, attribute), attribute)?;
        left = others;
    }
    Ok(())
}

fn is_other(names: &IndexSet<Name>, attribute: &AttributeUse) -> bool
    ensures { result ≡ is_other names.now.keys attribute.now }
{
    !names.contains(&attribute.name)
}

fn give_if(giving: &mut Giving, stays: bool, attribute: &AttributeUse) -> Result<(), AllocError>
    requires { HasNameSet giving.old }
    ensures indexed { OnOk result (HasNameSet giving.new) }
    ensures given { OnOk result (given_in giving.new ≡ (if stays then with_use (given_in giving.old) attribute.now else given_in giving.old)) }
{
    if stays {
        give(giving, attribute)?;
    }
    Ok(())
}

// The names that a type prohibits or gives.
fn replaced_names(alloc: Global, own: &OwnUses) -> Result<IndexSet<Name>, AllocError>
    ensures { IfOk result (λ names. is_other names.keys ≡ stays own.now) }
{
    let mut names = IndexSet::new(alloc);
    add_names(&mut names, own.prohibited.as_slice())?;
    add_names_of_uses(&mut names, own.given.as_slice())?;
    Ok(names)
}

fn add_names(names: &mut IndexSet<Name>, more: &[Name]) -> Result<(), AllocError>
    ensures { OnOk result (names.new.keys ≡ insert_all same_name names.old.keys more.now) }
{
    let mut left = more;
    while let Some((name, others)) = left.split_first() {
        names.insert(name.clone()?)?;
        left = others;
    }
    Ok(())
}

fn add_names_of_uses(names: &mut IndexSet<Name>, more: &[AttributeUse]) -> Result<(), AllocError>
    ensures { OnOk result (names.new.keys ≡ insert_all same_name names.old.keys (names_of_uses more.now)) }
{
    let mut left = more;
    while let Some((attribute, others)) = left.split_first() {
        names.insert(attribute.name.clone()?)?;
        left = others;
    }
    Ok(())
}
