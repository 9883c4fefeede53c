// The types of items.

ghost use Rattle.std.specs.Prelude.{◌≡◌, ◌++◌, IfOk, fold};
ghost use Rattle.std.specs.Hash as writes;
ghost use Rattle.gx_types.specs.SameItemType.{same_type_name, same_optional_name, same_item_type};
ghost use Rattle.gx_types.specs.HashInput.{type_name_writes, test_writes, item_type_writes};

use crate::builtin::number;
use gx_base::name::Name;
use gx_base::type_name::TypeName;
use std::alloc::AllocError;
use std::hash::{Hash, Hasher};

/// The type of an item (XQuery 1.0, section 2.5.3). An element or an attribute without a name has any name, and a
/// document node with an element has it as its only child element. The type of an atomic value is an atomic type. Equality
/// and hash look at no prefix.
pub enum ItemType {
    Element { name: Option<Name>, kind: TypeName },
    Attribute { name: Option<Name>, kind: TypeName },
    Text,
    Document(Option<(Option<Name>, TypeName)>),
    Atom(TypeName),
}

impl Drop for ItemType {
    fn drop(self) {
        match self {
            ItemType::Element {
                name: _name,
                kind: _kind,
            } => {}
            ItemType::Attribute {
                name: _name,
                kind: _kind,
            } => {}
            ItemType::Text => {}
            ItemType::Document(_element) => {}
            ItemType::Atom(_kind) => {}
        }
    }
}

impl Clone for ItemType {
    ghost is_clone = { λ t copy. copy ≡ t };

    fn clone(&self) -> Result<ItemType, AllocError> {
        match self {
            ItemType::Element { name, kind } => {
                let (name, kind) = copy_of_test(name, kind)?;
                Ok(ItemType::Element { name, kind })
            }
            ItemType::Attribute { name, kind } => {
                let (name, kind) = copy_of_test(name, kind)?;
                Ok(ItemType::Attribute { name, kind })
            }
            ItemType::Text => Ok(ItemType::Text),
            ItemType::Document(None) => Ok(ItemType::Document(None)),
            ItemType::Document(Some((name, kind))) => {
                Ok(ItemType::Document(Some(copy_of_test(name, kind)?)))
            }
            ItemType::Atom(kind) => Ok(ItemType::Atom(kind.clone()?)),
        }
    }
}

impl PartialEq for ItemType {
    ghost use Rattle.std.specs.Cmp.{partial_equiv_from_equiv};
    ghost use Rattle.gx_types.specs.SameItemType.{same_item_type};
    ghost use Rattle.gx_types.specs.EqualNames.{item_types_are_equivalent};

    ghost eq = { same_item_type };

    ghost laws = { partial_equiv_from_equiv item_types_are_equivalent };

    fn eq(&self, other: &ItemType) -> bool {
        self.same(other)
    }
}

impl Eq for ItemType {
    ghost use Rattle.gx_types.specs.EqualNames.{item_types_are_equivalent};

    ghost laws = { item_types_are_equivalent };
}

impl Hash for ItemType {
    ghost use Rattle.gx_types.specs.HashInput.{item_type_writes};
    ghost use Rattle.gx_types.specs.KeyLaws.{equal_item_types_write_the_same};

    ghost hash_input = { item_type_writes };

    ghost respects_eq = { equal_item_types_write_the_same };

    fn hash<H: Hasher>(&self, state: &mut H) {
        match self {
            ItemType::Element { name, kind } => write_test(0, name, kind, state),
            ItemType::Attribute { name, kind } => write_test(1, name, kind, state),
            ItemType::Text => state.write_u8(2),
            ItemType::Document(None) => state.write_u8(3),
            ItemType::Document(Some((name, kind))) => write_test(4, name, kind, state),
            ItemType::Atom(kind) => {
                state.write_u8(5);
                write_kind(kind, state);
            }
        }
    }
}

impl ItemType {
    /// Whether two item types are equal, where names are by their URIs and local parts.
    pub fn same(&self, other: &ItemType) -> bool
        ensures { result ≡ same_item_type self.now other.now }
    {
        match (self, other) {
            (ItemType::Element { name: a, kind: t }, ItemType::Element { name: b, kind: u }) => {
                same_names(a, b) && same_kinds(t, u)
            }
            (ItemType::Attribute { name: a, kind: t }, ItemType::Attribute { name: b, kind: u }) =>
                same_names(a, b) && same_kinds(t, u),
            (ItemType::Text, ItemType::Text) => true,
            (ItemType::Document(None), ItemType::Document(None)) => true,
            (ItemType::Document(Some((a, t))), ItemType::Document(Some((b, u)))) => {
                same_names(a, b) && same_kinds(t, u)
            }
            (ItemType::Atom(t), ItemType::Atom(u)) => same_kinds(t, u),
            _ => false,
        }
    }
}

// A copy of an optional name with a type.
fn copy_of_test(
    name: &Option<Name>,
    kind: &TypeName,
) -> Result<(Option<Name>, TypeName), AllocError>
    ensures { IfOk result (λ copy. copy ≡ (name.now, kind.now)) }
{
    let name = copy_of_name(name)?;
    Ok((name, kind.clone()?))
}

// A copy of an optional name.
pub(crate) fn copy_of_name(name: &Option<Name>) -> Result<Option<Name>, AllocError>
    ensures { IfOk result (λ copy. copy ≡ name.now) }
{
    match name {
        Some(name) => Ok(Some(name.clone()?)),
        None => Ok(None),
    }
}

// Whether two optional names are equal.
fn same_names(a: &Option<Name>, b: &Option<Name>) -> bool
    ensures { result ≡ same_optional_name a.now b.now }
{
    match (a, b) {
        (None, None) => true,
        (Some(a), Some(b)) => a == b,
        _ => false,
    }
}

// Whether two names of types are equal.
pub(crate) fn same_kinds(t: &TypeName, u: &TypeName) -> bool
    ensures { result ≡ same_type_name t.now u.now }
{
    match (t, u) {
        (TypeName::Builtin(a), TypeName::Builtin(b)) => number(*a) == number(*b),
        (TypeName::Named(a), TypeName::Named(b)) => a == b,
        (TypeName::Anonymous(a), TypeName::Anonymous(b)) => a == b,
        _ => false,
    }
}

// Writes the number of a sort of item type, an optional name and a type to a hasher.
fn write_test<H: Hasher>(sort: u8, name: &Option<Name>, kind: &TypeName, state: &mut H)
    ensures { state.new ≡ fold H.write state.old (writes.u8 sort ++ test_writes name.now kind.now) }
{
    state.write_u8(sort);
    if let Some(name) = name {
        name.hash(state);
    }
    write_kind(kind, state);
}

// Writes the name of a type to a hasher.
fn write_kind<H: Hasher>(kind: &TypeName, state: &mut H)
    ensures { state.new ≡ fold H.write state.old (type_name_writes kind.now) }
{
    match kind {
        TypeName::Builtin(builtin) => state.write_u8(number(*builtin)),
        TypeName::Named(name) => name.hash(state),
        TypeName::Anonymous(number) => state.write_u32(*number),
    }
}
