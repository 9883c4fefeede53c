// The names that types ask for.

ghost use Rattle.std.specs.Prelude.{◌≡◌, [], IfOk, OnOk, option_copied};
ghost use Rattle.gx_include_positions.specs.Names.{name_of, with_name, with_names, may_fit};

use gx_base::name::Name;
use gx_types::item_type::ItemType;
use gx_types::sequence_type::{Ty, TyNode};
use indexmap::IndexSet;
use std::alloc::{AllocError, Global};

/// The name that an item type asks for.
pub fn name_asked(item: &ItemType) -> Option<&Name>
    ensures { option_copied result ≡ name_of item.now }
{
    match item {
        ItemType::Element { name, .. } => name.as_ref(),
        ItemType::Attribute { name, .. } => name.as_ref(),
        ItemType::Document(Some((name, _))) => name.as_ref(),
        ItemType::Text | ItemType::Document(None) | ItemType::Atom(_) => None,
    }
}

/// Whether an item type may take a shape of a name, or of none.
pub fn may_take(item: &ItemType, given: Option<&Name>) -> bool
    ensures { result ≡ may_fit (name_of item.now) (option_copied given.entry) }
{
    match name_asked(item) {
        None => true,
        Some(asked) => match given {
            None => false,
            Some(given) => asked == given,
        },
    }
}

/// The names that a type asks for.
pub fn names_of(alloc: Global, t: &Ty) -> Result<IndexSet<Name>, AllocError>
    ensures { IfOk result (λ names. names.keys ≡ with_names [] t.now) }
{
    let mut names = IndexSet::new(alloc);
    add_names(&mut names, t)?;
    Ok(names)
}

/// Puts the names that a type asks for behind those of a set, in the order of first mention.
pub fn add_names(names: &mut IndexSet<Name>, t: &Ty) -> Result<(), AllocError>
    ensures { OnOk result (names.new.keys ≡ with_names names.old.keys t.now) }
{
    match &t.node {
        TyNode::Never | TyNode::Empty => Ok(()),
        TyNode::Item(item) => add_name_of(names, item),
        TyNode::Seq(first, second) | TyNode::Alt(first, second) => {
            add_names(names, first)?;
            add_names(names, second)
        }
        TyNode::Optional(part) | TyNode::Star(part) | TyNode::Plus(part) => add_names(names, part),
    }
}

fn add_name_of(names: &mut IndexSet<Name>, item: &ItemType) -> Result<(), AllocError>
    ensures { OnOk result (names.new.keys ≡ with_name names.old.keys (name_of item.now)) }
{
    if let Some(name) = name_asked(item) {
        names.insert(name.clone()?)?;
    }
    Ok(())
}
