// Which types are known to be types of one node.

ghost use Rattle.std.specs.Prelude.{◌≡◌, true, IsTrue, is_some};
ghost use Rattle.gx_base.specs.declared.type_name.Builtin.TheVariants as builtins;
ghost use Rattle.gx_base.specs.declared.type_name.TypeName.TheVariants as types;
ghost use Rattle.gx_types.specs.Derivation.{is_derived};
ghost use Rattle.gx_types.specs.SchemaSet.{declaration_of};
ghost use Rattle.gx_types.specs.SequenceType.{item as one_item};
ghost use Rattle.gx_include.specs.Decision.{is_included};
ghost use Rattle.gx_steptype.specs.StepType.{node_type};

use gx_base::type_name::{Builtin, TypeName};
use gx_types::derivation::derives;
use gx_types::item_type::ItemType;
use gx_types::schemas::Schemas;
use gx_types::sequence_type::{Ty, TyNode};

// Whether a type is a choice of item types of nodes.
pub(crate) fn is_choice_of_nodes(schemas: &Schemas, t: &Ty) -> bool
    ensures { IsTrue result → is_included schemas.now t.now node_type ≡ true }
{
    let _types = schemas.types();
    match &t.node {
        TyNode::Item(kind) => is_of_nodes(schemas, kind),
        TyNode::Alt(first, second) => {
            is_choice_of_nodes(schemas, first) && is_choice_of_nodes(schemas, second)
        }
        _ => false,
    }
}

// Whether an item type is one of nodes.
fn is_of_nodes(schemas: &Schemas, item: &ItemType) -> bool
    ensures { IsTrue result → is_included schemas.now (one_item item.now) node_type ≡ true }
{
    let _types = schemas.types();
    match item {
        ItemType::Element { name: _, kind } => is_known(schemas, kind),
        ItemType::Attribute { name: _, kind } => is_simple(schemas, kind),
        ItemType::Text => true,
        ItemType::Document(_) => true,
        ItemType::Atom(_) => false,
    }
}

// Whether a type is built-in or declared.
fn is_known(schemas: &Schemas, kind: &TypeName) -> bool
    ensures { IsTrue result → is_derived schemas.now kind.now (types.Builtin builtins.AnyType) ≡ true }
{
    let _types = schemas.types();
    match kind {
        TypeName::Builtin(_) => true,
        TypeName::Named(_) | TypeName::Anonymous(_) => is_declared(schemas, kind),
    }
}

fn is_declared(schemas: &Schemas, kind: &TypeName) -> bool
    ensures { result ≡ is_some (declaration_of schemas.now kind.now) }
{
    schemas.declared(kind).is_some()
}

// Whether a type is a simple one.
fn is_simple(schemas: &Schemas, kind: &TypeName) -> bool
    ensures { result ≡ is_derived schemas.now kind.now (types.Builtin builtins.AnySimple) }
{
    derives(schemas, kind, &TypeName::Builtin(Builtin::AnySimple))
}
