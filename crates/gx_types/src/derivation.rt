// Derivation of types, and what item types take.

ghost use Rattle.std.specs.Prelude.{◌≡◌, IsTrue, ◌↔◌};
ghost use Rattle.gx_types.specs.Derivation.{bases_among, DerivesFrom, LeadsTo, is_derived};
ghost use Rattle.gx_types.specs.Grounded.{EndsWithin};
ghost use Rattle.gx_types.specs.ItemTakes.{ItemTakes, name_fits};

use crate::builtin::builtin_base;
use crate::declared_types::DeclaredTypes;
use crate::item_type::{ItemType, same_kinds};
use crate::schemas::Schemas;
use crate::shape::Shape;
use gx_base::name::Name;
use gx_base::type_name::TypeName;

/// Whether a type is derived from another one: a finite chain of bases, possibly of no step, leads from the one to the
/// other (XML Schema 1.0 part 1, section 2.2.1.1; XQuery 1.0, section 2.5.4).
pub fn derives(schemas: &Schemas, t: &TypeName, u: &TypeName) -> bool
    ensures exact { IsTrue result ↔ DerivesFrom schemas.now t.now u.now }
    ensures test { result ≡ is_derived schemas.now t.now u.now }
{
    let types = schemas.declared_types();
    leads_to(types, t, u, types.count())
}

/// Whether an item type takes a shape (XQuery 1.0, section 2.5.4).
pub fn item_takes(schemas: &Schemas, item: &ItemType, shape: &Shape) -> bool
    ensures { IsTrue result ↔ ItemTakes schemas.now item.now shape.now }
{
    match (item, shape) {
        (ItemType::Element { name, kind }, Shape::Elem(given, t)) => {
            fits(name, given) && derives(schemas, t, kind)
        }
        (ItemType::Attribute { name, kind }, Shape::Attr(given, t)) => {
            fits(name, given) && derives(schemas, t, kind)
        }
        (ItemType::Text, Shape::Text) => true,
        (ItemType::Document(None), Shape::Doc(_)) => true,
        (ItemType::Document(Some((name, kind))), Shape::Doc(Some((given, t)))) => {
            fits(name, given) && derives(schemas, t, kind)
        }
        (ItemType::Atom(kind), Shape::Atom(t)) => derives(schemas, t, kind),
        _ => false,
    }
}

// Whether a name fits an optional one.
fn fits(wanted: &Option<Name>, name: &Name) -> bool
    ensures { result ≡ name_fits wanted.now name.now }
{
    match wanted {
        Some(wanted) => wanted == name,
        None => true,
    }
}

// Whether a chain of bases with at most so many declared types leads from a type to another one.
fn leads_to(types: &DeclaredTypes, t: &TypeName, u: &TypeName, steps: usize) -> bool
    requires { EndsWithin (bases_among types.now) steps t.now }
    ensures { IsTrue result ↔ LeadsTo (bases_among types.now) t.now u.now }
{
    if same_kinds(t, u) {
        return true;
    }
    match t {
        TypeName::Builtin(builtin) => match builtin_base(*builtin) {
            Some(base) => leads_to(types, &TypeName::Builtin(base), u, steps),
            None => false,
        },
        TypeName::Named(_) | TypeName::Anonymous(_) => match types.declaration(t) {
            Some(declared) => leads_to(types, &declared.base, u, steps - 1),
            None => false,
        },
    }
}
