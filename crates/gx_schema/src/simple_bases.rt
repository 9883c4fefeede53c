// The simple types whose values simple content has.

ghost use Rattle.std.specs.Prelude.{◌≡◌, slice_get};
ghost use Rattle.gx_schema.specs.SimpleBases.{base_of_simple_content, simple_base};

use gx_schema_components::component::Base;
use gx_schema_simple::type_form::TypeForm;

/// The simple type of a base of simple content: the base itself where it is simple, and else that of its base.
#[tactic(auto, using(crate::proofs::SimpleVarieties::stays))]
pub fn simple_base(types: &[TypeForm], base: Base) -> Base
    ensures { result ≡ simple_base types.now base }
{
    let mut reached = base;
    for _ in 0..types.len() {
        let Base::Declared(number) = reached else {
            return reached;
        };
        match base_of_simple_content(types, number) {
            Some(base) => reached = base,
            None => return reached,
        }
    }
    reached
}

// The base of the type of a number, if that has simple content.
fn base_of_simple_content(types: &[TypeForm], number: usize) -> Option<Base>
    ensures { result ≡ base_of_simple_content (slice_get types.now number) }
{
    match types.get(number) {
        Some(TypeForm::SimpleContent { base, .. }) => Some(*base),
        _ => None,
    }
}
