// The static types of the function conversion rules, and the static rule of calls of declared functions.

ghost use Rattle.std.specs.Prelude.{◌≡◌, Some, IfOk, IfErr, OnOk};
ghost use Rattle.std.specs.Option.{option_copied};
ghost use Rattle.gx_base.specs.declared.code.Code.TheVariants.{XPTY0004};
ghost use Rattle.gx_core.specs.Converting.{expected_atomic, is_any_atomic_type};
ghost use Rattle.gx_base.specs.declared.place.Place.{Place};
ghost use Rattle.gx_core.specs.Queries.{TypedDeclaration};
ghost use Rattle.gx_include.specs.Decision.{is_included};
ghost use Rattle.gx_static.specs.Rule.{Ruling, has_type, cast_item, untyped_cast, converted_type, if_taken, user_rule, result_rule};
ghost use Rattle.gx_static.specs.declared.error.RuleError.TheVariants as refused;
ghost use Rattle.gx_static.specs.Judgement.{typed};
ghost use Rattle.gx_static.specs.QueryJudgement.{declared_where};
ghost use Rattle.gx_static.specs.Refusal.{RefusesType};

use crate::error::RuleError;
use crate::item_tests::no_type;
use crate::rules::data_type;
use gx_base::code::Code;
use gx_base::type_name::{Builtin, TypeName};
use gx_core::signature::FunctionSignature;
use gx_include::decision::is_included;
use gx_steptype::replace::{Replacement, replace};
use gx_types::item_type::ItemType;
use gx_types::schemas::Schemas;
use gx_types::sequence_type::{Ty, TyNode};
use std::alloc::{AllocError, Global};

// The type of the atomic values that a type expects.
fn expected_atomic(expected: &Ty) -> Option<&TypeName>
    ensures { option_copied result ≡ expected_atomic expected.now }
{
    match &expected.node {
        TyNode::Item(kind) => match &**kind {
            ItemType::Atom(kind) => Some(kind),
            _ => None,
        },
        TyNode::Optional(part) | TyNode::Star(part) | TyNode::Plus(part) => expected_atomic(part),
        _ => None,
    }
}

// A type in the place of xs:untypedAtomic.
#[derive(Clone, Copy)]
struct Cast<'a> {
    pub kind: &'a TypeName,
}

impl Replacement for Cast<'_> {
    ghost use Rattle.gx_static.specs.Rule.{cast_item};

    ghost gives = { λ cast kind. cast_item cast.kind.now kind };

    ghost fits = { λ cast. Unit {0} };

    fn replace(&mut self, alloc: Global, item: &ItemType) -> Result<Ty, AllocError> {
        cast_item(alloc, self.kind, item)
    }
}

fn cast_item(alloc: Global, kind: &TypeName, own: &ItemType) -> Result<Ty, AllocError>
    ensures { IfOk result (λ t. t ≡ cast_item kind.now own.now) }
{
    match own {
        ItemType::Atom(TypeName::Builtin(Builtin::UntypedAtomic)) => {
            Ty::of_item(alloc, ItemType::Atom(kind.clone()?))
        }
        _ => Ty::of_item(alloc, own.clone()?),
    }
}

fn is_any_atomic_type(kind: &TypeName) -> bool
    ensures { result ≡ is_any_atomic_type kind.now }
{
    matches!(kind, TypeName::Builtin(Builtin::AnyAtomic))
}

// The type of values each of which is cast where it is untyped.
pub(crate) fn untyped_cast(alloc: Global, kind: &TypeName, values: Ty) -> Result<Ty, AllocError>
    ensures { IfOk result (λ t. t ≡ untyped_cast kind.now values) }
{
    if is_any_atomic_type(kind) {
        return Ok(values);
    }
    replace(alloc, &mut Cast { kind }, &values)
}

// The type of a value as an expected type asks for it (XQuery 1.0, section 3.1.5).
#[tactic(auto, unfolding(crate::specs::Rule::converted_type))]
pub(crate) fn converted_type(
    alloc: Global,
    schemas: &Schemas,
    expected: &Ty,
    given: &Ty,
) -> Result<Ty, RuleError>
    ensures typed { IfOk result (λ t. converted_type schemas.now expected.now given.now ≡ has_type t) }
    ensures refused { IfErr result (λ e. RefusesType e (converted_type schemas.now expected.now given.now)) }
{
    match expected_atomic(expected) {
        Some(kind) => {
            let values = data_type(alloc, schemas, given)?;
            Ok(untyped_cast(alloc, kind, values)?)
        }
        None => Ok(given.clone()?),
    }
}

// The code of an argument stands at it.
fn at_argument(number: u32, code: Code) -> RuleError
    ensures { result ≡ refused.NoType code (Some number) }
{
    RuleError::NoType {
        code,
        part: Some(number),
    }
}

// Whether an argument, as its parameter asks for it, is of the type of the parameter; else the code that stands at it.
fn check_argument(
    alloc: Global,
    schemas: &Schemas,
    expected: &Ty,
    number: u32,
    argument: &Ty,
) -> Result<(), RuleError>
    ensures taken { (next : Ruling) → OnOk result (if_taken (λ t. is_included schemas.now t expected.now) XPTY0004 number next (converted_type schemas.now expected.now argument.now) ≡ next) }
    ensures refused { (next : Ruling) → IfErr result (λ e. RefusesType e (if_taken (λ t. is_included schemas.now t expected.now) XPTY0004 number next (converted_type schemas.now expected.now argument.now))) }
{
    let seen = match converted_type(alloc, schemas, expected, argument) {
        Ok(seen) => seen,
        Err(RuleError::NoType { code, .. }) => return Err(at_argument(number, code)),
        Err(RuleError::Memory) => return Err(RuleError::Memory),
    };
    let taken = is_included(alloc, schemas, &seen, expected);
    drop(seen);
    if taken? {
        Ok(())
    } else {
        Err(at_argument(number, Code::XPTY0004))
    }
}

// The type of a call of a declared function.
pub(crate) fn user_type(
    alloc: Global,
    schemas: &Schemas,
    signature: &FunctionSignature,
    arguments: &[Ty],
) -> Result<Ty, RuleError>
    ensures typed { IfOk result (λ t. user_rule schemas.now signature.now arguments.now ≡ has_type t) }
    ensures refused { IfErr result (λ e. RefusesType e (user_rule schemas.now signature.now arguments.now)) }
{
    let mut parameters = signature.parameters.as_slice();
    let mut left = arguments;
    let mut number = 0;
    while let Some((argument, behind)) = left.split_first() {
        let Some((expected, others)) = parameters.split_first() else {
            return Err(no_type(Code::XPTY0004));
        };
        check_argument(alloc, schemas, expected, number, argument)?;
        left = behind;
        parameters = others;
        let Some(next) = number.checked_add(1) else {
            return Err(RuleError::Memory);
        };
        number = next;
    }
    if parameters.is_empty() {
        Ok(signature.result.clone()?)
    } else {
        Err(no_type(Code::XPTY0004))
    }
}

// Whether the value of a body, as the type of the result asks for it, is of that type.
pub(crate) fn check_result(
    alloc: Global,
    schemas: &Schemas,
    expected: &Ty,
    body: &Ty,
) -> Result<(), RuleError>
    ensures typed { (place : Place) (declaration : TypedDeclaration) → OnOk result (declared_where place declaration (result_rule schemas.now expected.now body.now) ≡ typed declaration) }
    ensures refused { IfErr result (λ e. RefusesType e (result_rule schemas.now expected.now body.now)) }
{
    let seen = converted_type(alloc, schemas, expected, body)?;
    let included = is_included(alloc, schemas, &seen, expected);
    drop(seen);
    if included? {
        Ok(())
    } else {
        Err(no_type(Code::XPTY0004))
    }
}
