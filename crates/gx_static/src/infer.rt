// The type of each expression of a query, or the first expression that has none.

ghost use Rattle.std.specs.Prelude.{◌≡◌, ◌++◌, [], ◌∷◌, IfOk, IfErr, OnOk};
ghost use Rattle.gx_core.specs.Invariant.{HasQueryVariablesInOrder, CallsDeclaredFunctions};
ghost use Rattle.gx_core.specs.QueryMeaning.{plain_query, global_types, external_types, IsSoundQuery};
ghost use Rattle.gx_static.specs.Judgement.{typed};
ghost use Rattle.gx_static.specs.QueryJudgement.{core_typed, first_unsettled, query_judged, query_typed, Rejects, RejectsQuery, QueryFailsFirst};
ghost use Rattle.gx_static.specs.Refusal.{NamesFailure};

use crate::error::InferError;
use crate::laws::{query_rejection_names_a_failure, query_typing_is_sound};
use crate::typing::Typing;
use gx_base::code::Code;
use gx_base::place::Place;
use gx_core::dismantle::{dismantle, dismantle_declarations};
use gx_core::expression::{Binder, Core, TypedCore, TypedDeclaration};
use gx_core::scope::Scope;
use gx_settling::functions::FunctionUses;
use gx_types::schemas::Schemas;
use gx_types::sequence_type::Ty;
use std::alloc::{AllocError, Global};

/// The query with the type of each expression, which is sound where its variables are in order and it calls functions of its own
/// alone: no expression goes wrong, and the value of each belongs to its type. Or the place and the code of the first expression to
/// which the static rules give no type: declarations come in order before the body, parts before the expression, and left parts before
/// right parts (XQuery 1.0 and XPath 2.0 Formal Semantics, section 4).
pub fn infer(alloc: Global, schemas: &Schemas, core: Core) -> Result<TypedCore, InferError>
    ensures typed { IfOk result (λ t. query_judged schemas.now core ≡ query_typed t) }
    ensures rejected { IfErr result (λ e. RejectsQuery e (query_judged schemas.now core)) }
    ensures fails { IfErr result (λ e. NamesFailure e (QueryFailsFirst schemas.now core)) }
    ensures same { IfOk result (λ t. plain_query t ≡ core) }
    ensures sound { HasQueryVariablesInOrder core → CallsDeclaredFunctions core → IfOk result (λ t. IsSoundQuery schemas.now t) }
{
    query_typing_is_sound();
    query_rejection_names_a_failure();
    let _types = schemas.types();
    settled_core(alloc, schemas, core)
}

// The query with its types, where each global can be evaluated in the order of the declarations.
fn settled_core(alloc: Global, schemas: &Schemas, core: Core) -> Result<TypedCore, InferError>
    ensures typed { IfOk result (λ t. query_judged schemas.now core ≡ query_typed t) }
    ensures rejected { IfErr result (λ e. RejectsQuery e (query_judged schemas.now core)) }
{
    let Ok(uses) = FunctionUses::of(alloc, core.declarations.as_slice()) else {
        drop(core);
        return Err(InferError::Memory);
    };
    let query = typed_core(alloc, schemas, core)?;
    match first_unsettled(alloc, &uses, query.declarations.as_slice()) {
        Ok(None) => Ok(query),
        Ok(Some(place)) => {
            dismantle_query(alloc, query);
            Err(InferError::NoType {
                place,
                code: Code::XQST0054,
            })
        }
        Err(error) => {
            dismantle_query(alloc, query);
            Err(error.into())
        }
    }
}

// Drops a query, each tree by a loop.
fn dismantle_query(alloc: Global, query: TypedCore) {
    let TypedCore { declarations, body } = query;
    dismantle_declarations(alloc, declarations.into_vec());
    dismantle(alloc, body);
}

// The variable of the first global whose value cannot be evaluated where it stands.
fn first_unsettled(
    alloc: Global,
    uses: &FunctionUses,
    declarations: &[TypedDeclaration],
) -> Result<Option<Place>, AllocError>
    ensures { IfOk result (λ place. place ≡ first_unsettled uses.now declarations.now []) }
{
    let mut scope = Scope::new(alloc);
    let mut left = declarations;
    while let Some((declaration, others)) = left.split_first() {
        if let Some(place) = unsettled(alloc, uses, declaration, &scope)? {
            return Ok(Some(place));
        }
        bind_global(declaration, &mut scope)?;
        left = others;
    }
    Ok(None)
}

// The variable of a global whose value cannot be evaluated where it stands.
fn unsettled(
    alloc: Global,
    uses: &FunctionUses,
    declaration: &TypedDeclaration,
    scope: &Scope<Ty>,
) -> Result<Option<Place>, AllocError>
    ensures { IfOk result (λ place. place ≡ first_unsettled uses.now (declaration.now ∷ []) scope.now) }
{
    match declaration {
        TypedDeclaration::Global {
            binder,
            value: Some(value),
            ..
        } => {
            if uses.may_be_evaluated(alloc, scope, value)? {
                Ok(None)
            } else {
                Ok(Some(binder.place))
            }
        }
        _ => Ok(None),
    }
}

// Binds a global variable to its type.
fn bind_global(declaration: &TypedDeclaration, scope: &mut Scope<Ty>) -> Result<(), AllocError>
    ensures { OnOk result (scope.new ≡ global_types declaration.now ++ scope.old) }
{
    match declaration {
        TypedDeclaration::Global {
            binder,
            value: Some(value),
            ..
        } => scope.bind(binder.variable, value.kind.clone()?),
        TypedDeclaration::Global {
            binder,
            value: None,
            ..
        } => bind_external(binder, scope),
        TypedDeclaration::Function(_) => Ok(()),
    }
}

// Binds an external variable to the type that is written.
fn bind_external(binder: &Binder, scope: &mut Scope<Ty>) -> Result<(), AllocError>
    ensures { OnOk result (scope.new ≡ external_types binder.now binder.now.kind ++ scope.old) }
{
    match &binder.kind {
        Some(kind) => scope.bind(binder.variable, kind.clone()?),
        None => Ok(()),
    }
}

// The query with its types. The tasks end long before the loop does.
fn typed_core(alloc: Global, schemas: &Schemas, core: Core) -> Result<TypedCore, InferError>
    ensures typed { IfOk result (λ t. core_typed schemas.now core ≡ typed t) }
    ensures rejected { IfErr result (λ e. Rejects e (core_typed schemas.now core)) }
{
    let mut typing = Typing::new(alloc, core)?;
    for _ in 0..u64::MAX {
        match typing.tasks.pop() {
            None => return Ok(typing.result()),
            Some(task) => {
                if let Err(error) = typing.step(alloc, schemas, task) {
                    typing.dismantle(alloc);
                    return Err(error);
                }
            }
        }
    }
    Err(InferError::Memory)
}
