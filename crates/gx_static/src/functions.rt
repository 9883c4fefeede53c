// The typing of declared functions.

ghost use Rattle.std.specs.Prelude.{◌≡◌, ◌≢◌, ◌++◌, [], ◌∷◌, None, drop, IfOk, IfErr, OnOk};
ghost use Rattle.gx_types.specs.SchemaSet.{SchemaSet};
ghost use Rattle.gx_core.specs.declared.expression.Declaration.TheVariants as declarations;
ghost use Rattle.gx_core.specs.Expression.{annotation_of, outer_of};
ghost use Rattle.gx_core.specs.Queries.{TypedDeclaration as OneDeclaration};
ghost use Rattle.gx_core.specs.CalledFunctions.{type_of_parameter};
ghost use Rattle.gx_core.specs.QueryMeaning.{parameter_types};
ghost use Rattle.gx_static.specs.Rule.{result_rule};
ghost use Rattle.gx_static.specs.QueryJudgement.{declared_where};
ghost use Rattle.gx_static.specs.Typing.{Awaited, then_typed, continued, judgement_of, judgement_with, EndsRejected};
ghost use Rattle.gx_static.specs.declared.typing.Task.TheVariants as tasks;

use crate::conversions::check_result;
use crate::error::{InferError, RuleError};
use crate::typing::{Task, Typing};
use gx_base::name::Name;
use gx_base::place::Place;
use gx_core::dismantle::dismantle;
use gx_core::expression::{Binder, CoreFunction, DeclaredFunction, TypedDeclaration, TypedExpr};
use gx_core::listed::Listed;
use gx_core::scope::Scope;
use gx_types::schemas::Schemas;
use gx_types::sequence_type::Ty;
use std::alloc::{AllocError, Global};

impl Typing {
    // Puts down the tasks of a function: to type its body, with its parameters in scope, and to declare it.
    pub(crate) fn open_function(&mut self, function: CoreFunction) -> Result<(), AllocError>
        ensures { (schemas : SchemaSet) → OnOk result (judgement_of schemas self.new ≡ judgement_with schemas (tasks.OpenFunction function) self.old) }
    {
        let DeclaredFunction {
            place,
            name,
            parameters,
            result,
            body,
        } = function;
        bind_parameters(&mut self.scope, parameters.as_slice())?;
        self.tasks
            .push(Task::DeclareFunction(place, name, parameters, result))?;
        self.tasks.push(Task::Infer(body))?;
        Ok(())
    }

    // Declares a function, whose body is the part on top, and takes its parameters out of scope.
    pub(crate) fn declare_function(
        &mut self,
        alloc: Global,
        schemas: &Schemas,
        place: Place,
        name: Name,
        parameters: Listed<Binder>,
        kind: Ty,
    ) -> Result<(), InferError>
        requires { judgement_with schemas.now (tasks.DeclareFunction place name parameters kind) self.now ≢ None }
        ensures typed { OnOk result (judgement_of schemas.now self.new ≡ judgement_with schemas.now (tasks.DeclareFunction place name parameters kind) self.old) }
        ensures rejected { IfErr result (λ e. EndsRejected e (judgement_with schemas.now (tasks.DeclareFunction place name parameters kind) self.old)) }
    {
        let Some(body) = self.parts.pop() else {
            unreachable!();
        };
        unbind(&mut self.scope, parameters.as_slice().len());
        match check_body(alloc, schemas, &kind, &body) {
            Ok(()) => Ok(self.add_function(place, name, parameters, kind, body)?),
            Err(error) => {
                dismantle(alloc, body);
                Err(error)
            }
        }
    }

    // Adds a function.
    fn add_function(
        &mut self,
        place: Place,
        name: Name,
        parameters: Listed<Binder>,
        kind: Ty,
        body: TypedExpr,
    ) -> Result<(), AllocError>
        ensures { (schemas : SchemaSet) → OnOk result (judgement_of schemas self.new
            ≡ continued schemas self.old.tasks self.old.parts self.old.scope
            (self.old.declared.items ++ declarations.Function (record { place = place; name = name; parameters = parameters; result = kind; body = body }) ∷ [])) }
    {
        self.declared.push(TypedDeclaration::Function(DeclaredFunction {
            place,
            name,
            parameters,
            result: kind,
            body,
        }))?;
        Ok(())
    }
}

// Binds parameters to their types, the first of them inside the others.
#[tactic(auto, using(crate::proofs::Declaring::last_parameter))]
fn bind_parameters(scope: &mut Scope<Ty>, parameters: &[Binder]) -> Result<(), AllocError>
    ensures { OnOk result (scope.new ≡ parameter_types parameters.now ++ scope.old) }
{
    let mut left = parameters;
    while let Some((parameter, before)) = left.split_last() {
        scope.bind(parameter.variable, type_of_parameter(parameter)?)?;
        left = before;
    }
    Ok(())
}

// The type that is written at a parameter; Core has one at each.
fn type_of_parameter(parameter: &Binder) -> Result<Ty, AllocError>
    ensures { IfOk result (λ kind. kind ≡ type_of_parameter parameter.now) }
{
    match &parameter.kind {
        Some(kind) => kind.clone(),
        None => Ok(Ty::none()),
    }
}

// Takes so many innermost bindings away.
fn unbind(scope: &mut Scope<Ty>, count: usize)
    ensures { scope.new ≡ drop count scope.old }
{
    for _ in 0..count {
        scope.unbind();
    }
}

// Whether the value of a body, as the type of the result asks for it, is of that type; else the code, which stands at the body.
fn check_body(
    alloc: Global,
    schemas: &Schemas,
    expected: &Ty,
    body: &TypedExpr,
) -> Result<(), InferError>
    ensures typed { (declaration : OneDeclaration) (next : OneDeclaration → Awaited)
        → OnOk result (then_typed (declared_where (outer_of body.now) declaration (result_rule schemas.now expected.now (annotation_of body.now))) next ≡ next declaration) }
    ensures rejected { (declaration : OneDeclaration) (next : OneDeclaration → Awaited)
        → IfErr result (λ e. EndsRejected e (then_typed (declared_where (outer_of body.now) declaration (result_rule schemas.now expected.now (annotation_of body.now))) next)) }
{
    match check_result(alloc, schemas, expected, &body.kind) {
        Ok(()) => Ok(()),
        Err(RuleError::NoType { code, .. }) => Err(InferError::NoType {
            place: body.outer,
            code,
        }),
        Err(RuleError::Memory) => Err(InferError::Memory),
    }
}
