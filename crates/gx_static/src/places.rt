// Where the code of an operator that has no type stands.

ghost use Rattle.std.specs.Prelude.{◌≡◌, ◌∷◌, map};
ghost use Rattle.gx_core.specs.Expression.{each_of, outer_of};
ghost use Rattle.gx_core.specs.ExpressionView.{operator_of, parts_of};
ghost use Rattle.gx_static.specs.Judgement.{code_place, own_place, part_places};
ghost use Rattle.gx_static.specs.Refusal.{refusal_at};

use crate::block_parts::block_place;
use crate::error::{InferError, RuleError};
use gx_base::place::Place;
use gx_core::expression::{Form, TypedExpr};
use gx_types::sequence_type::Ty;

// Why the operator of a form has no type.
pub(crate) fn refusal(place: Place, form: &Form<Ty>, error: RuleError) -> InferError
    ensures { result ≡ refusal_at (own_place (operator_of form.now) place) (part_places (operator_of form.now) (each_of outer_of (parts_of form.now))) error }
{
    match error {
        RuleError::NoType { code, part } => InferError::NoType {
            place: form_place(place, form, part),
            code,
        },
        RuleError::Memory => InferError::Memory,
    }
}

// Where the code of an operator stands: at a part, at the variable that it binds, or at the operator itself.
#[tactic(auto, using(crate::proofs::Continuing::each_of_arguments))]
fn form_place(place: Place, form: &Form<Ty>, part: Option<u32>) -> Place
    ensures { result ≡ code_place (own_place (operator_of form.now) place) (part_places (operator_of form.now) (each_of outer_of (parts_of form.now))) part }
{
    match form {
        Form::Lit(_) | Form::Var(_) | Form::Empty | Form::Step(_, _, _) | Form::NoContext =>
            code_place(place, &[], part),
        Form::Nodes(operand)
        | Form::Order(operand)
        | Form::DataOf(operand)
        | Form::Neg(operand)
        | Form::Cast(operand, _, _)
        | Form::Castable(operand, _, _)
        | Form::Treat(operand, _)
        | Form::Nth(operand, _, _)
        | Form::Final(operand, _) => code_place(place, &[operand.outer], part),
        Form::Switch(operand, _, _, branches) => {
            branch_place(place, operand.outer, branches.as_slice(), part)
        }
        Form::Seq(first, second) | Form::Binary(_, first, second) => {
            code_place(place, &[first.outer, second.outer], part)
        }
        Form::For(binder, _, first, body)
        | Form::Let(binder, first, body)
        | Form::SomeIn(binder, first, body)
        | Form::EveryIn(binder, first, body) => {
            code_place(binder.place, &[first.outer, body.outer], part)
        }
        Form::Block(clauses, keys, body) => block_place(place, clauses, keys, body, part),
        Form::If(condition, chosen, otherwise) => code_place(
            place,
            &[condition.outer, chosen.outer, otherwise.outer],
            part,
        ),
        Form::Call(_, arguments) | Form::Construct(_, arguments) | Form::User(_, arguments) => {
            argument_place(place, arguments.as_slice(), part)
        }
    }
}

// Where the code of a switch stands: at its operand, at a branch, or at the switch itself.
fn branch_place(place: Place, operand: Place, branches: &[TypedExpr], part: Option<u32>) -> Place
    ensures { result ≡ code_place place (operand ∷ map outer_of branches.now) part }
{
    match part {
        Some(0) => operand,
        Some(number) => argument_place(place, branches, Some(number - 1)),
        None => place,
    }
}

// Where the code of a call stands: at an argument, or at the call itself.
fn argument_place(place: Place, arguments: &[TypedExpr], part: Option<u32>) -> Place
    ensures { result ≡ code_place place (map outer_of arguments.now) part }
{
    match part {
        Some(number) => match arguments.get(number as usize) {
            Some(argument) => argument.outer,
            None => place,
        },
        None => place,
    }
}

fn code_place(place: Place, parts: &[Place], part: Option<u32>) -> Place
    ensures { result ≡ code_place place parts.now part }
{
    match part {
        Some(number) => parts.get(number as usize).copied().unwrap_or(place),
        None => place,
    }
}
