// `instance of`, `treat as` and `typeswitch`.

ghost use Rattle.std.specs.Prelude.{◌≡◌, ◌≢◌, ◌++◌, ℕ, [], ◌∷◌, length, IfOk, IfSome, IsNone, OnOk};
ghost use Rattle.gx_resolved.specs.ResolvedView.{resolved_parts};
ghost use Rattle.gx_base.specs.declared.place.Place.{Place as PlainPlace};
ghost use Rattle.gx_core.specs.Expression.{At, a_part, all_parts, core_at};
ghost use Rattle.gx_core.specs.declared.operator.Operator.TheVariants as operators;
ghost use Rattle.gx_normal.specs.Constructs.{empty_at};
ghost use Rattle.gx_normal.specs.Making.{first_item, put_in_front};
ghost use Rattle.gx_normal.specs.Normalisation.{branch_core, core_of};
ghost use Rattle.gx_normal.specs.Clauses.{behind_clause, clause_numbers};
ghost use Rattle.gx_normal.specs.Normalising.{added, core_left, core_to_make, left_with};
ghost use Rattle.gx_normal.specs.Switches.{branch_at, branch_number, branches_joined, case_in_front, instance_at, over_operand, type_case, typeswitch_at};
ghost use Rattle.gx_normal.specs.declared.normalising.Task.TheVariants as tasks;

use crate::clauses::{bind_clause, unbind_clause};
use crate::construct::{at, call_of_none, empty};
use crate::normalising::{Normalising, Task};
use gx_base::place::Place;
use gx_base::stack::Stack;
use gx_core::cases::{Cases, TypeCase};
use gx_core::expression::{CoreExpr, Form};
use gx_core::listed::Listed;
use gx_funcs::function::Function;
use gx_resolved::tree::{BoundName, Construct, ResolvedExpr};
use gx_types::sequence_type::Ty;
use std::alloc::{AllocError, Global};

/// `instance of`: true where the operand is an instance of the type, and else false.
pub(crate) fn instance(
    alloc: Global,
    place: Place,
    kind: Ty,
    operand: Box<CoreExpr>,
) -> Result<CoreExpr, AllocError>
    ensures { IfOk result (λ e. e ≡ instance_at place kind operand.value) }
{
    let cases = one_case(alloc, kind, 0)?;
    let mut branches = Vec::new(alloc);
    branches.push(call_of_none(alloc, place, Function::True))?;
    branches.push(call_of_none(alloc, place, Function::False))?;
    Ok(at(place, Form::Switch(operand, cases, 0, branches)))
}

/// The cases of a switch that has one alone.
fn one_case(alloc: Global, kind: Ty, variable: u32) -> Result<Cases, AllocError>
    ensures { IfOk result (λ cases. cases ≡ type_case kind variable ∷ []) }
{
    let mut cases = Vec::new(alloc);
    cases.push(TypeCase { kind, variable })?;
    Ok(Listed::from_vec(cases))
}

impl<'a> Normalising<'a> {
    // A branch, with its variable in scope, if it has one.
    pub(crate) fn open_branch(
        &mut self,
        alloc: Global,
        place: Place,
        branch: &'a Construct,
        parts: &'a [ResolvedExpr],
    ) -> Result<(), AllocError>
        ensures { OnOk result (core_to_make self.new ≡ (let made = branch_core self.old.signatures.now place branch.now (resolved_parts parts.now) self.old.numbers self.old.focus self.old.free in
            core_left self.old.signatures.now self.old.tasks (added made.0 self.old.made) self.old.numbers self.old.focus made.1)) }
    {
        let Some(body) = only_part(parts) else {
            return self.add(alloc, empty(place));
        };
        self.bind_branch(alloc, place, branch, body)
    }

    // The body of a branch, with the variable of the branch in scope, if it has one.
    fn bind_branch(
        &mut self,
        alloc: Global,
        place: Place,
        branch: &'a Construct,
        body: &'a ResolvedExpr,
    ) -> Result<(), AllocError>
        ensures { OnOk result (core_to_make self.new ≡ (let b = core_of self.old.signatures.now body.now (clause_numbers branch.now self.old.free ++ self.old.numbers) self.old.focus (behind_clause branch.now self.old.free) in
            core_left self.old.signatures.now self.old.tasks (added (branch_at place branch.now self.old.free b.0) self.old.made) self.old.numbers self.old.focus b.1)) }
    {
        let number = self.free;
        self.made.push(Stack::new(alloc))?;
        self.free = bind_clause(&mut self.numbers, branch, number)?;
        self.tasks.push(Task::FinishBranch(place, branch, number))?;
        unbind_clause(&mut self.tasks, branch)?;
        self.tasks.push(Task::Normalise(body))
    }

    // Makes a branch by itself of its part.
    pub(crate) fn finish_branch(
        &mut self,
        alloc: Global,
        place: Place,
        branch: &Construct,
        number: u32,
    ) -> Result<(), AllocError>
        ensures { OnOk result (core_to_make self.new ≡ left_with (tasks.FinishBranch place branch.entry number) self.old) }
    {
        let Some(mut parts) = self.made.pop() else {
            return Ok(());
        };
        let Some(body) = parts.pop() else {
            return self.lose(alloc);
        };
        let body = Box::new(alloc, body)?;
        let e = branch_alone(alloc, place, branch, number, body)?;
        self.add(alloc, e)
    }
}

// The part, if there is one alone.
fn only_part(parts: &[ResolvedExpr]) -> Option<&ResolvedExpr>
    ensures some { IfSome result (λ part. parts.now ≡ part.now ∷ []) }
    ensures none { IsNone result → length parts.now ≢ 1 }
{
    match parts {
        [part] => Some(part),
        _ => None,
    }
}

// A branch by itself: a switch of nothing that has this case or this default alone.
fn branch_alone(
    alloc: Global,
    place: Place,
    branch: &Construct,
    number: u32,
    body: Box<CoreExpr>,
) -> Result<CoreExpr, AllocError>
    ensures { IfOk result (λ e. e ≡ branch_at place branch.now number body.value) }
{
    match branch {
        Construct::Case(bound, kind) => {
            let cases = one_case(alloc, kind.clone()?, branch_number(bound, number))?;
            let mut branches = one_branch(alloc, body)?;
            branches.push(empty(place))?;
            switch_of_nothing(alloc, place, cases, 0, branches)
        }
        Construct::Default(bound) => {
            let branches = one_branch(alloc, body)?;
            let cases = Listed::from_vec(Vec::new(alloc));
            switch_of_nothing(alloc, place, cases, branch_number(bound, number), branches)
        }
        _ => Ok(empty(place)),
    }
}

fn branch_number(bound: &Option<BoundName>, number: u32) -> u32
    ensures { result ≡ branch_number bound.now number }
{
    match bound {
        Some(_) => number,
        None => 0,
    }
}

// A switch over nothing.
fn switch_of_nothing(
    alloc: Global,
    place: Place,
    cases: Cases,
    default: u32,
    branches: Vec<CoreExpr>,
) -> Result<CoreExpr, AllocError>
    ensures { IfOk result (λ e. e ≡ core_at place place (operators.Switch cases default) (a_part (empty_at place) (all_parts branches.items))) }
{
    let nothing = Box::new(alloc, empty(place))?;
    Ok(at(place, Form::Switch(nothing, cases, default, branches)))
}

fn one_branch(alloc: Global, body: Box<CoreExpr>) -> Result<Vec<CoreExpr>, AllocError>
    ensures { IfOk result (λ branches. branches.items ≡ body.value ∷ []) }
{
    let mut branches = Vec::new(alloc);
    branches.push(Box::into_inner(body))?;
    Ok(branches)
}

/// A typeswitch: one switch of all its branches over its operand.
#[tactic(auto, using(crate::proofs::SwitchLemmas::behind_operand, crate::proofs::SwitchLemmas::no_operand))]
pub(crate) fn typeswitch(
    alloc: Global,
    place: Place,
    parts: Vec<CoreExpr>,
) -> Result<CoreExpr, AllocError>
    ensures { IfOk result (λ e. e ≡ typeswitch_at place parts.items) }
{
    let mut operands = parts;
    if operands.len() == 0 {
        return Ok(empty(place));
    }
    let branches = operands.split_off(1)?;
    let Some(operand) = operands.pop() else {
        return Ok(empty(place));
    };
    let operand = Box::new(alloc, operand)?;
    let branches = branches_joined(alloc, place, branches)?;
    Ok(over_operand(place, operand, branches))
}

// All branches in one switch, the default last.
fn branches_joined(
    alloc: Global,
    place: Place,
    branches: Vec<CoreExpr>,
) -> Result<Box<CoreExpr>, AllocError>
    ensures { IfOk result (λ e. e.value ≡ branches_joined place branches.items) }
{
    let mut front = branches;
    let Some(last) = front.pop() else {
        return Ok(Box::new(alloc, empty(place))?);
    };
    let mut joined = Box::new(alloc, last)?;
    while let Some(branch) = front.pop() {
        let branch = Box::new(alloc, branch)?;
        joined = Box::new(alloc, case_in_front(place, branch, joined)?)?;
    }
    Ok(joined)
}

// A case in front of the branches behind it.
fn case_in_front(
    place: Place,
    case: Box<CoreExpr>,
    rest: Box<CoreExpr>,
) -> Result<CoreExpr, AllocError>
    ensures { IfOk result (λ e. e ≡ case_in_front place case.value rest.value) }
{
    let (_place, _outer, _kind, case) = Box::into_inner(case).into_parts();
    match case {
        Form::Switch(nothing, first, _, bodies) => {
            branches_behind(place, nothing, first.into_vec(), bodies, rest)
        }
        other => {
            drop(other);
            drop(rest);
            Ok(empty(place))
        }
    }
}

// The first case, with the first body, in front of the branches of a switch.
#[tactic(auto, using(crate::proofs::SwitchLemmas::first_in_front))]
fn branches_behind(
    place: Place,
    nothing: Box<CoreExpr>,
    first: Vec<TypeCase>,
    bodies: Vec<CoreExpr>,
    rest: Box<CoreExpr>,
) -> Result<CoreExpr, AllocError>
    ensures { (there outer : PlainPlace) (number : ℕ) → IfOk result (λ e. e ≡ case_in_front place (At there outer tt (operators.Switch first.items number) (a_part nothing.value (all_parts bodies.items))) rest.value) }
{
    let (_place, _outer, _kind, rest) = Box::into_inner(rest).into_parts();
    match rest {
        Form::Switch(none, cases, default, branches) => {
            drop(none);
            put_in_front(
                place,
                nothing,
                first_of(first),
                first_of(bodies),
                cases.into_vec(),
                default,
                branches,
            )
        }
        other => {
            drop(other);
            Ok(empty(place))
        }
    }
}

fn put_in_front(
    place: Place,
    nothing: Box<CoreExpr>,
    case: Option<TypeCase>,
    body: Option<CoreExpr>,
    cases: Vec<TypeCase>,
    default: u32,
    branches: Vec<CoreExpr>,
) -> Result<CoreExpr, AllocError>
    ensures { IfOk result (λ e. e ≡ put_in_front place nothing.value case body cases.items default (all_parts branches.items)) }
{
    let Some(case) = case else {
        drop(body);
        return Ok(empty(place));
    };
    let Some(body) = body else {
        return Ok(empty(place));
    };
    let mut branches = branches;
    branches.insert(0, body)?;
    let mut cases = cases;
    cases.insert(0, case)?;
    let cases = Listed::from_vec(cases);
    Ok(at(place, Form::Switch(nothing, cases, default, branches)))
}

// The first of several.
fn first_of<T: Drop>(items: Vec<T>) -> Option<T>
    ensures { result ≡ first_item items.items }
{
    let mut items = items.into_iter();
    items.next()
}

// The branches over an operand.
fn over_operand(place: Place, operand: Box<CoreExpr>, branches: Box<CoreExpr>) -> CoreExpr
    ensures { result ≡ over_operand place operand.value branches.value }
{
    let (_place, _outer, _kind, form) = Box::into_inner(branches).into_parts();
    match form {
        Form::Switch(nothing, cases, default, branches) => {
            drop(nothing);
            at(place, Form::Switch(operand, cases, default, branches))
        }
        other => {
            drop(other);
            drop(operand);
            empty(place)
        }
    }
}
