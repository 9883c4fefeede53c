// Operators and their parts, apart and put together.

ghost use Rattle.std.specs.Prelude.{◌≡◌, ◌≤◌, ◌+◌, ◌++◌, ◌∷◌, [], length, map, IfOk, OnOk};
ghost use Rattle.gx_core.specs.declared.operator.Operator.TheVariants as operators;
ghost use Rattle.gx_core.specs.Expression.{all_parts};
ghost use Rattle.gx_core.specs.ExpressionView.{kind_of_clause, operator_of, order_of_key, part_of_clause, part_of_key, parts_of, parts_of_block};
ghost use Rattle.gx_plan.specs.Operands.{HasPlaceFor};

use gx_core::cases::Cases;
use gx_core::expression::{Clause, Expr, Form, Part, SortKey};
use gx_core::listed::Listed;
use gx_core::operator::{ClauseKind, Operator};
use gx_sorting::KeyOrder;
use std::alloc::{AllocError, Global};

/// The operator of a form, and its parts in order.
pub fn operator_and_parts<K: Drop>(
    alloc: Global,
    form: Form<K>,
) -> Result<(Operator, Vec<Expr<K>>), AllocError>
    ensures operator { IfOk result (λ apart. apart.0 ≡ operator_of form) }
    ensures parts { IfOk result (λ apart. all_parts apart.1.items ≡ parts_of form) }
{
    match form {
        Form::Lit(value) => Ok((Operator::Lit(value), Vec::new(alloc))),
        Form::Var(number) => Ok((Operator::Var(number), Vec::new(alloc))),
        Form::Empty => Ok((Operator::Empty, Vec::new(alloc))),
        Form::Step(axis, test, number) => {
            Ok((Operator::Step(axis, test, number), Vec::new(alloc)))
        }
        Form::NoContext => Ok((Operator::NoContext, Vec::new(alloc))),
        Form::Seq(first, second) => with_two(alloc, Operator::Seq, first, second),
        Form::For(binder, position, source, body) => {
            with_two(alloc, Operator::For(binder, position), source, body)
        }
        Form::Let(binder, value, body) => with_two(alloc, Operator::Let(binder), value, body),
        Form::SomeIn(binder, source, test) => {
            with_two(alloc, Operator::SomeIn(binder), source, test)
        }
        Form::EveryIn(binder, source, test) => {
            with_two(alloc, Operator::EveryIn(binder), source, test)
        }
        Form::Binary(operator, left, right) => {
            with_two(alloc, Operator::Binary(operator), left, right)
        }
        Form::If(condition, chosen, otherwise) => {
            with_three(alloc, Operator::If, condition, chosen, otherwise)
        }
        Form::Cast(operand, kind, optional) => {
            with_one(alloc, Operator::Cast(kind, optional), operand)
        }
        Form::Castable(operand, kind, optional) => {
            with_one(alloc, Operator::Castable(kind, optional), operand)
        }
        Form::Treat(operand, kind) => with_one(alloc, Operator::Treat(kind), operand),
        Form::Nodes(operand) => with_one(alloc, Operator::Nodes, operand),
        Form::Order(operand) => with_one(alloc, Operator::Order, operand),
        Form::Nth(operand, number, reverse) => {
            with_one(alloc, Operator::Nth(number, reverse), operand)
        }
        Form::Final(operand, reverse) => with_one(alloc, Operator::Final(reverse), operand),
        Form::DataOf(operand) => with_one(alloc, Operator::DataOf, operand),
        Form::Neg(operand) => with_one(alloc, Operator::Neg, operand),
        Form::Switch(operand, cases, default, branches) => {
            with_more(Operator::Switch(cases, default), operand, branches)
        }
        Form::Block(clauses, keys, body) => block_apart(alloc, clauses, keys, body),
        Form::Call(function, arguments) => Ok((Operator::Call(function), arguments)),
        Form::Construct(constructor, content) => {
            let operator = Operator::Construct(constructor, content.len());
            Ok((operator, content))
        }
        Form::User(signature, arguments) => {
            let operator = Operator::User(signature, arguments.len());
            Ok((operator, arguments))
        }
    }
}

fn with_one<O: Drop, T: Drop>(
    alloc: Global,
    operator: O,
    operand: Box<T>,
) -> Result<(O, Vec<T>), AllocError>
    ensures { IfOk result (λ apart. (apart.0 ≡ operator) × (apart.1.items ≡ operand.value ∷ [])) }
{
    let mut parts = Vec::new(alloc);
    parts.push(Box::into_inner(operand))?;
    Ok((operator, parts))
}

fn with_two<O: Drop, T: Drop>(
    alloc: Global,
    operator: O,
    first: Box<T>,
    second: Box<T>,
) -> Result<(O, Vec<T>), AllocError>
    ensures { IfOk result (λ apart. (apart.0 ≡ operator) × (apart.1.items ≡ first.value ∷ second.value ∷ [])) }
{
    let mut parts = Vec::new(alloc);
    parts.push(Box::into_inner(first))?;
    parts.push(Box::into_inner(second))?;
    Ok((operator, parts))
}

fn with_three<O: Drop, T: Drop>(
    alloc: Global,
    operator: O,
    first: Box<T>,
    second: Box<T>,
    third: Box<T>,
) -> Result<(O, Vec<T>), AllocError>
    ensures { IfOk result (λ apart. (apart.0 ≡ operator) × (apart.1.items ≡ first.value ∷ second.value ∷ third.value ∷ [])) }
{
    let mut parts = Vec::new(alloc);
    parts.push(Box::into_inner(first))?;
    parts.push(Box::into_inner(second))?;
    parts.push(Box::into_inner(third))?;
    Ok((operator, parts))
}

fn with_more<O: Drop, T: Drop>(
    operator: O,
    first: Box<T>,
    mut others: Vec<T>,
) -> Result<(O, Vec<T>), AllocError>
    ensures { IfOk result (λ apart. (apart.0 ≡ operator) × (apart.1.items ≡ first.value ∷ others.items)) }
{
    others.reverse();
    others.push(Box::into_inner(first))?;
    others.reverse();
    Ok((operator, others))
}

// What the clauses and the keys of a block have beside their parts, and its parts.
fn block_apart<K: Drop>(
    alloc: Global,
    mut clauses: Vec<Clause<K>>,
    mut keys: Vec<SortKey<K>>,
    body: Part<K>,
) -> Result<(Operator, Vec<Expr<K>>), AllocError>
    ensures operator { IfOk result (λ apart. apart.0 ≡ operators.Block (map kind_of_clause clauses.items) (map order_of_key keys.items)) }
    ensures parts { IfOk result (λ apart. apart.1.items ≡ parts_of_block clauses.items keys.items body.value) }
{
    let mut parts = Vec::new(alloc);
    parts.push(Box::into_inner(body))?;
    let mut orders = Vec::new(alloc);
    while let Some(key) = keys.pop() {
        take_key(key, &mut orders, &mut parts)?;
    }
    let mut kinds = Vec::new(alloc);
    while let Some(clause) = clauses.pop() {
        take_clause(clause, &mut kinds, &mut parts)?;
    }
    parts.reverse();
    orders.reverse();
    kinds.reverse();
    let operator = Operator::Block(Listed::from_vec(kinds), Listed::from_vec(orders));
    Ok((operator, parts))
}

fn take_clause<K: Drop>(
    clause: Clause<K>,
    kinds: &mut Vec<ClauseKind>,
    parts: &mut Vec<Expr<K>>,
) -> Result<(), AllocError>
    ensures kinds { OnOk result (kinds.new.items ≡ kinds.old.items ++ kind_of_clause clause ∷ []) }
    ensures parts { OnOk result (parts.new.items ≡ parts.old.items ++ part_of_clause clause ∷ []) }
{
    match clause {
        Clause::For(binder, position, source) => {
            put_both(kinds, ClauseKind::For(binder, position), parts, source)
        }
        Clause::Let(binder, value) => put_both(kinds, ClauseKind::Let(binder), parts, value),
        Clause::Where(condition) => put_both(kinds, ClauseKind::Where, parts, condition),
    }
}

fn take_key<K: Drop>(
    key: SortKey<K>,
    orders: &mut Vec<KeyOrder>,
    parts: &mut Vec<Expr<K>>,
) -> Result<(), AllocError>
    ensures orders { OnOk result (orders.new.items ≡ orders.old.items ++ order_of_key key ∷ []) }
    ensures parts { OnOk result (parts.new.items ≡ parts.old.items ++ part_of_key key ∷ []) }
{
    let SortKey { value, order } = key;
    put_both(orders, order, parts, value)
}

fn put_both<O: Drop, T: Drop>(
    others: &mut Vec<O>,
    other: O,
    parts: &mut Vec<T>,
    part: T,
) -> Result<(), AllocError>
    ensures others { OnOk result (others.new.items ≡ others.old.items ++ other ∷ []) }
    ensures parts { OnOk result (parts.new.items ≡ parts.old.items ++ part ∷ []) }
{
    others.push(other)?;
    parts.push(part)?;
    Ok(())
}

/// An operator over its parts.
pub fn form_of<K: Drop>(
    alloc: Global,
    operator: Operator,
    parts: Vec<Expr<K>>,
) -> Result<Form<K>, AllocError>
    requires { HasPlaceFor operator (length parts.items) }
    ensures operator { IfOk result (λ form. operator_of form ≡ operator) }
    ensures parts { IfOk result (λ form. parts_of form ≡ all_parts parts.items) }
{
    match operator {
        Operator::Lit(value) => Ok(Form::Lit(value)),
        Operator::Var(number) => Ok(Form::Var(number)),
        Operator::Empty => Ok(Form::Empty),
        Operator::Step(axis, test, number) => Ok(Form::Step(axis, test, number)),
        Operator::NoContext => Ok(Form::NoContext),
        Operator::Seq => {
            let (first, second) = two_of(alloc, parts)?;
            Ok(Form::Seq(first, second))
        }
        Operator::For(binder, position) => {
            let (source, body) = two_of(alloc, parts)?;
            Ok(Form::For(binder, position, source, body))
        }
        Operator::Let(binder) => {
            let (value, body) = two_of(alloc, parts)?;
            Ok(Form::Let(binder, value, body))
        }
        Operator::SomeIn(binder) => {
            let (source, test) = two_of(alloc, parts)?;
            Ok(Form::SomeIn(binder, source, test))
        }
        Operator::EveryIn(binder) => {
            let (source, test) = two_of(alloc, parts)?;
            Ok(Form::EveryIn(binder, source, test))
        }
        Operator::Binary(operator) => {
            let (left, right) = two_of(alloc, parts)?;
            Ok(Form::Binary(operator, left, right))
        }
        Operator::If => {
            let (condition, chosen, otherwise) = three_of(alloc, parts)?;
            Ok(Form::If(condition, chosen, otherwise))
        }
        Operator::Cast(kind, optional) => Ok(Form::Cast(one_of(alloc, parts)?, kind, optional)),
        Operator::Castable(kind, optional) => {
            Ok(Form::Castable(one_of(alloc, parts)?, kind, optional))
        }
        Operator::Treat(kind) => Ok(Form::Treat(one_of(alloc, parts)?, kind)),
        Operator::Nodes => Ok(Form::Nodes(one_of(alloc, parts)?)),
        Operator::Order => Ok(Form::Order(one_of(alloc, parts)?)),
        Operator::Nth(number, reverse) => Ok(Form::Nth(one_of(alloc, parts)?, number, reverse)),
        Operator::Final(reverse) => Ok(Form::Final(one_of(alloc, parts)?, reverse)),
        Operator::DataOf => Ok(Form::DataOf(one_of(alloc, parts)?)),
        Operator::Neg => Ok(Form::Neg(one_of(alloc, parts)?)),
        Operator::Switch(cases, default) => switch_form(alloc, cases, default, parts),
        Operator::Block(kinds, orders) => {
            block_form(alloc, kinds.into_vec(), orders.into_vec(), parts)
        }
        Operator::Call(function) => Ok(Form::Call(function, parts)),
        Operator::Construct(constructor, _count) => Ok(Form::Construct(constructor, parts)),
        Operator::User(signature, _count) => Ok(Form::User(signature, parts)),
    }
}

fn one_of<T: Drop>(alloc: Global, mut parts: Vec<T>) -> Result<Box<T>, AllocError>
    requires { length parts.items ≡ 1 }
    ensures { IfOk result (λ part. parts.items ≡ part.value ∷ []) }
{
    let Some(part) = parts.pop() else {
        unreachable!()
    };
    Ok(Box::new(alloc, part)?)
}

fn two_of<T: Drop>(alloc: Global, mut parts: Vec<T>) -> Result<(Box<T>, Box<T>), AllocError>
    requires { length parts.items ≡ 2 }
    ensures { IfOk result (λ two. parts.items ≡ two.0.value ∷ two.1.value ∷ []) }
{
    let Some(second) = parts.pop() else {
        unreachable!()
    };
    let second = Box::new(alloc, second)?;
    let first = one_of(alloc, parts)?;
    Ok((first, second))
}

fn three_of<T: Drop>(
    alloc: Global,
    mut parts: Vec<T>,
) -> Result<(Box<T>, Box<T>, Box<T>), AllocError>
    requires { length parts.items ≡ 3 }
    ensures { IfOk result (λ three. parts.items ≡ three.0.value ∷ three.1.value ∷ three.2.value ∷ []) }
{
    let Some(third) = parts.pop() else {
        unreachable!()
    };
    let third = Box::new(alloc, third)?;
    let (first, second) = two_of(alloc, parts)?;
    Ok((first, second, third))
}

fn switch_form<K: Drop>(
    alloc: Global,
    cases: Cases,
    default: u32,
    mut parts: Vec<Expr<K>>,
) -> Result<Form<K>, AllocError>
    requires { 1 ≤ length parts.items }
    ensures operator { IfOk result (λ form. operator_of form ≡ operators.Switch cases default) }
    ensures parts { IfOk result (λ form. parts_of form ≡ all_parts parts.items) }
{
    let operand = parts.remove(0);
    let operand = Box::new(alloc, operand)?;
    Ok(Form::Switch(operand, cases, default, parts))
}

// A block over its parts.
fn block_form<K: Drop>(
    alloc: Global,
    mut kinds: Vec<ClauseKind>,
    mut orders: Vec<KeyOrder>,
    mut parts: Vec<Expr<K>>,
) -> Result<Form<K>, AllocError>
    requires { length parts.items ≡ length kinds.items + length orders.items + 1 }
    ensures operator { IfOk result (λ form. operator_of form ≡ operators.Block kinds.items orders.items) }
    ensures parts { IfOk result (λ form. parts_of form ≡ all_parts parts.items) }
{
    let Some(body) = parts.pop() else {
        unreachable!()
    };
    let body = Box::new(alloc, body)?;
    let mut keys = Vec::new(alloc);
    while let Some(order) = orders.pop() {
        let Some(value) = parts.pop() else {
            unreachable!()
        };
        keys.push(SortKey { value, order })?;
    }
    keys.reverse();
    let mut clauses = Vec::new(alloc);
    while let Some(kind) = kinds.pop() {
        let Some(part) = parts.pop() else {
            unreachable!()
        };
        clauses.push(clause(kind, part))?;
    }
    clauses.reverse();
    Ok(Form::Block(clauses, keys, body))
}

// A clause over its part.
fn clause<K>(kind: ClauseKind, part: Expr<K>) -> Clause<K>
    ensures kind { kind_of_clause result ≡ kind }
    ensures part { part_of_clause result ≡ part }
{
    match kind {
        ClauseKind::For(binder, position) => Clause::For(binder, position, part),
        ClauseKind::Let(binder) => Clause::Let(binder, part),
        ClauseKind::Where => Clause::Where(part),
    }
}
