// Trees taken apart by a loop, so that dropping one takes no stack in proportion to its depth.

use crate::expression::{Clause, Declaration, DeclaredFunction, Expr, Form, Part, Query, SortKey};
use std::alloc::Global;

/// Drops an expression part by part. What finds no memory is dropped as it is.
pub fn dismantle<K: Drop>(alloc: Global, expression: Expr<K>) {
    let (_place, _outer, _kind, form) = expression.into_parts();
    dismantle_form(alloc, form);
}

/// Drops an expression of this form part by part. What finds no memory is dropped as it is.
pub fn dismantle_form<K: Drop>(alloc: Global, form: Form<K>) {
    let mut parts = Vec::new(alloc);
    set_aside(alloc, form, &mut parts);
    for _ in 0..u64::MAX {
        match parts.pop() {
            Some(part) => {
                let (_place, _outer, _kind, form) = Box::into_inner(part).into_parts();
                set_aside(alloc, form, &mut parts);
            }
            None => return,
        }
    }
}

/// Drops declarations, each value and each body part by part.
pub fn dismantle_declarations<K: Drop>(alloc: Global, declarations: Vec<Declaration<K>>) {
    for declaration in declarations {
        dismantle_declaration(alloc, declaration);
    }
}

fn dismantle_declaration<K: Drop>(alloc: Global, declaration: Declaration<K>) {
    match declaration {
        Declaration::Global {
            name: _name,
            binder: _binder,
            value,
        } => {
            if let Some(value) = value {
                dismantle(alloc, value);
            }
        }
        Declaration::Function(function) => dismantle_function(alloc, function),
    }
}

fn dismantle_function<K: Drop>(alloc: Global, function: DeclaredFunction<K>) {
    let DeclaredFunction {
        place: _place,
        name: _name,
        parameters: _parameters,
        result: _result,
        body,
    } = function;
    dismantle(alloc, body);
}

/// Drops a query part by part.
pub fn dismantle_query<K: Drop>(alloc: Global, query: Query<K>) {
    dismantle_declarations(alloc, query.declarations.into_vec());
    dismantle(alloc, query.body);
}

fn set_aside<K: Drop>(alloc: Global, form: Form<K>, parts: &mut Vec<Part<K>>) {
    match form {
        Form::Lit(_) | Form::Var(_) | Form::Empty | Form::NoContext => {}
        Form::Step(_, _test, _) => {}
        Form::DataOf(operand) | Form::Neg(operand) | Form::Nodes(operand) | Form::Order(operand) =>
            set_boxed_part_aside(operand, parts),
        Form::Cast(operand, _target, _) | Form::Castable(operand, _target, _) =>
            set_boxed_part_aside(operand, parts),
        Form::Treat(operand, kind) => {
            drop(kind);
            set_boxed_part_aside(operand, parts);
        }
        Form::Nth(operand, _, _) | Form::Final(operand, _) => set_boxed_part_aside(operand, parts),
        Form::Switch(operand, cases, _, branches) => {
            drop(cases);
            let _kept = parts.push(operand);
            set_arguments_aside(alloc, branches, parts);
        }
        Form::Seq(first, second) | Form::Binary(_, first, second) => {
            let _first_kept = parts.push(first);
            let _second_kept = parts.push(second);
        }
        Form::For(_binder, _, value, body)
        | Form::Let(_binder, value, body)
        | Form::SomeIn(_binder, value, body)
        | Form::EveryIn(_binder, value, body) => {
            let _value_kept = parts.push(value);
            let _body_kept = parts.push(body);
        }
        Form::If(condition, chosen, otherwise) => {
            let _condition_kept = parts.push(condition);
            let _chosen_kept = parts.push(chosen);
            let _otherwise_kept = parts.push(otherwise);
        }
        Form::Block(clauses, keys, body) => {
            set_clauses_aside(alloc, clauses, parts);
            set_keys_aside(alloc, keys, parts);
            let _kept = parts.push(body);
        }
        Form::Call(_, arguments) => set_arguments_aside(alloc, arguments, parts),
        Form::Construct(constructor, content) => {
            drop(constructor);
            set_arguments_aside(alloc, content, parts);
        }
        Form::User(signature, arguments) => {
            drop(signature);
            set_arguments_aside(alloc, arguments, parts);
        }
    }
}

fn set_arguments_aside<K: Drop>(
    alloc: Global,
    mut arguments: Vec<Expr<K>>,
    parts: &mut Vec<Part<K>>,
) {
    for _ in 0..arguments.len() {
        if let Some(argument) = arguments.pop() {
            set_part_aside(alloc, argument, parts);
        }
    }
}

fn set_clauses_aside<K: Drop>(
    alloc: Global,
    mut clauses: Vec<Clause<K>>,
    parts: &mut Vec<Part<K>>,
) {
    for _ in 0..clauses.len() {
        if let Some(clause) = clauses.pop() {
            match clause {
                Clause::For(_binder, _, part) | Clause::Let(_binder, part) => {
                    set_part_aside(alloc, part, parts);
                }
                Clause::Where(part) => set_part_aside(alloc, part, parts),
            }
        }
    }
}

fn set_keys_aside<K: Drop>(alloc: Global, mut keys: Vec<SortKey<K>>, parts: &mut Vec<Part<K>>) {
    for _ in 0..keys.len() {
        if let Some(key) = keys.pop() {
            set_part_aside(alloc, key.value, parts);
        }
    }
}

fn set_part_aside<K: Drop>(alloc: Global, part: Expr<K>, parts: &mut Vec<Part<K>>) {
    if let Ok(part) = Box::new(alloc, part) {
        set_boxed_part_aside(part, parts);
    }
}

fn set_boxed_part_aside<K: Drop>(part: Part<K>, parts: &mut Vec<Part<K>>) {
    let _kept = parts.push(part);
}
