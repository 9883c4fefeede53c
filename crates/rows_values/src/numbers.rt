// Rows of the arithmetic on numbers.

use gx_num::{
    Number, abs, add, ceiling, compare, div, floor, idiv, modulo, mul, negate, print_number,
    read_dec, read_int, round, sub, to_dec, to_int,
};
use rows_words::not_a_row;
use std::alloc::{AllocError, Global};
use std::fmt::Debug;

/// An xs:integer in digits, or an xs:decimal where there is a point.
pub fn number(word: &str) -> Option<Number> {
    if word.contains('.') {
        read_dec(word).ok().map(Number::Dec)
    } else {
        read_int(word).ok().map(Number::int)
    }
}

/// The answer of an operation on one number, or of reading a text as one.
pub fn one_number(alloc: Global, call: &str, word: &str) -> Result<String, AllocError> {
    match (call, number(word)) {
        ("read_int", _) => shown(alloc, read_int(word).map(Number::int)),
        ("read_dec", _) => shown(alloc, read_dec(word).map(Number::Dec)),
        ("negate", Some(a)) => shown(alloc, negate(a)),
        ("abs", Some(a)) => shown(alloc, abs(a)),
        ("floor", Some(a)) => shown(alloc, floor(a)),
        ("ceiling", Some(a)) => shown(alloc, ceiling(a)),
        ("round", Some(a)) => shown(alloc, round(a)),
        ("to_int", Some(a)) => print_number(alloc, Number::int(to_int(a))),
        ("to_dec", Some(a)) => converted(alloc, &a),
        _ => not_a_row(alloc),
    }
}

fn converted(alloc: Global, number: &Number) -> Result<String, AllocError> {
    match number {
        Number::Int(a) => shown(alloc, to_dec(a.value()).map(Number::Dec)),
        Number::Dec(_) => not_a_row(alloc),
    }
}

/// The answer of an operation on two numbers.
pub fn two_numbers(
    alloc: Global,
    call: &str,
    a: Option<Number>,
    b: Option<Number>,
) -> Result<String, AllocError> {
    let (Some(a), Some(b)) = (a, b) else {
        return not_a_row(alloc);
    };
    match call {
        "add" => shown(alloc, add(a, b)),
        "sub" => shown(alloc, sub(a, b)),
        "mul" => shown(alloc, mul(a, b)),
        "div" => shown(alloc, div(a, b)),
        "idiv" => shown(alloc, idiv(a, b).map(Number::int)),
        "modulo" => shown(alloc, modulo(a, b)),
        "compare" => format!(in alloc; "{:?}", compare(a, b)),
        _ => not_a_row(alloc),
    }
}

fn shown<E: Debug + Drop>(alloc: Global, outcome: Result<Number, E>) -> Result<String, AllocError> {
    match outcome {
        Ok(number) => print_number(alloc, number),
        Err(fault) => format!(in alloc; "{fault:?}"),
    }
}
