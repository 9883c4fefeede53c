// The text of a syntax tree: each node in brackets behind its place, its parts in the order written.

use gx_ast::expression::{
    AttributePart, Binding, Case, Clause, DirectAttribute, DirectElement, Expr, ExprNode, Flwor,
    Key, Part, Quantified, Typeswitch,
};
use gx_ast::name::QName;
use gx_ast::sequence_type::{SequenceType, SingleType};
use gx_base::place::Place;
use std::alloc::{AllocError, Global};

// What is left to be shown.
#[derive(Clone, Copy)]
enum Piece<'a> {
    Tree(&'a Expr),
    Trees(&'a [Expr]),
    Clauses(&'a [Clause]),
    Bindings(&'a [Binding]),
    Keys(&'a [Key]),
    Cases(&'a [Case]),
    Attributes(&'a [DirectAttribute]),
    Values(&'a [AttributePart]),
    Parts(&'a [Part]),
    Word(&'static str),
}

/// Shows a tree, by a loop.
pub fn show(alloc: Global, out: &mut String, tree: &Expr) -> Result<(), AllocError> {
    let mut pieces = Vec::new(alloc);
    pieces.push(Piece::Tree(tree))?;
    for _ in 0..u64::MAX {
        match pieces.pop() {
            None => return Ok(()),
            Some(piece) => show_piece(out, piece, &mut pieces)?,
        }
    }
    Ok(())
}

fn show_piece<'a>(
    out: &mut String,
    piece: Piece<'a>,
    pieces: &mut Vec<Piece<'a>>,
) -> Result<(), AllocError> {
    match piece {
        Piece::Tree(tree) => show_tree(out, tree, pieces),
        Piece::Word(word) => show_word(out, word),
        Piece::Trees(trees) => put_trees(trees, pieces),
        Piece::Keys(keys) => show_keys(out, keys, pieces),
        Piece::Cases(cases) => show_cases(out, cases, pieces),
        Piece::Clauses(clauses) => show_clauses(out, clauses, pieces),
        Piece::Bindings(bindings) => show_bindings(out, bindings, pieces),
        Piece::Attributes(attributes) => show_attributes(out, attributes, pieces),
        Piece::Values(values) => show_values(out, values, pieces),
        Piece::Parts(parts) => show_parts(out, parts, pieces),
    }
}

fn show_tree<'a>(
    out: &mut String,
    tree: &'a Expr,
    pieces: &mut Vec<Piece<'a>>,
) -> Result<(), AllocError> {
    out.push('[')?;
    show_place(out, &tree.place)?;
    pieces.push(Piece::Word("]"))?;
    show_node(out, &tree.node, pieces)
}

fn put_trees<'a>(trees: &'a [Expr], pieces: &mut Vec<Piece<'a>>) -> Result<(), AllocError> {
    match trees.split_first() {
        None => Ok(()),
        Some((first, others)) => put_two(pieces, Piece::Tree(first), Piece::Trees(others)),
    }
}

// A node without expressions in it, or one whose word is shown and whose parts are left.
fn show_node<'a>(
    out: &mut String,
    node: &'a ExprNode,
    pieces: &mut Vec<Piece<'a>>,
) -> Result<(), AllocError> {
    match node {
        ExprNode::Number(value) => write!(out, "{value:?}"),
        ExprNode::String(text) => write!(out, "{:?}", text.as_str()),
        ExprNode::Variable(name) => show_named(out, "$", name),
        ExprNode::Empty => show_word(out, "()"),
        ExprNode::Context => show_word(out, "."),
        ExprNode::ParentStep => show_word(out, ".."),
        ExprNode::Step(step) => write!(out, "{step:?}"),
        ExprNode::EmptyElement(name) => show_named(out, "element ", name),
        ExprNode::EmptyAttribute(name) => show_named(out, "attribute ", name),
        ExprNode::Parenthesised(inner) => show_of(out, "parentheses ", inner, pieces),
        ExprNode::Document(inner) => show_of(out, "document ", inner, pieces),
        ExprNode::TextNode(inner) => show_of(out, "text ", inner, pieces),
        ExprNode::Signed(true, inner) => show_of(out, "- ", inner, pieces),
        ExprNode::Signed(false, inner) => show_of(out, "+ ", inner, pieces),
        ExprNode::Call(call) => {
            let arguments = Piece::Trees(call.arguments.as_slice());
            show_named_with(out, "call ", &call.name, arguments, pieces)
        }
        ExprNode::Element(name, content) => {
            show_named_with(out, "element ", name, Piece::Tree(content), pieces)
        }
        ExprNode::Attribute(name, content) => {
            show_named_with(out, "attribute ", name, Piece::Tree(content), pieces)
        }
        ExprNode::Direct(element) => show_direct(out, element, pieces),
        _ => show_operator(out, node, pieces),
    }
}

fn show_named_with<'a>(
    out: &mut String,
    word: &str,
    name: &QName,
    inside: Piece<'a>,
    pieces: &mut Vec<Piece<'a>>,
) -> Result<(), AllocError> {
    show_named(out, word, name)?;
    put(pieces, inside)
}

fn show_direct<'a>(
    out: &mut String,
    element: &'a DirectElement,
    pieces: &mut Vec<Piece<'a>>,
) -> Result<(), AllocError> {
    show_named(out, "<", &element.name)?;
    let content = Piece::Parts(element.content.as_slice());
    put_two(
        pieces,
        Piece::Attributes(element.attributes.as_slice()),
        content,
    )
}

// An operator over its operands.
fn show_operator<'a>(
    out: &mut String,
    node: &'a ExprNode,
    pieces: &mut Vec<Piece<'a>>,
) -> Result<(), AllocError> {
    match node {
        ExprNode::Sequence(first, second) => show_both(out, ", ", first, second, pieces),
        ExprNode::Path(true, left, right) => show_both(out, "// ", left, right, pieces),
        ExprNode::Path(false, left, right) => show_both(out, "/ ", left, right, pieces),
        ExprNode::Binary(operator, left, right) => {
            write!(out, "{operator:?} ")?;
            show_both(out, "", left, right, pieces)
        }
        ExprNode::InstanceOf(operand, kind) => {
            show_typed(out, "instance of", kind, operand, pieces)
        }
        ExprNode::TreatAs(operand, kind) => show_typed(out, "treat as", kind, operand, pieces),
        ExprNode::CastableAs(operand, kind) => {
            show_targeted(out, "castable as", kind, operand, pieces)
        }
        ExprNode::CastAs(operand, kind) => show_targeted(out, "cast as", kind, operand, pieces),
        ExprNode::Filtered(filtered) => {
            out.push_str("filtered ")?;
            let predicates = Piece::Trees(filtered.predicates.as_slice());
            put_two(pieces, Piece::Tree(&filtered.operand), predicates)
        }
        _ => show_binder(out, node, pieces),
    }
}

fn show_typed<'a>(
    out: &mut String,
    word: &str,
    kind: &SequenceType,
    operand: &'a Expr,
    pieces: &mut Vec<Piece<'a>>,
) -> Result<(), AllocError> {
    write!(out, "{word} {kind:?} ")?;
    put(pieces, Piece::Tree(operand))
}

fn show_targeted<'a>(
    out: &mut String,
    word: &str,
    target: &SingleType,
    operand: &'a Expr,
    pieces: &mut Vec<Piece<'a>>,
) -> Result<(), AllocError> {
    write!(out, "{word} {target:?} ")?;
    put(pieces, Piece::Tree(operand))
}

// A conditional, or what binds variables.
fn show_binder<'a>(
    out: &mut String,
    node: &'a ExprNode,
    pieces: &mut Vec<Piece<'a>>,
) -> Result<(), AllocError> {
    match node {
        ExprNode::If(test, chosen, otherwise) => {
            put(pieces, Piece::Tree(otherwise))?;
            show_both(out, "if ", test, chosen, pieces)
        }
        ExprNode::Flwor(flwor) => show_flwor(flwor, pieces),
        ExprNode::Quantified(quantified) => show_quantified(out, quantified, pieces),
        ExprNode::Typeswitch(switch) => show_typeswitch(out, switch, pieces),
        _ => Ok(()),
    }
}

fn show_flwor<'a>(flwor: &'a Flwor, pieces: &mut Vec<Piece<'a>>) -> Result<(), AllocError> {
    let stable = Piece::Word(if flwor.stable { "stable " } else { "" });
    let returned = Piece::Tree(&flwor.returned);
    put_two(pieces, Piece::Word("return "), returned)?;
    put_two(pieces, stable, Piece::Keys(flwor.keys.as_slice()))?;
    put(pieces, Piece::Clauses(flwor.clauses.as_slice()))
}

fn show_quantified<'a>(
    out: &mut String,
    quantified: &'a Quantified,
    pieces: &mut Vec<Piece<'a>>,
) -> Result<(), AllocError> {
    out.push_str(if quantified.every { "every " } else { "some " })?;
    let bindings = Piece::Bindings(quantified.bindings.as_slice());
    put_two(pieces, bindings, Piece::Tree(&quantified.condition))
}

fn show_typeswitch<'a>(
    out: &mut String,
    switch: &'a Typeswitch,
    pieces: &mut Vec<Piece<'a>>,
) -> Result<(), AllocError> {
    write!(out, "typeswitch {:?} ", switch.default)?;
    put(pieces, Piece::Tree(&switch.otherwise))?;
    let cases = Piece::Cases(switch.cases.as_slice());
    put_two(pieces, Piece::Tree(&switch.operand), cases)
}

fn put<'a>(pieces: &mut Vec<Piece<'a>>, piece: Piece<'a>) -> Result<(), AllocError> {
    Ok(pieces.push(piece)?)
}

// Puts two pieces, the first to be shown first.
fn put_two<'a>(
    pieces: &mut Vec<Piece<'a>>,
    first: Piece<'a>,
    second: Piece<'a>,
) -> Result<(), AllocError> {
    pieces.push(second)?;
    put(pieces, first)
}

pub fn show_word(out: &mut String, word: &str) -> Result<(), AllocError> {
    Ok(out.push_str(word)?)
}

fn show_of<'a>(
    out: &mut String,
    word: &str,
    inner: &'a Expr,
    pieces: &mut Vec<Piece<'a>>,
) -> Result<(), AllocError> {
    out.push_str(word)?;
    put(pieces, Piece::Tree(inner))
}

fn show_both<'a>(
    out: &mut String,
    word: &str,
    first: &'a Expr,
    second: &'a Expr,
    pieces: &mut Vec<Piece<'a>>,
) -> Result<(), AllocError> {
    out.push_str(word)?;
    put_two(pieces, Piece::Tree(first), Piece::Tree(second))
}

fn show_keys<'a>(
    out: &mut String,
    keys: &'a [Key],
    pieces: &mut Vec<Piece<'a>>,
) -> Result<(), AllocError> {
    let Some((first, others)) = keys.split_first() else {
        return Ok(());
    };
    write!(out, "{:?} ", first.order)?;
    put_two(pieces, Piece::Tree(&first.value), Piece::Keys(others))
}

fn show_cases<'a>(
    out: &mut String,
    cases: &'a [Case],
    pieces: &mut Vec<Piece<'a>>,
) -> Result<(), AllocError> {
    let Some((first, others)) = cases.split_first() else {
        return Ok(());
    };
    write!(out, "{:?} ", first.head)?;
    put_two(pieces, Piece::Tree(&first.body), Piece::Cases(others))
}

fn show_clauses<'a>(
    out: &mut String,
    clauses: &'a [Clause],
    pieces: &mut Vec<Piece<'a>>,
) -> Result<(), AllocError> {
    let Some((first, others)) = clauses.split_first() else {
        return Ok(());
    };
    pieces.push(Piece::Clauses(others))?;
    match first {
        Clause::For(place, bindings) => {
            show_clause(out, "for ", place, bindings.as_slice(), pieces)
        }
        Clause::Let(place, bindings) => {
            show_clause(out, "let ", place, bindings.as_slice(), pieces)
        }
        Clause::Where(place, condition) => {
            show_place(out, place)?;
            show_of(out, "where ", condition, pieces)
        }
    }
}

fn show_clause<'a>(
    out: &mut String,
    word: &str,
    place: &Place,
    bindings: &'a [Binding],
    pieces: &mut Vec<Piece<'a>>,
) -> Result<(), AllocError> {
    show_place(out, place)?;
    out.push_str(word)?;
    put(pieces, Piece::Bindings(bindings))
}

fn show_bindings<'a>(
    out: &mut String,
    bindings: &'a [Binding],
    pieces: &mut Vec<Piece<'a>>,
) -> Result<(), AllocError> {
    let Some((first, others)) = bindings.split_first() else {
        return Ok(());
    };
    write!(out, "{:?} ", first.bound)?;
    put_two(pieces, Piece::Tree(&first.value), Piece::Bindings(others))
}

fn show_attributes<'a>(
    out: &mut String,
    attributes: &'a [DirectAttribute],
    pieces: &mut Vec<Piece<'a>>,
) -> Result<(), AllocError> {
    let Some((first, others)) = attributes.split_first() else {
        return Ok(());
    };
    show_named(out, " @", &first.name)?;
    let value = Piece::Values(first.value.as_slice());
    put_two(pieces, value, Piece::Attributes(others))
}

fn show_values<'a>(
    out: &mut String,
    values: &'a [AttributePart],
    pieces: &mut Vec<Piece<'a>>,
) -> Result<(), AllocError> {
    let Some((first, others)) = values.split_first() else {
        return Ok(());
    };
    pieces.push(Piece::Values(others))?;
    match first {
        AttributePart::Text(text) => write!(out, " {:?}", text.as_str()),
        AttributePart::Enclosed(value) => show_of(out, " ", value, pieces),
    }
}

fn show_parts<'a>(
    out: &mut String,
    parts: &'a [Part],
    pieces: &mut Vec<Piece<'a>>,
) -> Result<(), AllocError> {
    let Some((first, others)) = parts.split_first() else {
        return Ok(());
    };
    pieces.push(Piece::Parts(others))?;
    match first {
        Part::Blank(text) => write!(out, " blank {:?}", text.as_str()),
        Part::Text(text) => write!(out, " {:?}", text.as_str()),
        Part::Element(element) => show_of(out, " ", element, pieces),
        Part::Enclosed(value) => show_of(out, " enclosed ", value, pieces),
    }
}

pub fn show_named(out: &mut String, word: &str, name: &QName) -> Result<(), AllocError> {
    let Place { line, column } = name.place;
    let prefix = name.prefix.as_str();
    let colon = if prefix.is_empty() { "" } else { ":" };
    let local = name.local.as_str();
    write!(out, "{word}{prefix}{colon}{local}@{line}:{column} ")
}

pub fn show_place(out: &mut String, place: &Place) -> Result<(), AllocError> {
    let Place { line, column } = *place;
    write!(out, "{line}:{column} ")
}
