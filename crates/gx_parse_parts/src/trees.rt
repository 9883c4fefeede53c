// Trees of their parts.

ghost use Rattle.std.specs.Prelude.{◌≡◌, IfOk, None};
ghost use Rattle.gx_ast.specs.declared.sequence_type.NodeTest.TheVariants as node_test_is;
ghost use Rattle.gx_ast.specs.SyntaxTree.{at, conditional, direct as direct_form, flwor as flwor_form, number as number_form, parenthesised as parenthesised_form, quantified as quantified_form, signed as signed_form, string as string_form, typeswitch as typeswitch_form, variable};
ghost use Rattle.gx_parse_grammar.specs.Nodes.{Found, binary_of, dots_value, is_minus, join_binary, join_comma, join_path, name_at, tree};
ghost use Rattle.gx_parse_grammar.specs.Computed.{computed_form, empty_form, named_form};
ghost use Rattle.gx_parse_grammar.specs.NodeTests.{step_tree, test_of};
ghost use Rattle.gx_parse_parts.specs.Parsing.{called_tree, filtered_tree, named_tree};
ghost use Rattle.gx_parse_tokens.specs.Names.{name_made};
ghost use Rattle.gx_grammar.specs.Value.{node, nothing, pair};
ghost use Rattle.gx_ast.specs.SyntaxView.{attributes_of, bindings_of, cases_of, clauses_of, keys_of, parts_of, trees_of};

use gx_ast::boxed::Boxed;
use gx_ast::expression::{
    BinaryOperator, Binding, Call, Case, Clause, DirectAttribute, DirectElement, Expr, ExprNode,
    Filtered, Flwor, Key, Part, Quantified, Typeswitch,
};
use gx_ast::name::{Axis, NameTest, QName};
use gx_ast::sequence_type::{AxisStep, DefaultHead, NodeTest};
use gx_base::place::Place;
use gx_base::text_builder::TextBuilder;
use gx_num::Number;
use gx_parse_grammar::kind_words::{KindWord, TestContent};
use gx_parse_grammar::word::{ComputedNode, NamedNode, Word};
use gx_parse_tokens::kind_words::kind_test;
use gx_parse_tokens::names::ReadName;
use gx_parse_tokens::source::Source;
use std::alloc::{AllocError, Global};

/// The items in no more memory than they take, where that can be had.
pub fn fitted<T>(items: Vec<T>) -> Vec<T>
    ensures { result.items ≡ items.items }
{
    let mut list = items;
    list.shrink_to_fit();
    list
}

/// An expression that stands for none, and takes no memory.
pub fn missing() -> Expr {
    Expr {
        place: Place { line: 1, column: 1 },
        node: ExprNode::Context,
    }
}

fn binary_operator(word: Word) -> BinaryOperator
    ensures { result ≡ binary_of word }
{
    match word {
        Word::Or => BinaryOperator::Or,
        Word::And => BinaryOperator::And,
        Word::Equal => BinaryOperator::Equal,
        Word::NotEqual => BinaryOperator::NotEqual,
        Word::Less => BinaryOperator::Less,
        Word::LessOrEqual => BinaryOperator::LessOrEqual,
        Word::Greater => BinaryOperator::Greater,
        Word::GreaterOrEqual => BinaryOperator::GreaterOrEqual,
        Word::ValueEqual => BinaryOperator::ValueEqual,
        Word::ValueNotEqual => BinaryOperator::ValueNotEqual,
        Word::ValueLess => BinaryOperator::ValueLess,
        Word::ValueLessOrEqual => BinaryOperator::ValueLessOrEqual,
        Word::ValueGreater => BinaryOperator::ValueGreater,
        Word::ValueGreaterOrEqual => BinaryOperator::ValueGreaterOrEqual,
        Word::Is => BinaryOperator::Is,
        Word::Precedes => BinaryOperator::Before,
        Word::Follows => BinaryOperator::After,
        Word::To => BinaryOperator::To,
        Word::Plus => BinaryOperator::Add,
        Word::Minus => BinaryOperator::Subtract,
        Word::Times => BinaryOperator::Multiply,
        Word::Divide => BinaryOperator::Divide,
        Word::DivideInteger => BinaryOperator::DivideInteger,
        Word::Modulo => BinaryOperator::Modulo,
        Word::Union | Word::Bar => BinaryOperator::Union,
        Word::Intersect => BinaryOperator::Intersect,
        _ => BinaryOperator::Except,
    }
}

// Two trees in boxes.
fn boxes(alloc: Global, left: Expr, right: Expr) -> Result<(Box<Expr>, Box<Expr>), AllocError>
    ensures { IfOk result (λ b. (b.0.value ≡ left) × (b.1.value ≡ right)) }
{
    let left = Box::new(alloc, left)?;
    let right = Box::new(alloc, right)?;
    Ok((left, right))
}

/// Two operands with an operator between.
pub fn binary(
    alloc: Global,
    place: Place,
    word: Word,
    left: Expr,
    right: Expr,
) -> Result<Expr, AllocError>
    ensures { IfOk result (λ e. e ≡ join_binary place word left right) }
{
    let (left, right) = boxes(alloc, left, right)?;
    let node = ExprNode::Binary(binary_operator(word), left, right);
    Ok(Expr { place, node })
}

/// Two parts of a path.
pub fn path(
    alloc: Global,
    place: Place,
    word: Word,
    left: Expr,
    right: Expr,
) -> Result<Expr, AllocError>
    ensures { IfOk result (λ e. e ≡ join_path place word left right) }
{
    let (left, right) = boxes(alloc, left, right)?;
    let node = ExprNode::Path(word == Word::Slashes, left, right);
    Ok(Expr { place, node })
}

/// Two expressions with a comma between.
pub fn sequence(
    alloc: Global,
    place: Place,
    word: Word,
    left: Expr,
    right: Expr,
) -> Result<Expr, AllocError>
    ensures { IfOk result (λ e. e ≡ join_comma place word left right) }
{
    let place = left.place;
    let (left, right) = boxes(alloc, left, right)?;
    let node = ExprNode::Sequence(left, right);
    Ok(Expr { place, node })
}

/// An expression in parentheses.
pub fn parenthesised(alloc: Global, place: Place, inner: Expr) -> Result<Expr, AllocError>
    ensures { IfOk result (λ e. e ≡ at place (parenthesised_form inner)) }
{
    let node = ExprNode::Parenthesised(Box::new(alloc, inner)?);
    Ok(Expr { place, node })
}

/// An operand with a sign.
pub fn signed(alloc: Global, place: Place, word: Word, operand: Expr) -> Result<Expr, AllocError>
    ensures { IfOk result (λ e. e ≡ at place (signed_form (is_minus word) operand)) }
{
    let node = ExprNode::Signed(word == Word::Minus, Box::new(alloc, operand)?);
    Ok(Expr { place, node })
}

/// A conditional.
pub fn condition(
    alloc: Global,
    place: Place,
    test: Expr,
    chosen: Expr,
    otherwise: Expr,
) -> Result<Expr, AllocError>
    ensures { IfOk result (λ e. e ≡ at place (conditional test chosen otherwise)) }
{
    let (chosen, otherwise) = boxes(alloc, chosen, otherwise)?;
    let test = Box::new(alloc, test)?;
    let node = ExprNode::If(test, chosen, otherwise);
    Ok(Expr { place, node })
}

/// A FLWOR.
pub fn flwor(
    alloc: Global,
    place: Place,
    clauses: Vec<Clause>,
    order: Place,
    stable: bool,
    keys: Vec<Key>,
    returned: Expr,
) -> Result<Expr, AllocError>
    ensures { IfOk result (λ e. e ≡ at place (flwor_form (clauses_of clauses.items) order stable (keys_of keys.items) returned)) }
{
    let flwor = Flwor {
        clauses,
        order,
        stable,
        keys,
        returned,
    };
    let node = ExprNode::Flwor(Box::new(alloc, flwor)?);
    Ok(Expr { place, node })
}

/// A typeswitch.
pub fn typeswitch(
    alloc: Global,
    place: Place,
    operand: Expr,
    cases: Vec<Case>,
    default: DefaultHead,
    otherwise: Expr,
) -> Result<Expr, AllocError>
    ensures { IfOk result (λ e. e ≡ at place (typeswitch_form operand (cases_of cases.items) default otherwise)) }
{
    let typeswitch = Typeswitch {
        operand,
        cases,
        default,
        otherwise,
    };
    let node = ExprNode::Typeswitch(Box::new(alloc, typeswitch)?);
    Ok(Expr { place, node })
}

/// A quantified expression.
pub fn quantified(
    alloc: Global,
    place: Place,
    every: bool,
    bindings: Vec<Binding>,
    condition: Expr,
) -> Result<Expr, AllocError>
    ensures { IfOk result (λ e. e ≡ at place (quantified_form every (bindings_of bindings.items) condition)) }
{
    let quantified = Quantified {
        every,
        bindings,
        condition,
    };
    let node = ExprNode::Quantified(Box::new(alloc, quantified)?);
    Ok(Expr { place, node })
}

/// The test that a name test is.
pub fn by_name(alloc: Global, test: NameTest) -> Result<NodeTest, AllocError>
    ensures { IfOk result (λ made. made ≡ node_test_is.Name test) }
{
    Ok(NodeTest::Name(Boxed::new(alloc, test)?))
}

/// The test of a name, with what stands in parentheses behind the name of a kind test (XQuery 1.0, section 3.2.1.2).
pub fn test_of(
    alloc: Global,
    kind: Option<KindWord>,
    name: QName,
    content: Option<TestContent>,
) -> Result<NodeTest, AllocError>
    ensures { IfOk result (λ test. test ≡ test_of kind name content) }
{
    let Some(kind) = kind else {
        return by_name(alloc, NameTest::Named(name));
    };
    let Some(content) = content else {
        return by_name(alloc, NameTest::Named(name));
    };
    let test = kind_test(kind, name.place, content);
    Ok(NodeTest::Kind(Boxed::new(alloc, test)?))
}

/// A step that is a name.
pub fn named(source: &Source<'_>, place: Place, name: ReadName) -> Result<Expr, AllocError>
    ensures { IfOk result (λ e. e ≡ named_tree (name_at place (name_made name))) }
{
    let name = name.at(source, place)?;
    let place = name.place;
    let test = by_name(source.alloc(), NameTest::Named(name))?;
    Ok(step(place, None, test))
}

/// A step of a test at its first token, with its axis as it is written.
pub fn step(place: Place, axis: Option<Axis>, test: NodeTest) -> Expr
    ensures { result ≡ step_tree place axis test }
{
    let node = ExprNode::Step(AxisStep { axis, test });
    Expr { place, node }
}

/// A step that is a name, or a kind test where its parentheses stand behind the name.
pub fn tested(
    source: &Source<'_>,
    place: Place,
    kind: Option<KindWord>,
    name: ReadName,
    content: Option<TestContent>,
) -> Result<Expr, AllocError>
    ensures { IfOk result (λ e. e ≡ step_tree (name_at place (name_made name)).place None (test_of kind (name_at place (name_made name)) content)) }
{
    let name = name.at(source, place)?;
    let place = name.place;
    let test = test_of(source.alloc(), kind, name, content)?;
    Ok(step(place, None, test))
}

/// A step with its predicates, if there are any, the first `[` of which has the place.
pub fn filtered(
    alloc: Global,
    step: Expr,
    bracket: Place,
    predicates: Vec<Expr>,
) -> Result<Expr, AllocError>
    ensures { IfOk result (λ e. e ≡ filtered_tree step bracket predicates.items) }
{
    if predicates.is_empty() {
        return Ok(step);
    }
    let place = step.place;
    let filtered = Filtered {
        place: bracket,
        operand: step,
        predicates,
    };
    let node = ExprNode::Filtered(Box::new(alloc, filtered)?);
    Ok(Expr { place, node })
}

/// A call.
pub fn called(
    source: &Source<'_>,
    place: Place,
    name: ReadName,
    arguments: Vec<Expr>,
) -> Result<Expr, AllocError>
    ensures { IfOk result (λ e. e ≡ called_tree (name_at place (name_made name)) (trees_of arguments.items)) }
{
    let name = name.at(source, place)?;
    let place = name.place;
    let call = Call { name, arguments };
    let node = ExprNode::Call(Box::new(source.alloc(), call)?);
    Ok(Expr { place, node })
}

/// A variable.
pub fn variable(
    source: &Source<'_>,
    place: Place,
    name_place: Place,
    name: ReadName,
) -> Result<Expr, AllocError>
    ensures { IfOk result (λ e. e ≡ at place (variable (name_at name_place (name_made name)))) }
{
    let name = name.at(source, name_place)?;
    let node = ExprNode::Variable(name);
    Ok(Expr { place, node })
}

/// `.` or `..`.
pub fn dots(place: Place, word: Word) -> Expr
    ensures { tree result ≡ dots_value place (pair (node (Found word)) nothing) }
{
    let node = match word {
        Word::Dots => ExprNode::ParentStep,
        _ => ExprNode::Context,
    };
    Expr { place, node }
}

/// A numeric literal.
pub fn number(alloc: Global, place: Place, value: Number) -> Result<Expr, AllocError>
    ensures { IfOk result (λ e. e ≡ at place (number_form value)) }
{
    let node = ExprNode::Number(Box::new(alloc, value)?);
    Ok(Expr { place, node })
}

/// A string literal.
pub fn string(place: Place, text: TextBuilder) -> Result<Expr, AllocError>
    ensures { IfOk result (λ e. e ≡ at place (string_form text)) }
{
    let node = ExprNode::String(text.finish()?);
    Ok(Expr { place, node })
}

/// A direct element, whose name stands at a place of its own.
pub fn direct(
    source: &Source<'_>,
    place: Place,
    name_place: Place,
    name: ReadName,
    attributes: Vec<DirectAttribute>,
    content: Vec<Part>,
) -> Result<Expr, AllocError>
    ensures { IfOk result (λ e. e ≡ at place (direct_form (name_at name_place (name_made name)) (attributes_of attributes.items) (parts_of content.items))) }
{
    let element = DirectElement {
        name: name.at(source, name_place)?,
        attributes: fitted(attributes),
        content: fitted(content),
    };
    let node = ExprNode::Direct(Box::new(source.alloc(), element)?);
    Ok(Expr { place, node })
}

/// A computed document or text node.
pub fn computed(
    alloc: Global,
    place: Place,
    word: ComputedNode,
    content: Expr,
) -> Result<Expr, AllocError>
    ensures { IfOk result (λ e. e ≡ at place (computed_form word content)) }
{
    let content = Box::new(alloc, content)?;
    let node = match word {
        ComputedNode::Document => ExprNode::Document(content),
        ComputedNode::Text => ExprNode::TextNode(content),
    };
    Ok(Expr { place, node })
}

/// A computed element or attribute with an expression in its braces.
pub fn named_node(
    alloc: Global,
    place: Place,
    word: NamedNode,
    name: QName,
    content: Expr,
) -> Result<Expr, AllocError>
    ensures { IfOk result (λ e. e ≡ at place (named_form word name content)) }
{
    let name = Box::new(alloc, name)?;
    let content = Box::new(alloc, content)?;
    let node = match word {
        NamedNode::Element => ExprNode::Element(name, content),
        NamedNode::Attribute => ExprNode::Attribute(name, content),
    };
    Ok(Expr { place, node })
}

/// A computed element or attribute with nothing in its braces.
pub fn empty_node(place: Place, word: NamedNode, name: QName) -> Expr
    ensures { result ≡ at place (empty_form word name) }
{
    let node = match word {
        NamedNode::Element => ExprNode::EmptyElement(name),
        NamedNode::Attribute => ExprNode::EmptyAttribute(name),
    };
    Expr { place, node }
}
