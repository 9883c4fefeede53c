// The second part of a prolog.

ghost use Rattle.std.specs.Prelude.{◌≡◌, ◌++◌, [], ◌∷◌, IfOk, OnOk};
ghost use Rattle.gx_names_scope.specs.Refused.{Judges};
ghost use Rattle.gx_base.specs.declared.place.Place.{Place as DeclaredAt};
ghost use Rattle.gx_resolved.specs.declared.tree.Declaration.TheVariants as declared;
ghost use Rattle.gx_names_scope.specs.Environment.{Environment as Scope, Functions as FunctionList, called_name, or_nameless, plain_name};
ghost use Rattle.gx_names.specs.Refusals.{bodies_after, bodies_with, call_order_refusals, definition_refusals, definition_scope, definitions_refusals, doubled_parameter, doubled_variable, external_refusals, function_refusals, functions_with, heading_refusals, is_document_element, is_document_test, is_document_type, is_kept_namespace, is_schema_namespace, is_standard_namespace, parameters_refusals, scope_after, seen_with, with_functions, with_parameters, with_signature, without_parameters};
ghost use Rattle.gx_names.specs.Resolution.{declaration_resolved, declarations_resolved, external_resolved, function_resolved, global_resolved, parameters_resolved, result_resolved};
ghost use Rattle.gx_names_uses.specs.Searching.{IsSettled};
ghost use Rattle.gx_names_uses.specs.Uses.{tree_uses};
ghost use Rattle.gx_names_scope.specs.Refusing.{prefix_refusals};
ghost use Rattle.gx_names_types.specs.TypeNames.{written_type_refusals};
ghost use Rattle.gx_names_trees.specs.TreeRefusals.{binder_refusals, tree_refusals};
ghost use Rattle.gx_names_trees.specs.TreeResolution.{binder_resolved, tree_resolved};

use gx_ast::expression::Expr;
use gx_ast::items::Items;
use gx_ast::name::{QName, Variable};
use gx_ast::query::{Definition, DefinitionNode, Initialiser, Parameter};
use gx_ast::sequence_type::{Indicator, ItemType, KindTest, SequenceType};
use gx_base::code::Code;
use gx_base::name::{Name, SharedName};
use gx_base::place::Place;
use gx_base::text::Text;
use gx_base::type_name::{Builtin, TypeName};
use gx_names_scope::names::Names;
use gx_names_scope::refusal::{NameRefusal, refused};
use gx_names_scope::signature::Signature;
use gx_names_trees::binders::bound_name;
use gx_names_trees::trees::resolve_tree;
use gx_names_types::type_names::{check_written_type, element_tested, type_written};
use gx_names_uses::reaching::{Bodies, Settled, calls_are_settled};
use gx_names_uses::uses::{SharedUses, Use, tree_uses};
use gx_resolved::nested_map::NestedMap;
use gx_resolved::tree::{
    BoundName, Declaration, External, FunctionDeclaration, Global as GlobalVariable, ResolvedExpr,
};
use gx_types::sequence_type::Ty;
use std::alloc::{AllocError, Global};

// Functions with the places of their declarations.
type Functions = NestedMap<Signature, Place>;

// ---- which functions are declared

/// Declares all functions, so that each can call those behind it.
pub(crate) fn declare_functions(
    alloc: Global,
    names: &mut Names<'_>,
    definitions: &[Definition],
) -> Result<(), AllocError>
    ensures { OnOk result (names.new ≡ with_functions definitions.now names.old) }
{
    let mut left = definitions;
    while let Some((definition, others)) = left.split_first() {
        if let Some(signature) = signature_of(alloc, names, &definition.node)? {
            names.declare(signature, definition.place)?;
        }
        left = others;
    }
    Ok(())
}

// The function that is declared, if one is, and its prefix is known.
fn signature_of(
    alloc: Global,
    names: &Names<'_>,
    definition: &DefinitionNode,
) -> Result<Option<Signature>, AllocError>
    ensures { IfOk result (λ signature. (place : DeclaredAt) (functions : FunctionList) → with_signature signature place functions ≡ functions_with names.now.namespaces place definition.now functions) }
{
    let DefinitionNode::Function(name, parameters, _, _) = definition else {
        return Ok(None);
    };
    let Some(name) = names.called_name(name)? else {
        return Ok(None);
    };
    let name = SharedName::new(alloc, name)?;
    let arity = parameters.as_slice().len();
    Ok(Some(Signature { name, arity }))
}

// ---- what the bodies of functions use

// What the bodies of all functions use.
fn bodies_of<'s>(
    alloc: Global,
    names: Names<'s>,
    definitions: &[Definition],
) -> Result<(Bodies, Names<'s>), AllocError>
    ensures bodies { IfOk result (λ r. r.0 ≡ bodies_after names.entry definitions.now []) }
    ensures names { IfOk result (λ r. r.1 ≡ names.entry) }
{
    let mut names = names;
    let mut bodies = NestedMap::new(alloc);
    let mut left = definitions;
    while let Some((definition, others)) = left.split_first() {
        names = add_body(alloc, names, &mut bodies, &definition.node)?;
        left = others;
    }
    Ok((bodies, names))
}

fn add_body<'s>(
    alloc: Global,
    names: Names<'s>,
    bodies: &mut Bodies,
    definition: &DefinitionNode,
) -> Result<Names<'s>, AllocError>
    ensures bodies { OnOk result (bodies.new ≡ bodies_with names.entry definition.now bodies.old) }
    ensures names { IfOk result (λ n. n ≡ names.entry) }
{
    let DefinitionNode::Function(name, parameters, _, body) = definition else {
        return Ok(names);
    };
    let Some(name) = names.called_name(name)? else {
        return Ok(names);
    };
    let name = SharedName::new(alloc, name)?;
    let parameters = parameters.as_slice();
    let arity = parameters.len();
    let (used, names) = body_uses(alloc, names, parameters, body)?;
    bodies.bind(Signature { name, arity }, SharedUses::new(alloc, used)?)?;
    Ok(names)
}

// What a body uses, but for its parameters.
#[tactic(auto, using(crate::proofs::ParameterLemmas::parameters_gone))]
fn body_uses<'s>(
    alloc: Global,
    names: Names<'s>,
    parameters: &[Parameter],
    body: &Expr,
) -> Result<(Vec<Use>, Names<'s>), AllocError>
    ensures uses { IfOk result (λ r. r.0.items ≡ tree_uses (with_parameters parameters.now names.entry) body.now) }
    ensures names { IfOk result (λ r. r.1 ≡ names.entry) }
{
    let mut names = names;
    bind_parameters(alloc, &mut names, parameters)?;
    let (used, names) = tree_uses(alloc, names, body)?;
    let mut names = names;
    unbind_parameters(&mut names, parameters)?;
    Ok((used, names))
}

// ---- all declarations

// What stands before a declaration: functions, and those whose calls are known to be settled.
#[derive(Drop)]
struct Earlier {
    functions: Functions,
    settled: Settled,
}

/// Resolves all declarations in their order; with the names that stand behind them.
pub(crate) fn resolve_prolog<'s>(
    alloc: Global,
    names: Names<'s>,
    definitions: &[Definition],
) -> Result<(Items<Declaration>, Names<'s>), NameRefusal>
    ensures refusals { Judges result (definitions_refusals definitions.now (bodies_after names.entry definitions.now []) [] names.entry) }
    ensures declarations { IfOk result (λ r. r.0 ≡ declarations_resolved definitions.now names.entry) }
    ensures names { IfOk result (λ r. r.1 ≡ scope_after definitions.now names.entry) }
{
    let (bodies, names) = bodies_of(alloc, names, definitions)?;
    resolve_definitions(alloc, names, &bodies, definitions)
}

// Declarations of which none stands before.
fn resolve_definitions<'s>(
    alloc: Global,
    names: Names<'s>,
    bodies: &Bodies,
    definitions: &[Definition],
) -> Result<(Items<Declaration>, Names<'s>), NameRefusal>
    ensures refusals { Judges result (definitions_refusals definitions.now bodies.now [] names.entry) }
    ensures declarations { IfOk result (λ r. r.0 ≡ declarations_resolved definitions.now names.entry) }
    ensures names { IfOk result (λ r. r.1 ≡ scope_after definitions.now names.entry) }
{
    let mut declarations = Vec::new(alloc);
    let mut earlier = Earlier {
        functions: NestedMap::new(alloc),
        settled: NestedMap::new(alloc),
    };
    let into = &mut declarations;
    match add_definitions(alloc, names, bodies, &mut earlier, into, definitions) {
        Ok(names) => Ok((Items::from_vec(declarations), names)),
        Err(refusal) => Err(refusal),
    }
}

// Declarations behind others; the names that stand behind them.
#[tactic(auto, using(gx_names_scope::proofs::RefusalLemmas::refused_before))]
fn add_definitions<'s>(
    alloc: Global,
    names: Names<'s>,
    bodies: &Bodies,
    earlier: &mut Earlier,
    declarations: &mut Vec<Declaration>,
    definitions: &[Definition],
) -> Result<Names<'s>, NameRefusal>
    requires { IsSettled names.variables bodies.now earlier.now.settled }
    ensures refusals { Judges result (definitions_refusals definitions.now bodies.now earlier.old.functions names.entry) }
    ensures declarations { OnOk result (declarations.new.items ≡ declarations.old.items ++ declarations_resolved definitions.now names.entry) }
    ensures names { IfOk result (λ n. n ≡ scope_after definitions.now names.entry) }
{
    let mut names = names;
    let mut left = definitions;
    while let Some((definition, others)) = left.split_first() {
        names = resolve_next(alloc, names, bodies, definition, earlier, declarations)?;
        left = others;
    }
    Ok(names)
}

// A declaration behind others; the names that stand behind it.
#[tactic(auto, using(crate::proofs::SettledLemmas::settled_behind))]
fn resolve_next<'s>(
    alloc: Global,
    names: Names<'s>,
    bodies: &Bodies,
    definition: &Definition,
    earlier: &mut Earlier,
    declarations: &mut Vec<Declaration>,
) -> Result<Names<'s>, NameRefusal>
    requires { IsSettled names.variables bodies.now earlier.now.settled }
    ensures refusals { Judges result (definition_refusals names.entry bodies.now earlier.old.functions definition.now.place definition.now.node) }
    ensures names { IfOk result (λ n. n ≡ definition_scope definition.now.node names.entry) }
    ensures earlier { OnOk result (earlier.new.functions ≡ functions_with names.entry.namespaces definition.now.place definition.now.node earlier.old.functions) }
    ensures settled { IfOk result (λ n. IsSettled n.variables bodies.now earlier.new.settled) }
    ensures declarations { OnOk result (declarations.new.items ≡ declarations.old.items ++ declaration_resolved names.entry definition.now.place definition.now.node ∷ []) }
{
    let place = definition.place;
    match resolve_definition(alloc, names, bodies, earlier, place, &definition.node) {
        Ok((declaration, names)) => {
            declarations.push(declaration)?;
            Ok(declare(alloc, names, &mut earlier.functions, definition)?)
        }
        Err(refusal) => Err(refusal),
    }
}

// A function that is declared is an earlier one from then on, and a variable is in scope.
fn declare<'s>(
    alloc: Global,
    names: Names<'s>,
    earlier: &mut Functions,
    definition: &Definition,
) -> Result<Names<'s>, AllocError>
    ensures names { IfOk result (λ n. n ≡ definition_scope definition.now.node names.entry) }
    ensures earlier { OnOk result (earlier.new ≡ functions_with names.entry.namespaces definition.now.place definition.now.node earlier.old) }
{
    let mut names = names;
    declare_function(alloc, &names, earlier, definition)?;
    declare_variable(alloc, &mut names, &definition.node)?;
    Ok(names)
}

fn declare_function(
    alloc: Global,
    names: &Names<'_>,
    earlier: &mut Functions,
    definition: &Definition,
) -> Result<(), AllocError>
    ensures { OnOk result (earlier.new ≡ functions_with names.now.namespaces definition.now.place definition.now.node earlier.old) }
{
    match signature_of(alloc, names, &definition.node)? {
        Some(signature) => earlier.bind(signature, definition.place),
        None => Ok(()),
    }
}

fn declare_variable(
    alloc: Global,
    names: &mut Names<'_>,
    definition: &DefinitionNode,
) -> Result<(), AllocError>
    ensures { OnOk result (names.new ≡ definition_scope definition.now names.old) }
{
    match definition {
        DefinitionNode::Variable(variable, _, _) => names.bind_variable(alloc, variable),
        DefinitionNode::Function(_, _, _, _) => Ok(()),
    }
}

#[tactic(auto, using(gx_names_scope::proofs::RefusalLemmas::refused_before))]
fn resolve_definition<'s>(
    alloc: Global,
    names: Names<'s>,
    bodies: &Bodies,
    earlier: &mut Earlier,
    place: Place,
    definition: &DefinitionNode,
) -> Result<(Declaration, Names<'s>), NameRefusal>
    requires { IsSettled names.variables bodies.now earlier.now.settled }
    ensures functions { earlier.new.functions ≡ earlier.old.functions }
    ensures settled { OnOk result (IsSettled names.entry.variables bodies.now earlier.new.settled) }
    ensures refusals { Judges result (definition_refusals names.entry bodies.now earlier.old.functions place definition.now) }
    ensures declaration { IfOk result (λ r. r.0 ≡ declaration_resolved names.entry place definition.now) }
    ensures names { IfOk result (λ r. r.1 ≡ names.entry) }
{
    match definition {
        DefinitionNode::Variable(variable, kind, Initialiser::Value(value)) => {
            let binder = Binder { variable, kind };
            let settled = &mut earlier.settled;
            let names = check_value(alloc, names, bodies, settled, place, variable, value)?;
            resolve_global(alloc, names, place, binder, value)
        }
        DefinitionNode::Variable(variable, kind, Initialiser::External) => {
            resolve_external(alloc, names, place, Binder { variable, kind })
        }
        DefinitionNode::Function(name, parameters, kind, body) => {
            let parameters = parameters.as_slice();
            let functions = &earlier.functions;
            check_function(alloc, &names, functions, place, name, parameters.len())?;
            let signature = Heading {
                name,
                parameters,
                kind,
            };
            resolve_function(alloc, names, place, signature, body)
        }
    }
}

// ---- variables

// A variable that is declared, and its type.
#[derive(Clone, Copy)]
struct Binder<'a> {
    variable: &'a Variable,
    kind: &'a Option<SequenceType>,
}

#[tactic(auto, using(gx_names_scope::proofs::RefusalLemmas::refused_before))]
fn resolve_global<'s>(
    alloc: Global,
    names: Names<'s>,
    place: Place,
    binder: Binder<'_>,
    value: &Expr,
) -> Result<(Declaration, Names<'s>), NameRefusal>
    ensures refusals { Judges result (binder_refusals names.entry binder.entry.variable.now binder.entry.kind.now ++ tree_refusals names.entry value.now) }
    ensures declaration { IfOk result (λ r. r.0 ≡ declared.Global (global_resolved names.entry place binder.entry.variable.now binder.entry.kind.now value.now)) }
    ensures names { IfOk result (λ r. r.1 ≡ names.entry) }
{
    let bound = match bound_name(alloc, &names, binder.variable, binder.kind) {
        Ok(bound) => bound,
        Err(refusal) => return Err(refusal),
    };
    match resolve_tree(alloc, names, value) {
        Ok((value, names)) => { Ok((global_declared(place, bound, value), names)) }
        Err(refusal) => Err(refusal),
    }
}

// A variable that is not declared before, and what its value calls.
#[tactic(auto, using(gx_names_scope::proofs::RefusalLemmas::refused_before))]
fn check_value<'s>(
    alloc: Global,
    names: Names<'s>,
    bodies: &Bodies,
    settled: &mut Settled,
    place: Place,
    variable: &Variable,
    value: &Expr,
) -> Result<Names<'s>, NameRefusal>
    requires { IsSettled names.variables bodies.now settled.now }
    ensures refusals { Judges result (doubled_variable names.entry place variable.now ++ call_order_refusals names.entry bodies.now place value.now) }
    ensures names { IfOk result (λ n. n ≡ names.entry) }
    ensures settled { OnOk result (IsSettled names.entry.variables bodies.now settled.new) }
{
    check_doubled(alloc, &names, place, variable)?;
    let (used, names) = tree_uses(alloc, names, value)?;
    if calls_are_settled(alloc, &names, bodies, settled, used)? {
        return Ok(names);
    }
    Err(refused(place, Code::XQST0054))
}

fn global_declared(place: Place, bound: BoundName, value: ResolvedExpr) -> Declaration
    ensures { result ≡ declared.Global (record { place = place; bound = bound; value = value }) }
{
    Declaration::Global(GlobalVariable {
        place,
        bound,
        value,
    })
}

// An external variable, which is a document.
fn resolve_external<'s>(
    alloc: Global,
    names: Names<'s>,
    place: Place,
    binder: Binder<'_>,
) -> Result<(Declaration, Names<'s>), NameRefusal>
    ensures refusals { Judges result (external_refusals names.entry place binder.entry.variable.now binder.entry.kind.now ++ binder_refusals names.entry binder.entry.variable.now binder.entry.kind.now) }
    ensures declaration { IfOk result (λ r. r.0 ≡ declared.External (external_resolved names.entry place binder.entry.variable.now binder.entry.kind.now)) }
    ensures names { IfOk result (λ r. r.1 ≡ names.entry) }
{
    match external_name(alloc, &names, place, binder) {
        Ok(bound) => Ok((Declaration::External(External { place, bound }), names)),
        Err(refusal) => Err(refusal),
    }
}

#[tactic(auto, using(gx_names_scope::proofs::RefusalLemmas::refused_before))]
fn external_name(
    alloc: Global,
    names: &Names<'_>,
    place: Place,
    binder: Binder<'_>,
) -> Result<BoundName, NameRefusal>
    ensures refusals { Judges result (external_refusals names.now place binder.entry.variable.now binder.entry.kind.now ++ binder_refusals names.now binder.entry.variable.now binder.entry.kind.now) }
    ensures bound { IfOk result (λ bound. bound ≡ binder_resolved names.now binder.entry.variable.now binder.entry.kind.now) }
{
    check_external(alloc, names, place, binder)?;
    bound_name(alloc, names, binder.variable, binder.kind)
}

#[tactic(auto, using(gx_names_scope::proofs::RefusalLemmas::refused_before))]
fn check_external(
    alloc: Global,
    names: &Names<'_>,
    place: Place,
    binder: Binder<'_>,
) -> Result<(), NameRefusal>
    ensures { Judges result (external_refusals names.now place binder.entry.variable.now binder.entry.kind.now) }
{
    check_doubled(alloc, names, place, binder.variable)?;
    if is_document_type(alloc, names, binder.kind)? {
        return Ok(());
    }
    Err(refused(place, Code::GLXS0004))
}

// A variable that is declared before.
fn check_doubled(
    alloc: Global,
    names: &Names<'_>,
    place: Place,
    variable: &Variable,
) -> Result<(), NameRefusal>
    ensures { Judges result (doubled_variable names.now place variable.now) }
{
    let Some(name) = names.plain_name(&variable.name)? else {
        return Ok(());
    };
    let name = SharedName::new(alloc, name)?;
    match names.binder(&name) {
        Some(_) => Err(refused(place, Code::XQST0049)),
        None => Ok(()),
    }
}

fn is_document_type(
    alloc: Global,
    names: &Names<'_>,
    kind: &Option<SequenceType>,
) -> Result<bool, AllocError>
    ensures { IfOk result (λ holds. holds ≡ is_document_type names.now kind.now) }
{
    match kind {
        Some(SequenceType::Items(ItemType::Kind(test), Indicator::Once)) => {
            is_document_test(alloc, names, test)
        }
        _ => Ok(false),
    }
}

fn is_document_test(alloc: Global, names: &Names<'_>, test: &KindTest) -> Result<bool, AllocError>
    ensures { IfOk result (λ holds. holds ≡ is_document_test names.now test.now) }
{
    match test {
        KindTest::Document(_) | KindTest::DocumentOfDeclared(_, _, _) => Ok(true),
        KindTest::DocumentOf(_, _, tested) => {
            let (name, kind) = element_tested(alloc, names, tested)?;
            Ok(is_document_element(names, &name, &kind))
        }
        _ => Ok(false),
    }
}

// A global element of its declared type, or any untyped one.
fn is_document_element(names: &Names<'_>, name: &Option<Name>, kind: &TypeName) -> bool
    ensures { result ≡ is_document_element names.now (name.now, kind.now) }
{
    match name {
        Some(name) => match names.schemas().global(name) {
            Some(declared) => declared == kind,
            None => false,
        },
        None => *kind == TypeName::Builtin(Builtin::Untyped),
    }
}

// ---- functions

// What stands before the body of a function.
#[derive(Clone, Copy)]
struct Heading<'a> {
    name: &'a QName,
    parameters: &'a [Parameter],
    kind: &'a Option<SequenceType>,
}

// The same with its names resolved.
#[derive(Drop)]
struct ResolvedHeading {
    name: SharedName,
    parameters: Items<BoundName>,
    kind: Option<Ty>,
}

// A function that is declared twice, or in a namespace where none may be.
fn check_function(
    alloc: Global,
    names: &Names<'_>,
    earlier: &Functions,
    place: Place,
    name: &QName,
    arity: usize,
) -> Result<(), NameRefusal>
    ensures { Judges result (function_refusals earlier.now place (called_name names.now name.now) arity) }
{
    let Some(name) = names.called_name(name)? else {
        return Ok(());
    };
    let kept = is_kept_namespace(&name);
    let name = SharedName::new(alloc, name)?;
    if earlier.find(&Signature { name, arity }).is_some() {
        return Err(refused(place, Code::XQST0034));
    }
    if kept {
        return Err(refused(place, Code::XQST0045));
    }
    Ok(())
}

// A namespace in which no function is declared.
#[tactic(auto, unfolding(crate::specs::Refusals::is_kept_namespace))]
fn is_kept_namespace(name: &Name) -> bool
    ensures { result ≡ is_kept_namespace name.now.uri }
{
    is_schema_namespace(&name.uri) || is_standard_namespace(&name.uri)
}

#[tactic(auto, unfolding(crate::specs::Refusals::is_schema_namespace))]
fn is_schema_namespace(uri: &Text) -> bool
    ensures { result ≡ is_schema_namespace uri.now }
{
    let uri = uri.as_str();
    uri == "http://www.w3.org/2001/XMLSchema" || uri == "http://www.w3.org/2001/XMLSchema-instance"
}

#[tactic(auto, unfolding(crate::specs::Refusals::is_standard_namespace))]
fn is_standard_namespace(uri: &Text) -> bool
    ensures { result ≡ is_standard_namespace uri.now }
{
    let uri = uri.as_str();
    uri == "http://www.w3.org/XML/1998/namespace" || uri == "http://www.w3.org/2005/xpath-functions"
}

#[tactic(auto, using(gx_names_scope::proofs::RefusalLemmas::refused_before))]
fn resolve_heading(
    alloc: Global,
    names: &Names<'_>,
    heading: Heading<'_>,
) -> Result<ResolvedHeading, NameRefusal>
    ensures refusals { Judges result (heading_refusals names.now heading.entry.name.now heading.entry.parameters.now heading.entry.kind.now) }
    ensures name { IfOk result (λ h. h.name ≡ or_nameless (called_name names.now heading.entry.name.now)) }
    ensures parameters { IfOk result (λ h. h.parameters ≡ parameters_resolved names.now heading.entry.parameters.now) }
    ensures kind { IfOk result (λ h. h.kind ≡ result_resolved names.now heading.entry.kind.now) }
{
    let name = heading_name(alloc, names, heading.name)?;
    let parameters = match resolve_parameters(alloc, names, heading.parameters) {
        Ok(parameters) => parameters,
        Err(refusal) => return Err(refusal),
    };
    match result_checked(alloc, names, heading.kind) {
        Ok(kind) => Ok(ResolvedHeading {
            name,
            parameters,
            kind,
        }),
        Err(refusal) => Err(refusal),
    }
}

fn heading_name(alloc: Global, names: &Names<'_>, name: &QName) -> Result<SharedName, NameRefusal>
    ensures refusals { Judges result (prefix_refusals (called_name names.now name.now) name.now.place) }
    ensures name { IfOk result (λ n. n ≡ or_nameless (called_name names.now name.now)) }
{
    match names.called_name(name)? {
        Some(name) => Ok(SharedName::new(alloc, name)?),
        None => Err(refused(name.place, Code::XPST0081)),
    }
}

fn result_checked(
    alloc: Global,
    names: &Names<'_>,
    kind: &Option<SequenceType>,
) -> Result<Option<Ty>, NameRefusal>
    ensures refusals { Judges result (written_type_refusals names.now kind.now) }
    ensures kind { IfOk result (λ t. t ≡ result_resolved names.now kind.now) }
{
    check_written_type(alloc, names, kind)?;
    match kind {
        Some(kind) => Ok(Some(type_written(alloc, names, kind)?)),
        None => Ok(None),
    }
}

fn resolve_parameters(
    alloc: Global,
    names: &Names<'_>,
    parameters: &[Parameter],
) -> Result<Items<BoundName>, NameRefusal>
    ensures refusals { Judges result (parameters_refusals names.now [] parameters.now) }
    ensures parameters { IfOk result (λ bound. bound ≡ parameters_resolved names.now parameters.now) }
{
    let mut bound = Vec::new(alloc);
    let mut seen = NestedMap::new(alloc);
    add_parameters(alloc, names, &mut seen, &mut bound, parameters)?;
    Ok(Items::from_vec(bound))
}

// Parameters behind those that were seen.
#[tactic(auto, using(gx_names_scope::proofs::RefusalLemmas::refused_before))]
fn add_parameters(
    alloc: Global,
    names: &Names<'_>,
    seen: &mut NestedMap<SharedName, Place>,
    bound: &mut Vec<BoundName>,
    parameters: &[Parameter],
) -> Result<(), NameRefusal>
    ensures refusals { Judges result (parameters_refusals names.now seen.old parameters.now) }
    ensures bound { OnOk result (bound.new.items ≡ bound.old.items ++ parameters_resolved names.now parameters.now) }
{
    let mut left = parameters;
    while let Some((parameter, others)) = left.split_first() {
        add_parameter(alloc, names, seen, bound, parameter)?;
        left = others;
    }
    Ok(())
}

fn add_parameter(
    alloc: Global,
    names: &Names<'_>,
    seen: &mut NestedMap<SharedName, Place>,
    bound: &mut Vec<BoundName>,
    parameter: &Parameter,
) -> Result<(), NameRefusal>
    ensures refusals { Judges result (doubled_parameter parameter.now.variable.place seen.old (plain_name names.now parameter.now.variable.name) ++ binder_refusals names.now parameter.now.variable parameter.now.kind) }
    ensures seen { OnOk result (seen.new ≡ seen_with names.now parameter.now.variable seen.old) }
    ensures bound { OnOk result (bound.new.items ≡ bound.old.items ++ binder_resolved names.now parameter.now.variable parameter.now.kind ∷ []) }
{
    let next = match resolve_parameter(alloc, names, seen, parameter) {
        Ok(next) => next,
        Err(refusal) => return Err(refusal),
    };
    seen.bind(next.name.clone()?, next.place)?;
    Ok(bound.push(next)?)
}

// A parameter, behind others.
#[tactic(auto, using(gx_names_scope::proofs::RefusalLemmas::refused_before))]
fn resolve_parameter(
    alloc: Global,
    names: &Names<'_>,
    seen: &NestedMap<SharedName, Place>,
    parameter: &Parameter,
) -> Result<BoundName, NameRefusal>
    ensures refusals { Judges result (doubled_parameter parameter.now.variable.place seen.now (plain_name names.now parameter.now.variable.name) ++ binder_refusals names.now parameter.now.variable parameter.now.kind) }
    ensures bound { IfOk result (λ bound. bound ≡ binder_resolved names.now parameter.now.variable parameter.now.kind) }
{
    check_parameter(alloc, names, seen, &parameter.variable)?;
    bound_name(alloc, names, &parameter.variable, &parameter.kind)
}

fn check_parameter(
    alloc: Global,
    names: &Names<'_>,
    seen: &NestedMap<SharedName, Place>,
    variable: &Variable,
) -> Result<(), NameRefusal>
    ensures { Judges result (doubled_parameter variable.now.place seen.now (plain_name names.now variable.now.name)) }
{
    let Some(name) = names.plain_name(&variable.name)? else {
        return Ok(());
    };
    let name = SharedName::new(alloc, name)?;
    match seen.find(&name) {
        Some(_) => Err(refused(variable.place, Code::XQST0039)),
        None => Ok(()),
    }
}

#[tactic(auto, using(gx_names_scope::proofs::RefusalLemmas::refused_before))]
fn resolve_function<'s>(
    alloc: Global,
    names: Names<'s>,
    place: Place,
    heading: Heading<'_>,
    body: &Expr,
) -> Result<(Declaration, Names<'s>), NameRefusal>
    ensures refusals { Judges result (heading_refusals names.entry heading.entry.name.now heading.entry.parameters.now heading.entry.kind.now ++ tree_refusals (with_parameters heading.entry.parameters.now names.entry) body.now) }
    ensures declaration { IfOk result (λ r. r.0 ≡ declared.Function (function_resolved names.entry place heading.entry.name.now heading.entry.parameters.now heading.entry.kind.now body.now)) }
    ensures names { IfOk result (λ r. r.1 ≡ names.entry) }
{
    let resolved = match resolve_heading(alloc, &names, heading) {
        Ok(resolved) => resolved,
        Err(refusal) => return Err(refusal),
    };
    match resolve_body(alloc, names, heading.parameters, body) {
        Ok((body, names)) => Ok((function_declared(place, resolved, body), names)),
        Err(refusal) => Err(refusal),
    }
}

fn function_declared(place: Place, heading: ResolvedHeading, body: ResolvedExpr) -> Declaration
    ensures { result ≡ declared.Function (record { place = place; name = heading.name; parameters = heading.parameters; result = heading.kind; body = body }) }
{
    Declaration::Function(FunctionDeclaration {
        place,
        name: heading.name,
        parameters: heading.parameters,
        result: heading.kind,
        body,
    })
}

// The body of a function, in the scope of the parameters.
fn resolve_body<'s>(
    alloc: Global,
    names: Names<'s>,
    parameters: &[Parameter],
    body: &Expr,
) -> Result<(ResolvedExpr, Names<'s>), NameRefusal>
    ensures refusals { Judges result (tree_refusals (with_parameters parameters.now names.entry) body.now) }
    ensures body { IfOk result (λ r. r.0 ≡ tree_resolved (with_parameters parameters.now names.entry) body.now) }
    ensures names { IfOk result (λ r. r.1 ≡ names.entry) }
{
    let mut names = names;
    bind_parameters(alloc, &mut names, parameters)?;
    match resolve_tree(alloc, names, body) {
        Ok((body, names)) => Ok(behind_parameters(body, names, parameters)?),
        Err(refusal) => Err(refusal),
    }
}

// A body, with the names that stand behind it.
#[tactic(auto, using(crate::proofs::ParameterLemmas::parameters_gone))]
fn behind_parameters<'s>(
    body: ResolvedExpr,
    names: Names<'s>,
    parameters: &[Parameter],
) -> Result<(ResolvedExpr, Names<'s>), AllocError>
    ensures body { IfOk result (λ r. r.0 ≡ body) }
    ensures names { (outer : Scope) → names.entry ≡ with_parameters parameters.now outer → IfOk result (λ r. r.1 ≡ outer) }
{
    let mut names = names;
    unbind_parameters(&mut names, parameters)?;
    Ok((body, names))
}

fn bind_parameters(
    alloc: Global,
    names: &mut Names<'_>,
    parameters: &[Parameter],
) -> Result<(), AllocError>
    ensures { OnOk result (names.new ≡ with_parameters parameters.now names.old) }
{
    let mut left = parameters;
    while let Some((parameter, others)) = left.split_first() {
        names.bind_variable(alloc, &parameter.variable)?;
        left = others;
    }
    Ok(())
}

fn unbind_parameters(names: &mut Names<'_>, parameters: &[Parameter]) -> Result<(), AllocError>
    ensures { OnOk result (names.new ≡ without_parameters parameters.now names.old) }
{
    let mut left = parameters;
    while let Some((_, others)) = left.split_first() {
        names.unbind_variable()?;
        left = others;
    }
    Ok(())
}
