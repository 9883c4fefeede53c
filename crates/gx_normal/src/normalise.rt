// From resolved queries to Core.

ghost use Rattle.std.specs.Prelude.{◌≡◌, [], ◌++◌, ◌∷◌, ◌+◌, None, IfOk, OnOk};
ghost use Rattle.gx_core.specs.Invariant.{CallsDeclaredFunctions, HasQueryVariablesInOrder, IsWellFormedQuery};
ghost use Rattle.gx_core.specs.declared.expression.Declaration.TheVariants as declarations;
ghost use Rattle.gx_normal.specs.Signatures.{signatures_of};
ghost use Rattle.gx_normal.specs.Normalisation.{behind_declarations, core_of, declarations_of, declared_function, external_binder, function_core, main_core, query_core};

use crate::clauses::{is_empty_greatest, numbered_binder};
use crate::focus::Focus;
use crate::normalising::{Normalising, Numbers};
use crate::signatures::{Signatures, bind_parameters, type_or_items, unbind_parameters};
use gx_core::expression::{Binder, Core, CoreDeclaration, CoreExpr, CoreFunction};
use gx_core::listed::Listed;
use gx_resolved::dismantle::dismantle;
use gx_resolved::nested_map::NestedMap;
use gx_resolved::tree::{BoundName, Declaration, FunctionDeclaration, Resolved, ResolvedExpr};
use gx_types::item_type::ItemType;
use gx_types::sequence_type::Ty;
use std::alloc::{AllocError, Global};

/// The Core of a query: each variable has the number of its binder, and operands are atomized (XQuery 1.0 and XPath 2.0 Formal
/// Semantics, section 4; XQuery 1.0, section 3). Each literal is a string or a number, each call has the arguments of a function of
/// the table, each call of a declared function those of one that the query declares, and each switch has a branch for each case and for
/// the default.
pub fn normalise(alloc: Global, query: Resolved) -> Result<Core, AllocError>
    ensures core { IfOk result (λ core. core ≡ query_core query) }
    ensures variables { IfOk result (λ core. HasQueryVariablesInOrder core) }
    ensures well_formed { IfOk result (λ core. IsWellFormedQuery core) }
    ensures calls { IfOk result (λ core. CallsDeclaredFunctions core) }
{
    let greatest = is_empty_greatest(false, query.settings.empty_order);
    let preserves_blanks = query.settings.preserves_boundary_space;
    let focus = Focus::without_context(greatest, preserves_blanks);
    let core = core_of_query(alloc, focus, query.declarations.as_slice(), &query.body);
    drop_query(alloc, query);
    core
}

// Drops a query, its trees by a loop.
fn drop_query(alloc: Global, query: Resolved) {
    for declaration in query.declarations.into_vec() {
        drop_declaration(alloc, declaration);
    }
    dismantle(alloc, query.body);
}

fn drop_declaration(alloc: Global, declaration: Declaration) {
    match declaration {
        Declaration::Global(global) => dismantle(alloc, global.value),
        Declaration::Function(function) => dismantle(alloc, function.body),
        Declaration::External(_) => {}
    }
}

// The Core of a query with these declarations and this body.
fn core_of_query(
    alloc: Global,
    focus: Focus,
    declarations: &[Declaration],
    body: &ResolvedExpr,
) -> Result<Core, AllocError>
    ensures { IfOk result (λ core. core ≡ main_core (signatures_of declarations.now) focus declarations.now body.now) }
{
    let signatures = Signatures::of(alloc, declarations)?;
    let mut made = Vec::new(alloc);
    let (numbers, free) = declare_all(alloc, &signatures, focus, declarations, &mut made)?;
    let (body, _numbers, _free) = expression(alloc, &signatures, body, numbers, focus, free)?;
    let declarations = Listed::from_vec(made);
    Ok(Core { declarations, body })
}

// The declarations, with the numbers in scope behind them and the one that is free.
fn declare_all(
    alloc: Global,
    signatures: &Signatures,
    focus: Focus,
    declarations: &[Declaration],
    made: &mut Vec<CoreDeclaration>,
) -> Result<(Numbers, u32), AllocError>
    ensures declarations { OnOk result (made.new.items ≡ made.old.items ++ declarations_of signatures.now focus declarations.now [] 1) }
    ensures numbers { IfOk result (λ r. r.0 ≡ (behind_declarations signatures.now focus declarations.now [] 1).0) }
    ensures free { IfOk result (λ r. r.1 ≡ (behind_declarations signatures.now focus declarations.now [] 1).1) }
{
    let mut numbers = NestedMap::new(alloc);
    let mut free = 1;
    let mut left = declarations;
    while let Some((declaration, others)) = left.split_first() {
        let (inner, next) = declare(alloc, signatures, focus, declaration, numbers, free, made)?;
        numbers = inner;
        free = next;
        left = others;
    }
    Ok((numbers, free))
}

// A declaration.
fn declare(
    alloc: Global,
    signatures: &Signatures,
    focus: Focus,
    declaration: &Declaration,
    numbers: Numbers,
    free: u32,
    made: &mut Vec<CoreDeclaration>,
) -> Result<(Numbers, u32), AllocError>
    ensures declared { OnOk result (made.new.items ≡ made.old.items ++ declarations_of signatures.now focus (declaration.now ∷ []) numbers free) }
    ensures behind { IfOk result (λ r. r ≡ behind_declarations signatures.now focus (declaration.now ∷ []) numbers free) }
{
    match declaration {
        Declaration::Global(global) => {
            let (value, inner, number) = expression(
                alloc,
                signatures,
                &global.value,
                numbers,
                focus,
                free,
            )?;
            let binder = numbered_binder(&global.bound, number)?;
            bind(&global.bound, binder, Some(value), inner, made)
        }
        Declaration::External(external) => {
            let binder = external_binder(alloc, &external.bound, free)?;
            bind(&external.bound, binder, None, numbers, made)
        }
        Declaration::Function(function) => {
            declare_function(alloc, signatures, focus, function, numbers, free, made)
        }
    }
}

// The declaration of a function, whose parameters are bound in its body.
fn declare_function(
    alloc: Global,
    signatures: &Signatures,
    focus: Focus,
    function: &FunctionDeclaration,
    numbers: Numbers,
    free: u32,
    made: &mut Vec<CoreDeclaration>,
) -> Result<(Numbers, u32), AllocError>
    ensures made { OnOk result (made.new.items
        ≡ made.old.items ++ declarations.Function (declared_function function.now free (function_core signatures.now function.now numbers focus free).0) ∷ []) }
    ensures numbers { IfOk result (λ r. r.0 ≡ numbers) }
    ensures free { IfOk result (λ r. r.1 ≡ (function_core signatures.now function.now numbers focus free).1) }
{
    let parameters = function.parameters.as_slice();
    let result = type_or_items(alloc, function.result.as_ref())?;
    let name = function.name.name().clone()?;
    let (binders, inside, behind) = bind_parameters(alloc, parameters, numbers, free)?;
    let (body, inside, next) = expression(
        alloc,
        signatures,
        &function.body,
        inside,
        focus,
        behind,
    )?;
    made.push(CoreDeclaration::Function(CoreFunction {
        place: function.place,
        name,
        parameters: binders,
        result,
        body,
    }))?;
    let outside = unbind_parameters(parameters.len(), inside)?;
    Ok((outside, next))
}

// Binds a variable in all behind its declaration.
fn bind(
    bound: &BoundName,
    binder: Binder,
    value: Option<CoreExpr>,
    numbers: Numbers,
    made: &mut Vec<CoreDeclaration>,
) -> Result<(Numbers, u32), AllocError>
    ensures made { OnOk result (made.new.items ≡ made.old.items ++ declarations.Global bound.now.name binder value ∷ []) }
    ensures numbers { IfOk result (λ r. r.0 ≡ (bound.now.place, binder.variable) ∷ numbers) }
    ensures free { IfOk result (λ r. r.1 ≡ binder.variable + 1) }
{
    let number = binder.variable;
    let Some(next) = number.checked_add(1) else {
        return Err(AllocError);
    };
    let name = bound.name.name().clone()?;
    made.push(CoreDeclaration::Global {
        name,
        binder,
        value,
    })?;
    let mut inner = numbers;
    inner.bind(bound.place, number)?;
    Ok((inner, next))
}

// The binder of an external variable with its number.
fn external_binder(alloc: Global, bound: &BoundName, variable: u32) -> Result<Binder, AllocError>
    ensures { IfOk result (λ binder. binder ≡ external_binder bound.now variable) }
{
    let kind = match &bound.kind {
        Some(kind) => kind.clone()?,
        None => Ty::of_item(alloc, ItemType::Document(None))?,
    };
    Ok(Binder {
        variable,
        place: bound.place,
        kind: Some(kind),
    })
}

// The Core of a tree, with the numbers in scope and the one that is free. The tasks end long before the loop does.
fn expression(
    alloc: Global,
    signatures: &Signatures,
    tree: &ResolvedExpr,
    numbers: Numbers,
    focus: Focus,
    free: u32,
) -> Result<(CoreExpr, Numbers, u32), AllocError>
    ensures core { IfOk result (λ r. r.0 ≡ (core_of signatures.now tree.now numbers focus free).0) }
    ensures numbers { IfOk result (λ r. r.1 ≡ numbers) }
    ensures free { IfOk result (λ r. r.2 ≡ (core_of signatures.now tree.now numbers focus free).1) }
{
    let mut normalising = Normalising::new(alloc, signatures, tree, numbers, focus, free)?;
    for _ in 0..u64::MAX {
        match normalising.tasks.pop() {
            None => return Ok(normalising.result()),
            Some(task) => {
                if let Err(error) = normalising.step(alloc, task) {
                    normalising.dismantle(alloc);
                    return Err(error);
                }
            }
        }
    }
    Err(AllocError)
}
