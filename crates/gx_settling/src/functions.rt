// The functions of a query, which of them the evaluation of an expression reaches, and the global variables that these name.

ghost use Rattle.std.specs.Prelude.{◌≡◌, [], IfOk, OnOk, is_some, nat_eq, slice_get};
ghost use Rattle.std.specs.List.{filter, list_all};
ghost use Rattle.indexmap.specs.IndexSet.{insert_all};
ghost use Rattle.gx_core.specs.Invariant.{is_among, scope_behind};
ghost use Rattle.gx_core.specs.Bindings.{look_up};
ghost use Rattle.gx_settling.specs.Gathering.{numbers_in_scope};
ghost use Rattle.gx_settling.specs.Reaching.{called_in_body, numbers_once, function_use as use_of_function, function_uses, functions_reached, may_be_evaluated, names_bound};

use crate::uses::uses_of;
use gx_closure::close::{Step, close};
use gx_core::expression::{CoreDeclaration, CoreFunction, Declaration, Expr};
use gx_core::listed::Listed;
use gx_core::scope::Scope;
use gx_types::sequence_type::Ty;
use indexmap::IndexSet;
use std::alloc::{AllocError, Global};
use std::marker::Model;

/// What the body of a function uses of what is declared outside it: the functions that it calls, and the global variables that it
/// names, by their numbers.
#[derive(Drop)]
pub struct FunctionUse {
    pub calls: Listed<u32>,
    pub globals: Listed<u32>,
}

/// What the body of each function of a query uses, in the order of their declarations.
#[derive(Drop)]
pub struct FunctionUses {
    functions: Vec<FunctionUse>,
}

impl Model for FunctionUses {
    ghost use Rattle.std.specs.Prelude.{List};
    ghost use Rattle.gx_settling.specs.declared.functions.FunctionUse.{FunctionUse};

    ghost Value = { List FunctionUse };

    ghost view = { λ uses. uses.functions.items };
}

impl FunctionUses {
    /// What the functions of a query use.
    #[tactic(auto, unfolding(crate::specs::Reaching::function_uses))]
    pub fn of(alloc: Global, declarations: &[CoreDeclaration]) -> Result<FunctionUses, AllocError>
        ensures { IfOk result (λ uses. uses ≡ function_uses declarations.now) }
    {
        let globals = globals_of(alloc, declarations)?;
        let mut functions = Vec::new(alloc);
        let mut left = declarations;
        while let Some((declaration, others)) = left.split_first() {
            if let Declaration::Function(function) = declaration {
                functions.push(function_use(alloc, &globals, function)?)?;
            }
            left = others;
        }
        Ok(FunctionUses { functions })
    }

    /// Whether each function that the evaluation of an expression reaches, directly or through functions, names global variables in
    /// scope alone (XQuery 1.0, section 4.14).
    #[tactic(auto, unfolding(crate::specs::Reaching::may_be_evaluated))]
    pub fn may_be_evaluated<K>(
        &self,
        alloc: Global,
        scope: &Scope<Ty>,
        expression: &Expr<K>,
    ) -> Result<bool, AllocError>
        ensures { IfOk result (λ may. may ≡ may_be_evaluated self.now scope.now expression.now) }
    {
        let uses = uses_of(alloc, expression)?;
        let reached = self.reached(alloc, uses.calls.as_slice())?;
        Ok(self.name_bound(scope, reached.as_slice()))
    }

    // The functions that are called first, and all that these call in turn.
    fn reached(&self, alloc: Global, first: &[u32]) -> Result<IndexSet<u32>, AllocError>
        ensures { IfOk result (λ reached. reached.keys ≡ functions_reached self.now first.now) }
    {
        let mut reached = IndexSet::new(alloc);
        put_all(&mut reached, first)?;
        let mut calling = Calling { uses: self };
        close(alloc, &mut calling, &mut reached)?;
        Ok(reached)
    }

    // Whether each of these functions names global variables in scope alone.
    fn name_bound(&self, scope: &Scope<Ty>, functions: &[u32]) -> bool
        ensures { result ≡ list_all (λ number. names_bound scope.now (slice_get self.now number)) functions.now }
    {
        functions
            .iter()
            .all(|number| self.names_bound(scope, *number))
    }

    fn names_bound(&self, scope: &Scope<Ty>, number: u32) -> bool
        ensures { result ≡ names_bound scope.now (slice_get self.now number) }
    {
        match self.functions.get(number as usize) {
            Some(used) => are_in_scope(scope, used.globals.as_slice()),
            None => false,
        }
    }

    // The functions that the function with this number calls.
    fn calls(&self, number: u32) -> &[u32]
        ensures { result.now ≡ called_in_body (slice_get self.now number) }
    {
        match self.functions.get(number as usize) {
            Some(used) => used.calls.as_slice(),
            None => &[],
        }
    }
}

fn are_in_scope(scope: &Scope<Ty>, variables: &[u32]) -> bool
    ensures { result ≡ list_all (λ number. is_some (look_up scope.now number)) variables.now }
{
    variables.iter().all(|number| is_in_scope(scope, *number))
}

fn is_in_scope(scope: &Scope<Ty>, number: u32) -> bool
    ensures { result ≡ is_some (look_up scope.now number) }
{
    scope.find(number).is_some()
}

// The calls of functions.
#[derive(Drop)]
struct Calling<'a> {
    uses: &'a FunctionUses,
}

impl Step<u32> for Calling<'_> {
    ghost use Rattle.gx_settling.specs.Reaching.{called_from};

    ghost next = { λ calling number. called_from calling.uses.now number };

    ghost fits = { λ calling found. Unit {0} };

    fn add_next(
        &mut self,
        _alloc: Global,
        at: usize,
        found: &mut IndexSet<u32>,
    ) -> Result<(), AllocError> {
        let number = found[at];
        put_all(found, self.uses.calls(number))
    }
}

// Puts numbers behind those of a set, unless they are there.
fn put_all(found: &mut IndexSet<u32>, numbers: &[u32]) -> Result<(), AllocError>
    ensures { OnOk result (found.new.keys ≡ insert_all nat_eq found.old.keys numbers.now) }
{
    let mut left = numbers;
    while let Some((number, others)) = left.split_first() {
        found.insert(*number)?;
        left = others;
    }
    Ok(())
}

// The global variables of a query.
fn globals_of(alloc: Global, declarations: &[CoreDeclaration]) -> Result<Scope<()>, AllocError>
    ensures { IfOk result (λ globals. numbers_in_scope globals ≡ scope_behind declarations.now []) }
{
    let mut globals = Scope::new(alloc);
    let mut left = declarations;
    while let Some((declaration, others)) = left.split_first() {
        if let Declaration::Global { binder, .. } = declaration {
            globals.bind(binder.variable, ())?;
        }
        left = others;
    }
    Ok(globals)
}

fn function_use(
    alloc: Global,
    globals: &Scope<()>,
    function: &CoreFunction,
) -> Result<FunctionUse, AllocError>
    ensures { IfOk result (λ used. used ≡ use_of_function (numbers_in_scope globals.now) function.now) }
{
    let uses = uses_of(alloc, &function.body)?;
    let globals = globals_among(alloc, globals, uses.variables.as_slice())?;
    Ok(FunctionUse {
        calls: each_once(alloc, uses.calls.as_slice())?,
        globals: each_once(alloc, globals.as_slice())?,
    })
}

fn each_once(alloc: Global, numbers: &[u32]) -> Result<Listed<u32>, AllocError>
    ensures { IfOk result (λ once. once ≡ numbers_once numbers.now) }
{
    let mut found = IndexSet::new(alloc);
    put_all(&mut found, numbers)?;
    Ok(Listed::from_vec(Vec::from_slice(alloc, found.as_slice())?))
}

// Those of the variables that are global.
fn globals_among(
    alloc: Global,
    globals: &Scope<()>,
    variables: &[u32],
) -> Result<Vec<u32>, AllocError>
    ensures { IfOk result (λ numbers. numbers.items ≡ filter (is_among (numbers_in_scope globals.now)) variables.now) }
{
    let mut numbers = Vec::new(alloc);
    let mut left = variables;
    while let Some((number, others)) = left.split_first() {
        if is_global(globals, *number) {
            numbers.push(*number)?;
        }
        left = others;
    }
    Ok(numbers)
}

fn is_global(globals: &Scope<()>, number: u32) -> bool
    ensures { result ≡ is_among (numbers_in_scope globals.now) number }
{
    globals.find(number).is_some()
}
