// The functions that a query declares, as calls find them.

ghost use Rattle.std.specs.Prelude.{◌≡◌, ◌++◌, ◌∷◌, ◌+◌, List, IfOk, option_copied, length, map, drop};
ghost use Rattle.gx_resolved.specs.declared.tree.Declaration.{Declaration as PlainDeclaration};
ghost use Rattle.std.specs.Str.{encode_utf8_all};
ghost use Rattle.std.specs.Cmp.Rules.{comparing, hashing};
ghost use Rattle.std.specs.Hash as fed;
ghost use Rattle.std.proofs.Common.{rules};
ghost use Rattle.gx_resolved.specs.declared.tree.BoundName.{BoundName as PlainBound};
ghost use Rattle.gx_normal.specs.Signatures.{inside_parameters, function_key, numbers_written, parameter_binder as binder_of_parameter, parameter_binders, signature_called, signature_written, signatures_of, signatures_written, type_or_items as written_or_items, user_call_at, numbered_signature as signature_numbered};

use crate::construct::{at, empty};
use crate::normalising::Numbers;
use gx_base::name::SharedName;
use gx_base::place::Place;
use gx_core::expression::{Binder, CoreExpr, Form};
use gx_core::listed::Listed;
use gx_core::signature::FunctionSignature;
use gx_resolved::nested_map::NestedMap;
use gx_resolved::tree::{BoundName, Declaration, FunctionDeclaration};
use gx_types::sequence_type::Ty;
use gx_types::type_rules::star;
use gx_typetext::known::any_item;
use std::alloc::{AllocError, Global};
use std::hash::{Hash, Hasher};

/// What tells declared functions apart: the name, and the number of parameters (XQuery 1.0, section 4.15).
pub struct FunctionKey {
    pub name: SharedName,
    pub arity: usize,
}

impl Drop for FunctionKey {
    fn drop(self) {
        let FunctionKey {
            name: _name,
            arity: _arity,
        } = self;
    }
}

impl Clone for FunctionKey {
    ghost is_clone = { λ key copy. copy ≡ key };

    fn clone(&self) -> Result<FunctionKey, AllocError> {
        Ok(FunctionKey {
            name: self.name.clone()?,
            arity: self.arity,
        })
    }
}

impl PartialEq for FunctionKey {
    ghost use Rattle.std.specs.Cmp.Rules.{comparing};
    ghost use Rattle.std.proofs.Common.{rules};
    ghost use Rattle.gx_normal.specs.Signatures.{same_function};

    ghost eq = { same_function };

    ghost laws = { Prim.search (comparing, rules) };

    fn eq(&self, other: &FunctionKey) -> bool {
        self.name == other.name && self.arity == other.arity
    }
}

impl Eq for FunctionKey {
    ghost laws = { Prim.search (comparing, rules) };
}

// Overloads of one name share a hash: each needs another number of parameters.
impl Hash for FunctionKey {
    ghost hash_input = { λ k. fed.str (encode_utf8_all k.name.uri) ++ fed.str (encode_utf8_all k.name.local) };

    ghost respects_eq = { Prim.search (hashing, rules) };

    fn hash<H: Hasher>(&self, state: &mut H) {
        self.name.hash(state);
    }
}

/// The functions that a query declares: their signatures in order, and the number of each by its name and number of parameters.
#[derive(Drop)]
pub struct Signatures {
    pub numbers: NestedMap<FunctionKey, u32>,
    pub list: Listed<FunctionSignature>,
}

impl Signatures {
    /// The functions among declarations.
    pub(crate) fn of(alloc: Global, declarations: &[Declaration]) -> Result<Signatures, AllocError>
        ensures { IfOk result (λ made. made ≡ signatures_of declarations.now) }
    {
        let mut numbers = NestedMap::new(alloc);
        let mut list = Vec::new(alloc);
        let mut number = 0;
        let mut left = declarations;
        while let Some((declaration, others)) = left.split_first() {
            number = add(alloc, declaration, number, &mut numbers, &mut list)?;
            left = others;
        }
        let list = Listed::from_vec(list);
        Ok(Signatures { numbers, list })
    }

    /// The signature of the function that a call names.
    fn called(
        &self,
        name: &SharedName,
        count: usize,
    ) -> Result<Option<&FunctionSignature>, AllocError>
        ensures { IfOk result (λ found. option_copied found ≡ signature_called self.now name.now count) }
    {
        let key = FunctionKey {
            name: name.clone()?,
            arity: count,
        };
        let number = self.numbers.find(&key).copied();
        Ok(numbered_signature(self.list.as_slice(), count, number))
    }
}

// The signature with a number, if it has so many parameters.
fn numbered_signature(
    list: &[FunctionSignature],
    count: usize,
    number: Option<u32>,
) -> Option<&FunctionSignature>
    ensures { option_copied result ≡ signature_numbered list.now count number }
{
    let signature = list.get(number? as usize)?;
    if signature.parameters.as_slice().len() == count {
        Some(signature)
    } else {
        None
    }
}

// Adds the function of a declaration, if it is one, and says the number of the next one.
fn add(
    alloc: Global,
    declaration: &Declaration,
    number: u32,
    numbers: &mut NestedMap<FunctionKey, u32>,
    list: &mut Vec<FunctionSignature>,
) -> Result<u32, AllocError>
    ensures numbers { (others : List PlainDeclaration) → IfOk result (λ next. numbers_written next others numbers.new ≡ numbers_written number (declaration.now ∷ others) numbers.old) }
    ensures list { (others : List PlainDeclaration) → IfOk result (λ next. list.new.items ++ signatures_written next others ≡ list.old.items ++ signatures_written number (declaration.now ∷ others)) }
{
    let Declaration::Function(function) = declaration else {
        return Ok(number);
    };
    let Some(next) = number.checked_add(1) else {
        return Err(AllocError);
    };
    list.push(written_signature(alloc, number, function)?)?;
    numbers.bind(key(function)?, number)?;
    Ok(next)
}

fn key(function: &FunctionDeclaration) -> Result<FunctionKey, AllocError>
    ensures { IfOk result (λ key. key ≡ function_key function.now) }
{
    let name = function.name.clone()?;
    let arity = function.parameters.as_slice().len();
    Ok(FunctionKey { name, arity })
}

fn written_signature(
    alloc: Global,
    number: u32,
    function: &FunctionDeclaration,
) -> Result<FunctionSignature, AllocError>
    ensures { IfOk result (λ signature. signature ≡ signature_written number function.now) }
{
    let parameters = written_types(alloc, function.parameters.as_slice())?;
    let result = type_or_items(alloc, function.result.as_ref())?;
    let name = function.name.name().clone()?;
    Ok(FunctionSignature {
        number,
        name,
        parameters,
        result,
    })
}

// The types of parameters.
fn written_types(alloc: Global, parameters: &[BoundName]) -> Result<Listed<Ty>, AllocError>
    ensures { IfOk result (λ types. types ≡ map (λ (parameter : PlainBound). written_or_items parameter.kind) parameters.now) }
{
    let mut types = Vec::new(alloc);
    for parameter in parameters {
        types.push(type_or_items(alloc, parameter.kind.as_ref())?)?;
    }
    Ok(Listed::from_vec(types))
}

/// The type that is written at a parameter or a result, or that of any items.
pub(crate) fn type_or_items(alloc: Global, kind: Option<&Ty>) -> Result<Ty, AllocError>
    ensures { IfOk result (λ t. t ≡ written_or_items (option_copied kind.entry)) }
{
    match kind {
        Some(kind) => kind.clone(),
        None => {
            let item = any_item(alloc)?;
            star(alloc, &item)
        }
    }
}

// A parameter with its number.
fn parameter_binder(alloc: Global, parameter: &BoundName, number: u32) -> Result<Binder, AllocError>
    ensures { IfOk result (λ binder. binder ≡ binder_of_parameter parameter.now number) }
{
    let kind = type_or_items(alloc, parameter.kind.as_ref())?;
    Ok(Binder {
        variable: number,
        place: parameter.place,
        kind: Some(kind),
    })
}

/// Numbers parameters from the free number on and binds them: their binders, the numbers inside of them, and the number that is free
/// there.
pub(crate) fn bind_parameters(
    alloc: Global,
    parameters: &[BoundName],
    numbers: Numbers,
    free: u32,
) -> Result<(Listed<Binder>, Numbers, u32), AllocError>
    ensures binders { IfOk result (λ r. r.0 ≡ parameter_binders parameters.now free) }
    ensures numbers { IfOk result (λ r. r.1 ≡ inside_parameters parameters.now free numbers) }
    ensures free { IfOk result (λ r. r.2 ≡ free + length parameters.now) }
{
    let mut binders = Vec::new(alloc);
    let mut inside = numbers;
    let mut next = free;
    let mut left = parameters;
    while let Some((parameter, others)) = left.split_first() {
        binders.push(parameter_binder(alloc, parameter, next)?)?;
        inside.bind(parameter.place, next)?;
        let Some(behind) = next.checked_add(1) else {
            return Err(AllocError);
        };
        next = behind;
        left = others;
    }
    Ok((Listed::from_vec(binders), inside, next))
}

/// Takes the parameters away again.
pub(crate) fn unbind_parameters(count: usize, numbers: Numbers) -> Result<Numbers, AllocError>
    ensures { IfOk result (λ outside. outside ≡ drop count numbers) }
{
    let mut outside = numbers;
    for _ in 0..count {
        outside.unbind()?;
    }
    Ok(outside)
}

/// A call of a declared function, or the empty sequence where there is none of this name with so many parameters.
pub(crate) fn user_call(
    alloc: Global,
    place: Place,
    signatures: &Signatures,
    name: &SharedName,
    arguments: Vec<CoreExpr>,
) -> Result<CoreExpr, AllocError>
    ensures { IfOk result (λ e. e ≡ user_call_at place (signature_called signatures.now name.now (length arguments.items)) arguments.items) }
{
    match signatures.called(name, arguments.len())? {
        Some(signature) => {
            let signature = signature.copied(alloc)?;
            Ok(at(place, Form::User(signature, arguments)))
        }
        None => Ok(empty(place)),
    }
}
