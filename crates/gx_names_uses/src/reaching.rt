// Which functions a value calls, and the variables that they name.

ghost use Rattle.std.specs.Prelude.{◌≡◌, [], ◌∷◌, ◌++◌, List, IfOk, OnOk, false, true};
ghost use Rattle.std.specs.List.{filter};
ghost use Rattle.gx_names_uses.specs.declared.uses.Use.{Use as Used};
ghost use Rattle.gx_names_uses.specs.declared.uses.Use.TheVariants as uses;
ghost use Rattle.gx_names_scope.specs.Environment.{Variables};
ghost use Rattle.gx_names_scope.specs.declared.signature.Signature.{Signature as Called};
ghost use Rattle.gx_names_uses.specs.Reaching.{calls_are_settled, is_at_hand, is_call, uses_in};
ghost use Rattle.gx_names_uses.specs.Searching.{IsSettled, Searches};

use crate::uses::{SharedUses, Use};
use gx_names_scope::names::Names;
use gx_names_scope::signature::Signature;
use gx_resolved::nested_map::NestedMap;
use std::alloc::{AllocError, Global};

/// The functions that are declared, with what their bodies use.
pub type Bodies = NestedMap<Signature, SharedUses>;

/// Functions whose bodies name variables in scope alone, and call but one another.
pub type Settled = NestedMap<Signature, bool>;

/// Whether a value calls functions alone that name variables in scope, and so do those that they call in turn. What is found to be
/// so is settled for all later values.
pub fn calls_are_settled(
    alloc: Global,
    names: &Names<'_>,
    bodies: &Bodies,
    settled: &mut Settled,
    used: Vec<Use>,
) -> Result<bool, AllocError>
    requires { IsSettled names.now.variables bodies.now settled.old }
    ensures holds { IfOk result (λ holds. holds ≡ calls_are_settled names.now.variables bodies.now used.items) }
    ensures settled { IfOk result (λ holds. holds ≡ true → IsSettled names.now.variables bodies.now settled.new) }
{
    let mut left = calls_of(used);
    for _ in 0..u64::MAX {
        match left.pop() {
            None => return Ok(true),
            Some(one) => {
                if !is_at_hand(names, bodies, settled, &mut left, one)? {
                    return Ok(false);
                }
            }
        }
    }
    Err(AllocError)
}

fn calls_of(used: Vec<Use>) -> Vec<Use>
    ensures { result.items ≡ filter is_call used.items }
{
    let mut calls = used;
    calls.retain(|one| is_call(one));
    calls
}

fn is_call(used: &Use) -> bool
    ensures { result ≡ is_call used.now }
{
    matches!(used, Use::Function(_))
}

// Whether a variable is in scope; a function is settled, and what its body uses is left to be looked at.
fn is_at_hand(
    names: &Names<'_>,
    bodies: &Bodies,
    settled: &mut Settled,
    left: &mut Vec<Use>,
    one: Use,
) -> Result<bool, AllocError>
    ensures found { IfOk result (λ holds. holds ≡ true → (calls : List Used) → Searches names.now.variables bodies.now calls settled.old (left.old.items ++ one ∷ []) → Searches names.now.variables bodies.now calls settled.new left.new.items) }
    ensures missing { IfOk result (λ holds. holds ≡ false → (functions : List Called) → is_at_hand names.now.variables bodies.now functions one ≡ false) }
    ensures same { IfOk result (λ holds. holds ≡ false → settled.new ≡ settled.old) }
{
    match one {
        Use::Variable(name) => Ok(names.binder(&name).is_some()),
        Use::Function(function) => {
            settle(bodies, settled, left, function)?;
            Ok(true)
        }
    }
}

fn settle(
    bodies: &Bodies,
    settled: &mut Settled,
    left: &mut Vec<Use>,
    function: Signature,
) -> Result<(), AllocError>
    ensures { OnOk result ((variables : Variables) (calls : List Used) → Searches variables bodies.now calls settled.old (left.old.items ++ uses.Function function ∷ []) → Searches variables bodies.now calls settled.new left.new.items) }
{
    if settled.find(&function).is_some() {
        return Ok(());
    }
    put_uses(bodies, &function, left)?;
    settled.bind(function, true)?;
    Ok(())
}

// Puts what a function uses to what is left.
fn put_uses(bodies: &Bodies, function: &Signature, left: &mut Vec<Use>) -> Result<(), AllocError>
    ensures { OnOk result (left.new.items ≡ left.old.items ++ uses_in bodies.now function.now) }
{
    let Some(uses) = bodies.find(function) else {
        return Ok(());
    };
    let mut more = uses.as_slice();
    while let Some((one, others)) = more.split_first() {
        left.push(one.clone()?)?;
        more = others;
    }
    Ok(())
}
