// Variables that an expression names.

ghost use Rattle.std.specs.Prelude.{◌≡◌, IfOk};
ghost use Rattle.gx_rules.specs.Guards.{is_named_in, names_at};

use gx_core::expression::Form;
use gx_plan::plan::PlanExpr;
use gx_plan::walk::Walk;
use std::alloc::{AllocError, Global};

/// Whether an expression names a variable. The walk ends long before the loop does.
#[tactic(auto, using(crate::proofs::Walking::named_next))]
pub fn is_named_in(alloc: Global, expression: &PlanExpr, variable: u32) -> Result<bool, AllocError>
    ensures { IfOk result (λ answer. answer ≡ is_named_in expression.now variable) }
{
    let mut walk = Walk::new(alloc, expression)?;
    for _ in 0..u64::MAX {
        match walk.next()? {
            None => return Ok(false),
            Some(next) => {
                if names_at(next, variable) {
                    return Ok(true);
                }
            }
        }
    }
    Err(AllocError)
}

// Whether the operator of an expression names a variable.
fn names_at(expression: &PlanExpr, variable: u32) -> bool
    ensures { result ≡ names_at expression.now variable }
{
    match &expression.form {
        Form::Var(number) | Form::Step(_, _, number) => *number == variable,
        _ => false,
    }
}
