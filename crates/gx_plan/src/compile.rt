// Typed Core as a plan.

ghost use Rattle.std.specs.Prelude.{◌≡◌, IfOk};
ghost use Rattle.gx_plan.specs.Compiling.{compiled_operator, compiled_query};
ghost use Rattle.gx_plan.specs.Remaking.{frame_made, IsReady};
ghost use Rattle.gx_plan.specs.Variables.{variables_of_query};

use crate::operands::form_of;
use crate::plan::{Carried, Plan, PlanExpr, Role};
use crate::remake::{Frame, Remake, remake_query};
use crate::variables::variables_of;
use gx_core::dismantle::dismantle_query;
use gx_core::expression::TypedCore;
use gx_core::operator::Operator;
use gx_types::sequence_type::Ty;
use std::alloc::{AllocError, Global};

/// The plan that a query with its types is compiled to: the operators that typing alone needs go, each other one is an operator of its
/// own and carries its type, and each variable carries the type that its binder gives.
#[tactic(auto, using(crate::proofs::Compiled::queries_are_remade))]
pub fn compile(alloc: Global, core: TypedCore) -> Result<Plan, AllocError>
    ensures query { IfOk result (λ plan. plan.query ≡ compiled_query core) }
    ensures variables { IfOk result (λ plan. plan.variables ≡ variables_of_query plan.query) }
{
    let query = remake_query(alloc, &Compiler, core)?;
    match variables_of(alloc, &query) {
        Ok(variables) => Ok(Plan { query, variables }),
        Err(error) => {
            dismantle_query(alloc, query);
            Err(error)
        }
    }
}

struct Compiler;

impl Remake<Ty, Carried, ()> for Compiler {
    ghost make = { λ compiler. compiled_operator };

    ghost facts = { λ compiler e. tt };

    #[tactic(auto, using(crate::proofs::Compiled::others_stay))]
    fn remake(
        &self,
        alloc: Global,
        frame: Frame<Ty, Carried, ()>,
    ) -> Result<(PlanExpr, ()), AllocError>
        requires { IsReady (λ e. tt) frame }
        ensures made { IfOk result (λ r. r.0 ≡ frame_made compiled_operator frame) }
        ensures facts { IfOk result (λ r. r.1 ≡ tt) }
    {
        let Frame {
            place,
            outer,
            carried: kind,
            operator,
            mut parts,
            ..
        } = frame;
        if let Operator::Nodes = operator {
            let Some(operand) = parts.pop() else {
                unreachable!()
            };
            return Ok((operand, ()));
        }
        match form_of(alloc, operator, parts) {
            Ok(form) => {
                let kind = Carried {
                    kind,
                    role: Role::Own,
                };
                Ok((
                    PlanExpr {
                        place,
                        outer,
                        kind,
                        form,
                    },
                    (),
                ))
            }
            Err(error) => {
                drop(kind);
                Err(error)
            }
        }
    }
}
