// The tasks of blocks, and of their clauses and keys.

ghost use Rattle.std.specs.Prelude.{◌≡◌, ◌++◌, ◌∷◌, map, flat_map, IfOk, OnOk};
ghost use Rattle.gx_types.specs.SchemaSet.{SchemaSet};
ghost use Rattle.gx_core.specs.declared.operator.Operator.TheVariants as operators;
ghost use Rattle.gx_core.specs.ExpressionView.{kind_of_clause, order_of_key, part_of_key};
ghost use Rattle.gx_static.specs.Typing.{block_tasks, clause_tasks, clause_unbinding, continued, judgement_of};
ghost use Rattle.gx_static.specs.declared.typing.Task.TheVariants as tasks;

use crate::typing::{Task, Typing};
use gx_base::place::Place;
use gx_core::expression::{CoreClause, CoreExpr, CoreKey};
use gx_core::listed::Listed;
use gx_core::operator::{ClauseKind, Operator};
use gx_sorting::KeyOrder;
use std::alloc::{AllocError, Global};

impl Typing {
    // The keys and what is returned are typed with all variables of the clauses in scope.
    pub(crate) fn open_block(
        &mut self,
        alloc: Global,
        place: Place,
        outer: Place,
        clauses: Vec<CoreClause>,
        keys: Vec<CoreKey>,
        body: Box<CoreExpr>,
    ) -> Result<(), AllocError>
        ensures { (schemas : SchemaSet) → OnOk result (judgement_of schemas self.new
            ≡ continued schemas (block_tasks clauses.items keys.items body.value ++ (flat_map clause_unbinding (map kind_of_clause clauses.items)
            ++ tasks.Finish place outer (operators.Block (map kind_of_clause clauses.items) (map order_of_key keys.items)) ∷ self.old.tasks)) self.old.parts self.old.scope self.old.declared.items) }
    {
        let mut steps = Vec::new(alloc);
        let kinds = open_clauses(alloc, clauses, &mut steps)?;
        let orders = open_keys(alloc, keys, &mut steps)?;
        steps.push(Task::Infer(Box::into_inner(body)))?;
        unbind_clauses(&kinds, &mut steps)?;
        let operator = Operator::Block(Listed::from_vec(kinds), Listed::from_vec(orders));
        self.tasks.push(Task::Finish(place, outer, operator))?;
        while let Some(step) = steps.pop() {
            self.tasks.push(step)?;
        }
        Ok(())
    }
}

// Adds the tasks of clauses, and answers the clauses without their parts.
fn open_clauses(
    alloc: Global,
    clauses: Vec<CoreClause>,
    steps: &mut Vec<Task>,
) -> Result<Vec<ClauseKind>, AllocError>
    ensures steps { OnOk result (steps.new.items ≡ steps.old.items ++ flat_map clause_tasks clauses.items) }
    ensures kinds { IfOk result (λ kinds. kinds.items ≡ map kind_of_clause clauses.items) }
{
    let mut kinds = Vec::new(alloc);
    for clause in clauses {
        kinds.push(open_clause(clause, steps)?)?;
    }
    Ok(kinds)
}

fn open_clause(clause: CoreClause, steps: &mut Vec<Task>) -> Result<ClauseKind, AllocError>
    ensures steps { OnOk result (steps.new.items ≡ steps.old.items ++ clause_tasks clause) }
    ensures kind { IfOk result (λ kind. kind ≡ kind_of_clause clause) }
{
    match clause {
        CoreClause::For(binder, position, source) => {
            steps.push(Task::Infer(source))?;
            steps.push(Task::BindItem(binder.variable, position))?;
            Ok(ClauseKind::For(binder, position))
        }
        CoreClause::Let(binder, value) => {
            steps.push(Task::Infer(value))?;
            steps.push(Task::Bind(binder.variable))?;
            Ok(ClauseKind::Let(binder))
        }
        CoreClause::Where(condition) => {
            steps.push(Task::Infer(condition))?;
            Ok(ClauseKind::Where)
        }
    }
}

// Adds the tasks of keys, and answers their orders.
fn open_keys(
    alloc: Global,
    keys: Vec<CoreKey>,
    steps: &mut Vec<Task>,
) -> Result<Vec<KeyOrder>, AllocError>
    ensures steps { OnOk result (steps.new.items ≡ steps.old.items ++ map (λ key. tasks.Infer (part_of_key key)) keys.items) }
    ensures orders { IfOk result (λ orders. orders.items ≡ map order_of_key keys.items) }
{
    let mut orders = Vec::new(alloc);
    for key in keys {
        orders.push(key.order)?;
        steps.push(Task::Infer(key.value))?;
    }
    Ok(orders)
}

// Adds the tasks that take away what clauses bind.
fn unbind_clauses(kinds: &[ClauseKind], steps: &mut Vec<Task>) -> Result<(), AllocError>
    ensures { OnOk result (steps.new.items ≡ steps.old.items ++ flat_map clause_unbinding kinds.now) }
{
    for kind in kinds {
        unbind_clause(kind, steps)?;
    }
    Ok(())
}

fn unbind_clause(kind: &ClauseKind, steps: &mut Vec<Task>) -> Result<(), AllocError>
    ensures { OnOk result (steps.new.items ≡ steps.old.items ++ clause_unbinding kind.now) }
{
    match kind {
        ClauseKind::For(_, 0) | ClauseKind::Let(_) => steps.push(Task::Unbind)?,
        ClauseKind::For(_, _) => {
            steps.push(Task::Unbind)?;
            steps.push(Task::Unbind)?;
        }
        ClauseKind::Where => {}
    }
    Ok(())
}
