// The typing of global variables.

ghost use Rattle.std.specs.Prelude.{◌≡◌, ◌≢◌, ◌++◌, [], ◌∷◌, None, Some, IfOk, IfErr, OnOk};
ghost use Rattle.gx_types.specs.SchemaSet.{SchemaSet};
ghost use Rattle.gx_core.specs.declared.expression.Declaration.TheVariants as globals;
ghost use Rattle.gx_core.specs.Expression.{annotation_of};
ghost use Rattle.gx_static.specs.Typing.{continued, tasks_of, judgement_of, judgement_with, EndsRejected};
ghost use Rattle.gx_static.specs.declared.typing.Task.TheVariants as tasks;

use crate::error::InferError;
use crate::rules::is_as_written;
use crate::typing::{Task, Typing};
use gx_base::code::Code;
use gx_base::name::Name;
use gx_base::stack::Stack;
use gx_core::dismantle::dismantle;
use gx_core::expression::{Binder, Core, CoreDeclaration, TypedDeclaration, TypedExpr};
use gx_types::schemas::Schemas;
use std::alloc::{AllocError, Global};

impl Typing {
    // Declares a global variable, whose value is the part on top.
    pub(crate) fn declare(
        &mut self,
        alloc: Global,
        schemas: &Schemas,
        name: Name,
        binder: Binder,
    ) -> Result<(), InferError>
        requires { judgement_with schemas.now (tasks.Declare name binder) self.now ≢ None }
        ensures typed { OnOk result (judgement_of schemas.now self.new ≡ judgement_with schemas.now (tasks.Declare name binder) self.old) }
        ensures rejected { IfErr result (λ e. EndsRejected e (judgement_with schemas.now (tasks.Declare name binder) self.old)) }
    {
        let Some(value) = self.parts.pop() else {
            unreachable!();
        };
        if is_as_written(alloc, schemas, &binder, &value.kind)? {
            Ok(self.add_global(name, binder, value)?)
        } else {
            dismantle(alloc, value);
            Err(InferError::NoType {
                place: binder.place,
                code: Code::XPTY0004,
            })
        }
    }

    // Adds a global variable, which has the type of its value.
    fn add_global(&mut self, name: Name, binder: Binder, value: TypedExpr) -> Result<(), AllocError>
        ensures { (schemas : SchemaSet) → OnOk result (judgement_of schemas self.new
            ≡ continued schemas self.old.tasks self.old.parts ((binder.variable, annotation_of value) ∷ self.old.scope)
            (self.old.declared.items ++ globals.Global name binder (Some value) ∷ [])) }
    {
        self.scope.bind(binder.variable, value.kind.clone()?)?;
        let value = Some(value);
        self.declared.push(TypedDeclaration::Global {
            name,
            binder,
            value,
        })?;
        Ok(())
    }

    // Declares an external variable, which has the type that is written.
    pub(crate) fn declare_external(&mut self, name: Name, binder: Binder) -> Result<(), AllocError>
        ensures { (schemas : SchemaSet) → OnOk result (judgement_of schemas self.new ≡ judgement_with schemas (tasks.External name binder) self.old) }
    {
        if let Some(kind) = &binder.kind {
            self.scope.bind(binder.variable, kind.clone()?)?;
        }
        let value = None;
        self.declared.push(TypedDeclaration::Global {
            name,
            binder,
            value,
        })?;
        Ok(())
    }
}

// The tasks of a query: to type and to declare its globals in order, and to type its body.
pub(crate) fn tasks_of(alloc: Global, core: Core) -> Result<Stack<Task>, AllocError>
    ensures { IfOk result (λ made. made ≡ tasks_of core.declarations (tasks.Infer core.body ∷ [])) }
{
    let mut tasks = Stack::new(alloc);
    tasks.push(Task::Infer(core.body))?;
    let mut declarations = core.declarations.into_vec();
    while let Some(declaration) = declarations.pop() {
        put_down(declaration, &mut tasks)?;
    }
    Ok(tasks)
}

// Puts down the tasks of a declaration.
fn put_down(declaration: CoreDeclaration, tasks: &mut Stack<Task>) -> Result<(), AllocError>
    ensures { OnOk result (tasks.new ≡ tasks_of (declaration ∷ []) tasks.old) }
{
    match declaration {
        CoreDeclaration::Global {
            name,
            binder,
            value,
        } => match value {
            Some(value) => {
                tasks.push(Task::Declare(name, binder))?;
                tasks.push(Task::Infer(value))
            }
            None => tasks.push(Task::External(name, binder)),
        },
        CoreDeclaration::Function(function) => tasks.push(Task::OpenFunction(function)),
    }
}
