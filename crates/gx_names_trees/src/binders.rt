// Variables that are bound.

ghost use Rattle.std.specs.Prelude.{◌≡◌, IfOk};
ghost use Rattle.gx_names_scope.specs.Refused.{Judges};
ghost use Rattle.gx_names_trees.specs.TreeRefusals.{binder_refusals, bound_refusals, case_refusals, optional_refusals, position_refusals, same_variable};
ghost use Rattle.gx_names_trees.specs.TreeResolution.{binder_resolved, binding_resolved, bound_resolved, case_resolved, optional_resolved};
ghost use Rattle.gx_names_scope.specs.Environment.{plain_name};

use gx_ast::name::Variable;
use gx_ast::sequence_type::{BoundVariable, CaseHead, SequenceType};
use gx_base::code::Code;
use gx_base::name::SharedName;
use gx_names_scope::names::Names;
use gx_names_scope::refusal::{NameRefusal, refused};
use gx_names_types::type_names::{check_written_type, type_checked, type_written};
use gx_resolved::tree::{BindingWord, BoundName, Construct};
use std::alloc::{AllocError, Global};

/// The variable that is bound, with its type.
pub fn bound_name(
    alloc: Global,
    names: &Names<'_>,
    variable: &Variable,
    kind: &Option<SequenceType>,
) -> Result<BoundName, NameRefusal>
    ensures refusals { Judges result (binder_refusals names.now variable.now kind.now) }
    ensures bound { IfOk result (λ bound. bound ≡ binder_resolved names.now variable.now kind.now) }
{
    let Some(name) = names.plain_name(&variable.name)? else {
        return Err(refused(variable.place, Code::XPST0081));
    };
    check_written_type(alloc, names, kind)?;
    let kind = match kind {
        Some(kind) => Some(type_written(alloc, names, kind)?),
        None => None,
    };
    let name = SharedName::new(alloc, name)?;
    let place = variable.place;
    Ok(BoundName { name, place, kind })
}

/// A variable without a type, if it is written.
pub(crate) fn optional_name(
    alloc: Global,
    names: &Names<'_>,
    variable: &Option<Variable>,
) -> Result<Option<BoundName>, NameRefusal>
    ensures refusals { Judges result (optional_refusals names.now variable.now) }
    ensures bound { IfOk result (λ bound. bound ≡ optional_resolved names.now variable.now) }
{
    match variable {
        Some(variable) => match bound_name(alloc, names, variable, &None) {
            Ok(bound) => Ok(Some(bound)),
            Err(refusal) => Err(refusal),
        },
        None => Ok(None),
    }
}

// The variable of a position, which is another than that of the items.
fn position_name(
    alloc: Global,
    names: &Names<'_>,
    variable: &Variable,
    position: &Option<Variable>,
) -> Result<Option<BoundName>, NameRefusal>
    ensures refusals { Judges result (position_refusals names.now variable.now position.now) }
    ensures bound { IfOk result (λ bound. bound ≡ optional_resolved names.now position.now) }
{
    let Some(position) = position else {
        return Ok(None);
    };
    let same = same_variable(names, variable, position)?;
    let bound = match bound_name(alloc, names, position, &None) {
        Ok(bound) => bound,
        Err(refusal) => return Err(refusal),
    };
    if same {
        return Err(refused(position.place, Code::XQST0089));
    }
    Ok(Some(bound))
}

fn same_variable(names: &Names<'_>, a: &Variable, b: &Variable) -> Result<bool, AllocError>
    ensures { IfOk result (λ same. same ≡ same_variable (plain_name names.now a.now.name) (plain_name names.now b.now.name)) }
{
    let Some(a) = names.plain_name(&a.name)? else {
        return Ok(false);
    };
    match names.plain_name(&b.name)? {
        Some(b) => Ok(a == b),
        None => Ok(false),
    }
}

/// What a binding of a clause is.
#[tactic(auto, using(gx_names_scope::proofs::RefusalLemmas::refused_before))]
pub(crate) fn bound_construct(
    alloc: Global,
    names: &Names<'_>,
    word: BindingWord,
    bound: &BoundVariable,
) -> Result<Construct, NameRefusal>
    ensures refusals { Judges result (bound_refusals names.now bound.now) }
    ensures construct { IfOk result (λ construct. construct ≡ bound_resolved names.now word bound.now) }
{
    let name = match bound_name(alloc, names, &bound.variable, &bound.kind) {
        Ok(name) => name,
        Err(refusal) => return Err(refusal),
    };
    match position_name(alloc, names, &bound.variable, &bound.position) {
        Ok(position) => Ok(binding(word, name, position)),
        Err(refusal) => Err(refusal),
    }
}

fn binding(word: BindingWord, bound: BoundName, position: Option<BoundName>) -> Construct
    ensures { result ≡ binding_resolved word bound position }
{
    match word {
        BindingWord::Let => Construct::Let(bound),
        BindingWord::For => Construct::For(bound, position),
        BindingWord::Satisfies => Construct::In(bound),
    }
}

/// What a case of a typeswitch is.
pub(crate) fn case_construct(
    alloc: Global,
    names: &Names<'_>,
    head: &CaseHead,
) -> Result<Construct, NameRefusal>
    ensures refusals { Judges result (case_refusals names.now head.now) }
    ensures construct { IfOk result (λ construct. construct ≡ case_resolved names.now head.now) }
{
    let bound = match optional_name(alloc, names, &head.variable) {
        Ok(bound) => bound,
        Err(refusal) => return Err(refusal),
    };
    match type_checked(alloc, names, &head.kind) {
        Ok(kind) => Ok(Construct::Case(bound, kind)),
        Err(refusal) => Err(refusal),
    }
}
