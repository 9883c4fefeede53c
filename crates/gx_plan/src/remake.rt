// Trees remade from below, by a loop over the operators that are open.

ghost use Rattle.std.specs.Prelude.{◌≡◌, List, ◌∷◌, map, option_map, IfOk, IfSome, IsNone};
ghost use Rattle.gx_base.specs.declared.place.Place.{Place as PlaceInText};
ghost use Rattle.gx_core.specs.declared.operator.Operator.{Operator as CoreOperator};
ghost use Rattle.gx_core.specs.declared.expression.Declaration.TheVariants as declarations;
ghost use Rattle.gx_core.specs.Expression.{Expression, Parts};
ghost use Rattle.gx_plan.specs.Remaking.{Remaker, remade, declaration_remade, query_remade, remade_inside, frame_made, frame_remade, all_remade, IsReady, IsUnderWay, AwaitsPart};
ghost use Rattle.gx_plan.specs.declared.remake.Frame.{Frame as OpenFrame};

use crate::operands::operator_and_parts;
use gx_base::place::Place;
use gx_base::stack::Stack;
use gx_core::dismantle::{dismantle, dismantle_declarations};
use gx_core::expression::{Declaration, DeclaredFunction, Expr, Query};
use gx_core::listed::Listed;
use gx_core::operator::Operator;
use std::alloc::{AllocError, Global};

/// What an operator becomes, with its places and what it carries, over parts that are remade already. A fact of each part is at hand,
/// and one of what is made is handed on.
pub trait Remake<K, L, F> {
    ghost make: { Self → PlaceInText → PlaceInText → K → CoreOperator → Parts L → Expression L };

    ghost facts: { Self → Expression L → F };

    fn remake(&self, alloc: Global, frame: Frame<K, L, F>) -> Result<(Expr<L>, F), AllocError>
        requires { IsReady (facts self.now) frame }
        ensures made { IfOk result (λ r. r.0 ≡ frame_made (make self.now) frame) }
        ensures facts { IfOk result (λ r. r.1 ≡ facts self.now r.0) };
}

/// An operator that is open: its parts that are remade, a fact of each, and the parts that are left, the next one last.
#[derive(Drop)]
pub struct Frame<K, L, F> {
    pub place: Place,
    pub outer: Place,
    pub carried: K,
    pub operator: Operator,
    pub parts: Vec<Expr<L>>,
    pub facts: Vec<F>,
    pub left: Vec<Expr<K>>,
}

/// The tree that an expression becomes, and its fact. The work ends long before the loop does.
pub fn remake_all<K: Drop, L: Drop, F: Drop, R: Remake<K, L, F>>(
    alloc: Global,
    remaker: &R,
    expression: Expr<K>,
) -> Result<(Expr<L>, F), AllocError>
    ensures made { IfOk result (λ r. r.0 ≡ remade (R.make remaker.now) expression) }
    ensures facts { IfOk result (λ r. r.1 ≡ R.facts remaker.now r.0) }
{
    let mut frame = opened(alloc, expression)?;
    let mut outer = Stack::new(alloc);
    for _ in 0..u64::MAX {
        match next_part(&mut frame) {
            Some(part) => {
                outer.push(frame)?;
                frame = opened(alloc, part)?;
            }
            None => {
                let (made, facts) = remaker.remake(alloc, frame)?;
                let Some(enclosing) = outer.pop() else {
                    return Ok((made, facts));
                };
                frame = taken_in(enclosing, made, facts)?;
            }
        }
    }
    drop(frame);
    Err(AllocError)
}

// An operator with none of its parts remade.
#[tactic(auto, using(crate::proofs::Remade::forms_have_place))]
fn opened<K: Drop, L: Drop, F: Drop>(
    alloc: Global,
    expression: Expr<K>,
) -> Result<Frame<K, L, F>, AllocError>
    ensures made { (make : Remaker K L) → IfOk result (λ frame. frame_remade make frame ≡ remade make expression) }
    ensures under_way { (facts_of : Expression L → F) → IfOk result (λ frame. IsUnderWay facts_of frame) }
{
    let (place, outer, carried, form) = expression.into_parts();
    let Ok((operator, mut left)) = operator_and_parts(alloc, form) else {
        drop(carried);
        return Err(AllocError);
    };
    left.reverse();
    Ok(Frame {
        place,
        outer,
        carried,
        operator,
        parts: Vec::new(alloc),
        facts: Vec::new(alloc),
        left,
    })
}

// The next part of an operator.
#[tactic(auto, using(crate::proofs::Remade::next_is_remade, crate::proofs::Remade::none_is_left, crate::proofs::Remade::one_less))]
fn next_part<K, L, F>(frame: &mut Frame<K, L, F>) -> Option<Expr<K>>
    ensures made { (make : Remaker K L) → (outer : List (OpenFrame K L F)) → IfSome result (λ part. remade_inside make (frame.new ∷ outer) (remade make part) ≡ all_remade make frame.old outer) }
    ensures awaits { (facts_of : Expression L → F) → IsUnderWay facts_of frame.old → IfSome result (λ part. AwaitsPart facts_of frame.new) }
    ensures none { (make : Remaker K L) → IsNone result → frame_made make frame.new ≡ frame_remade make frame.old }
    ensures ready { (facts_of : Expression L → F) → IsUnderWay facts_of frame.old → IsNone result → IsReady facts_of frame.new }
{
    frame.left.pop()
}

// An operator with one more part remade.
fn taken_in<K: Drop, L: Drop, F: Drop>(
    mut frame: Frame<K, L, F>,
    part: Expr<L>,
    fact: F,
) -> Result<Frame<K, L, F>, AllocError>
    ensures made { (make : Remaker K L) → (outer : List (OpenFrame K L F)) → IfOk result (λ taken. all_remade make taken outer ≡ remade_inside make (frame ∷ outer) part) }
    ensures under_way { (facts_of : Expression L → F) → AwaitsPart facts_of frame → fact ≡ facts_of part → IfOk result (λ taken. IsUnderWay facts_of taken) }
{
    frame.parts.push(part)?;
    frame.facts.push(fact)?;
    Ok(frame)
}

/// The query that a query becomes, each value, each body of a function and its own body remade.
pub fn remake_query<K: Drop, L: Drop, F: Drop, R: Remake<K, L, F>>(
    alloc: Global,
    remaker: &R,
    query: Query<K>,
) -> Result<Query<L>, AllocError>
    ensures { IfOk result (λ r. r ≡ query_remade (R.make remaker.now) query) }
{
    let Query { declarations, body } = query;
    let Ok(declarations) = remake_declarations(alloc, remaker, declarations.into_vec()) else {
        dismantle(alloc, body);
        return Err(AllocError);
    };
    match remake_all(alloc, remaker, body) {
        Ok((body, _fact)) => Ok(Query {
            declarations: Listed::from_vec(declarations),
            body,
        }),
        Err(error) => {
            dismantle_declarations(alloc, declarations);
            Err(error)
        }
    }
}

fn remake_declarations<K: Drop, L: Drop, F: Drop, R: Remake<K, L, F>>(
    alloc: Global,
    remaker: &R,
    declarations: Vec<Declaration<K>>,
) -> Result<Vec<Declaration<L>>, AllocError>
    ensures { IfOk result (λ made. made.items ≡ map (declaration_remade (R.make remaker.now)) declarations.items) }
{
    let mut left = declarations;
    left.reverse();
    let mut made = Vec::new(alloc);
    while let Some(declaration) = left.pop() {
        made.push(remake_declaration(alloc, remaker, declaration)?)?;
    }
    Ok(made)
}

fn remake_declaration<K: Drop, L: Drop, F: Drop, R: Remake<K, L, F>>(
    alloc: Global,
    remaker: &R,
    declaration: Declaration<K>,
) -> Result<Declaration<L>, AllocError>
    ensures { IfOk result (λ made. made ≡ declaration_remade (R.make remaker.now) declaration) }
{
    match declaration {
        Declaration::Global {
            name,
            binder,
            value,
        } => match remake_value(alloc, remaker, value) {
            Ok(value) => Ok(Declaration::Global {
                name,
                binder,
                value,
            }),
            Err(error) => {
                drop(name);
                drop(binder);
                Err(error)
            }
        },
        Declaration::Function(function) => remake_function(alloc, remaker, function),
    }
}

fn remake_value<K: Drop, L: Drop, F: Drop, R: Remake<K, L, F>>(
    alloc: Global,
    remaker: &R,
    value: Option<Expr<K>>,
) -> Result<Option<Expr<L>>, AllocError>
    ensures { IfOk result (λ made. made ≡ option_map (remade (R.make remaker.now)) value) }
{
    match value {
        Some(value) => {
            let (made, _fact) = remake_all(alloc, remaker, value)?;
            Ok(Some(made))
        }
        None => Ok(None),
    }
}

fn remake_function<K: Drop, L: Drop, F: Drop, R: Remake<K, L, F>>(
    alloc: Global,
    remaker: &R,
    function: DeclaredFunction<K>,
) -> Result<Declaration<L>, AllocError>
    ensures { IfOk result (λ made. made ≡ declaration_remade (R.make remaker.now) (declarations.Function function)) }
{
    let DeclaredFunction {
        place,
        name,
        parameters,
        result,
        body,
    } = function;
    match remake_all(alloc, remaker, body) {
        Ok((body, _fact)) => Ok(Declaration::Function(DeclaredFunction {
            place,
            name,
            parameters,
            result,
            body,
        })),
        Err(error) => {
            drop(name);
            drop(parameters);
            drop(result);
            Err(error)
        }
    }
}
