// Whole queries.

ghost use Rattle.std.specs.Prelude.{◌≡◌, IfOk};
ghost use Rattle.gx_names_scope.specs.Refused.{Judges};
ghost use Rattle.gx_names.specs.Refusals.{main_refusals, query_refusals};
ghost use Rattle.gx_names.specs.Resolution.{main_resolved, query_resolved};

use crate::declarations::{declare_functions, resolve_prolog};
use crate::settings::{prolog_names, settings_with};
use gx_ast::expression::Expr;
use gx_ast::query::{Definition, Query};
use gx_names_scope::names::Names;
use gx_names_scope::refusal::NameRefusal;
use gx_names_trees::trees::resolve_tree;
use gx_resolved::tree::{Resolved, Settings};
use gx_types::schemas::Schemas;
use std::alloc::Global;

/// The query with its names resolved, or the first refusal in the order of the text, at one place in the order of the rules (XQuery
/// 1.0, sections 2.3.2, 3 and 4).
#[tactic(auto, using(gx_names_scope::proofs::RefusalLemmas::refused_before))]
pub fn resolve(alloc: Global, query: &Query, schemas: &Schemas) -> Result<Resolved, NameRefusal>
    ensures refusals { Judges result (query_refusals schemas.now query.now) }
    ensures resolved { IfOk result (λ r. r ≡ query_resolved schemas.now query.now) }
{
    let settings = query.settings.as_slice();
    let mut names = prolog_names(alloc, schemas, settings)?;
    let definitions = query.definitions.as_slice();
    declare_functions(alloc, &mut names, definitions)?;
    resolve_main(
        alloc,
        names,
        settings_with(settings),
        definitions,
        &query.body,
    )
}

// The second part of the prolog, and the body.
#[tactic(auto, using(gx_names_scope::proofs::RefusalLemmas::refused_before))]
fn resolve_main(
    alloc: Global,
    names: Names<'_>,
    settings: Settings,
    definitions: &[Definition],
    body: &Expr,
) -> Result<Resolved, NameRefusal>
    ensures refusals { Judges result (main_refusals names.entry definitions.now body.now) }
    ensures resolved { IfOk result (λ r. r ≡ main_resolved names.entry settings definitions.now body.now) }
{
    let (declarations, names) = match resolve_prolog(alloc, names, definitions) {
        Ok(resolved) => resolved,
        Err(refusal) => return Err(refusal),
    };
    match resolve_tree(alloc, names, body) {
        Ok((body, _names)) => Ok(Resolved {
            settings,
            declarations,
            body,
        }),
        Err(refusal) => Err(refusal),
    }
}
