// Calls of functions over at most one node (Functions and Operators, sections 14.1, 14.2 and 14.9).

ghost use Rattle.std.specs.Prelude.{◌≡◌, ◌∷◌, [], IfOk, IfErr, List, ℕ, Some, option_copied, option_map};
ghost use Rattle.gx_base.specs.declared.name.Name.{Name as PlainName};
ghost use Rattle.gx_model.specs.Forest.{Forest as PlainForest, node_in};
ghost use Rattle.gx_model.specs.Growth.{Extends};
ghost use Rattle.gx_model.specs.Item.{Items, node as node_item};
ghost use Rattle.gx_core.specs.ItemCalling.{lexical_name, name_of_items, text_of_name};
ghost use Rattle.gx_nodes.specs.Entries.{place_of_number};
ghost use Rattle.gx_core.specs.Outcome.{Outcome, gives, given};
ghost use Rattle.gx_store.specs.Items.{items_in};
ghost use Rattle.gx_machine.specs.Answering.{answer_items, AnswerFits};
ghost use Rattle.gx_machine.specs.ItemAnswers.{text_found, name_answered, roots_answered};
ghost use Rattle.gx_machine.specs.Failing.{FailsSo};

use crate::answer::Answer;
use crate::failure::Failure;
use crate::operand::only_node;
use gx_base::name::Name;
use gx_base::text::Text;
use gx_base::text_builder::TextBuilder;
use gx_funcs::function::string_atom;
use gx_store::item::Item;
use gx_store::number::NodeId;
use gx_store::store::Store;
use std::alloc::{AllocError, Global};

// The name of at most one node as it is written.
pub(crate) fn written_name(alloc: Global, store: &Store, items: &[Item]) -> Result<Answer, Failure>
    ensures value { (later : PlainForest) → Extends store.now later → IfOk result (λ r. name_answered lexical_name store.now (items_in later items.now) ≡ gives (answer_items later r) store.now) }
    ensures fits { IfOk result (λ r. AnswerFits r) }
    ensures failed { (later : PlainForest) → Extends store.now later → IfErr result (λ e. FailsSo e (name_answered lexical_name store.now (items_in later items.now))) }
{
    let name = name_among(store, items)?;
    let text = lexical_text(alloc, name)?;
    Ok(Answer::One(string_atom(text)))
}

// The local part of the name of at most one node.
pub(crate) fn local_name(alloc: Global, store: &Store, items: &[Item]) -> Result<Answer, Failure>
    ensures value { (later : PlainForest) → Extends store.now later → IfOk result (λ r. name_answered (λ name. name.local) store.now (items_in later items.now) ≡ gives (answer_items later r) store.now) }
    ensures fits { IfOk result (λ r. AnswerFits r) }
    ensures failed { (later : PlainForest) → Extends store.now later → IfErr result (λ e. FailsSo e (name_answered (λ name. name.local) store.now (items_in later items.now))) }
{
    let name = name_among(store, items)?;
    let text = local_text(alloc, name)?;
    Ok(Answer::One(string_atom(text)))
}

// Texts of a name, which are empty where there is none.
fn lexical_text(alloc: Global, name: Option<&Name>) -> Result<Text, AllocError>
    ensures { IfOk result (λ text. text ≡ text_found lexical_name (option_copied name.entry)) }
{
    match name {
        Some(name) => lexical_name(alloc, name),
        None => Text::empty(alloc),
    }
}

fn local_text(alloc: Global, name: Option<&Name>) -> Result<Text, AllocError>
    ensures { IfOk result (λ text. text ≡ text_found (λ n. n.local) (option_copied name.entry)) }
{
    match name {
        Some(name) => name.local.clone(),
        None => Text::empty(alloc),
    }
}

// The name of at most one node, if it has one.
fn name_among<'s>(store: &'s Store, items: &[Item]) -> Result<Option<&'s Name>, Failure>
    ensures value { (later : PlainForest) (made : PlainName → List ℕ) → Extends store.now later → IfOk result (λ found. name_of_items made store.now (items_in later items.now) ≡ Some (text_found made (option_copied found))) }
    ensures failed { (later : PlainForest) (made : PlainName → List ℕ) (next : List ℕ → Outcome Items) → Extends store.now later → IfErr result (λ e. FailsSo e (given (name_of_items made store.now (items_in later items.now)) next)) }
{
    match items {
        [] => Ok(None),
        _ => match only_node(items) {
            Some(node) => name_of(store, node),
            None => Err(Failure::Wrong),
        },
    }
}

fn name_of(store: &Store, node: NodeId) -> Result<Option<&Name>, Failure>
    ensures value { (later : PlainForest) (made : PlainName → List ℕ) → Extends store.now later → IfOk result (λ found. option_map (text_of_name made) (node_in store.now (place_of_number later node.number)) ≡ Some (text_found made (option_copied found))) }
    ensures failed { (later : PlainForest) (made : PlainName → List ℕ) (next : List ℕ → Outcome Items) → Extends store.now later → IfErr result (λ e. FailsSo e (given (option_map (text_of_name made) (node_in store.now (place_of_number later node.number))) next)) }
{
    if store.has(node) {
        Ok(store.name(node))
    } else {
        Err(Failure::Wrong)
    }
}

// A name as it is written, with its prefix.
fn lexical_name(alloc: Global, name: &Name) -> Result<Text, AllocError>
    ensures { IfOk result (λ text. text ≡ lexical_name name.now) }
{
    if name.prefix.is_empty() {
        return name.local.clone();
    }
    let mut written = TextBuilder::new(alloc);
    written.push_text(&name.prefix)?;
    written.push(':')?;
    written.push_text(&name.local)?;
    written.finish()
}

// The root of the tree of at most one node.
pub(crate) fn root(alloc: Global, store: &Store, items: &[Item]) -> Result<Answer, Failure>
    ensures value { (later : PlainForest) → Extends store.now later → IfOk result (λ r. roots_answered store.now (items_in later items.now) ≡ gives (answer_items later r) store.now) }
    ensures fits { IfOk result (λ r. AnswerFits r) }
    ensures failed { (later : PlainForest) → Extends store.now later → IfErr result (λ e. FailsSo e (roots_answered store.now (items_in later items.now))) }
{
    match items {
        [] => Ok(Answer::Nothing),
        _ => match only_node(items) {
            Some(node) => root_of(alloc, store, node),
            None => Err(Failure::Wrong),
        },
    }
}

fn root_of(alloc: Global, store: &Store, node: NodeId) -> Result<Answer, Failure>
    ensures value { (later : PlainForest) → Extends store.now later → IfOk result (λ r. roots_answered store.now (node_item (place_of_number later node.number) ∷ []) ≡ gives (answer_items later r) store.now) }
    ensures fits { IfOk result (λ r. AnswerFits r) }
    ensures failed { (later : PlainForest) → Extends store.now later → IfErr result (λ e. FailsSo e (roots_answered store.now (node_item (place_of_number later node.number) ∷ []))) }
{
    match store.root(node) {
        Some(root) => Ok(Answer::NodeSequence(vec![in alloc; root]?)),
        None => Err(Failure::Wrong),
    }
}
