// The types of steps.

ghost use Rattle.std.specs.Prelude.{◌≡◌, IfOk, MatchResult};
ghost use Rattle.gx_types.specs.TypeRules.{joined_types, factored};
ghost use Rattle.gx_include.specs.Decision.{is_included as included_in};
ghost use Rattle.gx_model.specs.Axes.{is_attribute_axis};
ghost use Rattle.gx_steptype.specs.AskedView.{kind_asked};
ghost use Rattle.gx_steptype.specs.Replaced.{replaced_items};
ghost use Rattle.gx_steptype.specs.TestedType.{tested_item as item_tested};
ghost use Rattle.gx_steptype.specs.StepType.{step_type, child_type as type_of_children, parent_type as type_of_parent, descendant_type as type_of_descendants, ancestor_type as type_of_ancestors, node_type as type_of_node, any_item};
ghost use Rattle.gx_steptype.specs.KeptSteps.{IsTableOf, tested_children};
ghost use Rattle.gx_steptype.specs.StepAnswer.{HasStepType, RefusesStep};

use crate::asked::{Asked, asked_by};
use crate::attributes::attribute_type;
use crate::children::{
    any_document, any_element, child_content, child_type, parent_type, text_type,
};
use crate::derived_types::DerivedTypes;
use crate::error::StepError;
use crate::nodes::is_choice_of_nodes;
use crate::relatives::{ancestor_type, descendant_type};
use crate::replace::{Replacement, replace};
use crate::tested::{Tested, tested_type};
use gx_base::type_name::{Builtin, TypeName};
use gx_include::decision::is_included;
use gx_types::item_type::ItemType;
use gx_types::schemas::Schemas;
use gx_types::sequence_type::Ty;
use gx_types::step::{Axis, Test};
use gx_types::type_rules::{choose, factor, join, limit};
use indexmap::IndexMap;
use std::alloc::{AllocError, Global};

/// The type of the nodes that a step along an axis gives from one node (XQuery 1.0 and XPath 2.0 Formal Semantics, section 8.2).
/// `NotANode` comes exactly where the context is not included in `node()`.
pub fn axis_type(
    alloc: Global,
    schemas: &Schemas,
    axis: Axis,
    test: &Test,
    context: &Ty,
) -> Result<Ty, StepError>
    ensures { MatchResult result (HasStepType schemas.now axis test.now context.now) (RefusesStep schemas.now context.now) }
{
    if !is_one_node(alloc, schemas, context)? {
        return Err(StepError::NotANode);
    }
    Ok(step_from(alloc, schemas, axis, test, context)?)
}

// Whether a type is that of one node. A choice of item types of nodes is known to be, without a test of inclusion.
fn is_one_node(alloc: Global, schemas: &Schemas, context: &Ty) -> Result<bool, AllocError>
    ensures { IfOk result (λ answer. answer ≡ included_in schemas.now context.now type_of_node) }
{
    if is_choice_of_nodes(schemas, context) {
        return Ok(true);
    }
    let node = node_type(alloc)?;
    is_included(alloc, schemas, context, &node)
}

// The type of a step from one node.
fn step_from(
    alloc: Global,
    schemas: &Schemas,
    axis: Axis,
    test: &Test,
    context: &Ty,
) -> Result<Ty, AllocError>
    ensures { IfOk result (λ t. t ≡ step_type schemas.now axis test.now context.now) }
{
    let asked = asked_by(schemas, is_of_attributes(axis), test);
    let derived = DerivedTypes::new(alloc, schemas)?;
    let mut step = Step {
        derived,
        axis,
        asked,
        known: IndexMap::new(alloc),
    };
    let replaced = replace(alloc, &mut step, context);
    drop(step);
    limit(alloc, replaced?)
}

// Whether an axis is that of attributes.
fn is_of_attributes(axis: Axis) -> bool
    ensures { result ≡ is_attribute_axis axis }
{
    matches!(axis, Axis::Attribute)
}

// A step in the place of each item type, with what it gives from the elements of types that were met before.
#[derive(Drop)]
struct Step<'a> {
    pub derived: DerivedTypes<'a>,
    pub axis: Axis,
    pub asked: Asked<'a>,
    pub known: IndexMap<TypeName, Ty>,
}

impl Replacement for Step<'_> {
    ghost use Rattle.gx_steptype.specs.AskedView.{kind_asked};
    ghost use Rattle.gx_steptype.specs.StepType.{item_step};
    ghost use Rattle.gx_steptype.specs.KeptSteps.{IsTableOf, element_step};

    ghost gives = { λ s kind. item_step s.derived s.axis (kind_asked s.asked) kind };

    ghost fits = { λ s. IsTableOf (element_step s.derived s.axis (kind_asked s.asked)) s.known };

    fn replace(&mut self, alloc: Global, item: &ItemType) -> Result<Ty, AllocError> {
        let schemas = self.derived.schemas();
        match self.axis {
            Axis::Child => children_tested(
                alloc,
                &mut self.derived,
                self.asked,
                &mut self.known,
                item,
            ),
            Axis::Attribute => attribute_type(
                alloc,
                &mut self.derived,
                self.asked,
                &mut self.known,
                item,
            ),
            Axis::SelfAxis => tested_type(alloc, schemas, self.asked, item),
            Axis::Parent => parents_tested(alloc, schemas, self.asked, item),
            Axis::Descendant => descendant_type(alloc, schemas, self.asked, item),
            Axis::DescendantOrSelf => descendant_or_self_type(alloc, schemas, self.asked, item),
            Axis::Ancestor => ancestor_type(alloc, schemas, self.asked, item),
            Axis::AncestorOrSelf => ancestor_or_self_type(alloc, schemas, self.asked, item),
        }
    }
}

// What a test leaves of the children of a node of an item type.
fn children_tested(
    alloc: Global,
    derived: &mut DerivedTypes<'_>,
    asked: Asked<'_>,
    known: &mut IndexMap<TypeName, Ty>,
    item: &ItemType,
) -> Result<Ty, AllocError>
    requires { IsTableOf (tested_children derived.old (kind_asked asked)) known.old }
    ensures same { derived.new ≡ derived.old }
    ensures kept { IsTableOf (tested_children derived.old (kind_asked asked.entry)) known.new }
    ensures tested { IfOk result (λ t. t ≡ replaced_items (item_tested derived.old (kind_asked asked.entry)) (type_of_children derived.old item.now)) }
{
    match item {
        ItemType::Element { name: _, kind } => {
            element_children_tested(alloc, derived, asked, known, kind)
        }
        _ => {
            let children = child_type(alloc, derived, item)?;
            only_tested(alloc, derived.schemas(), asked, &children)
        }
    }
}

// What a test leaves of the children of the elements of a type, found once for each type.
fn element_children_tested(
    alloc: Global,
    derived: &mut DerivedTypes<'_>,
    asked: Asked<'_>,
    known: &mut IndexMap<TypeName, Ty>,
    kind: &TypeName,
) -> Result<Ty, AllocError>
    requires { IsTableOf (tested_children derived.old (kind_asked asked)) known.old }
    ensures same { derived.new ≡ derived.old }
    ensures kept { IsTableOf (tested_children derived.old (kind_asked asked.entry)) known.new }
    ensures tested { IfOk result (λ t. t ≡ tested_children derived.old (kind_asked asked.entry) kind.now) }
{
    let _types = derived.schemas().types();
    if let Some(t) = known.get(kind) {
        return t.clone();
    }
    let content = child_content(alloc, derived, kind)?;
    let t = only_tested(alloc, derived.schemas(), asked, &content)?;
    known.insert(kind.clone()?, t.clone()?)?;
    Ok(t)
}

// What a test leaves of the item types of a type.
fn only_tested(alloc: Global, schemas: &Schemas, asked: Asked<'_>, t: &Ty) -> Result<Ty, AllocError>
    ensures { IfOk result (λ u. u ≡ replaced_items (item_tested schemas.now (kind_asked asked.entry)) t.now) }
{
    replace(alloc, &mut Tested { schemas, asked }, t)
}

// What a test leaves of the parent of a node of an item type.
fn parents_tested(
    alloc: Global,
    schemas: &Schemas,
    asked: Asked<'_>,
    item: &ItemType,
) -> Result<Ty, AllocError>
    ensures { IfOk result (λ t. t ≡ replaced_items (item_tested schemas.now (kind_asked asked.entry)) (type_of_parent item.now)) }
{
    let parent = parent_type(alloc, item)?;
    only_tested(alloc, schemas, asked, &parent)
}

// What a test leaves of a node of an item type and of its descendants.
fn descendant_or_self_type(
    alloc: Global,
    schemas: &Schemas,
    asked: Asked<'_>,
    item: &ItemType,
) -> Result<Ty, AllocError>
    ensures { IfOk result (λ t. t ≡ joined_types (item_tested schemas.now (kind_asked asked.entry) item.now) (type_of_descendants schemas.now (kind_asked asked.entry) item.now)) }
{
    let itself = tested_type(alloc, schemas, asked, item)?;
    let rest = descendant_type(alloc, schemas, asked, item)?;
    join(alloc, &itself, &rest)
}

// What a test leaves of a node of an item type and of its ancestors.
fn ancestor_or_self_type(
    alloc: Global,
    schemas: &Schemas,
    asked: Asked<'_>,
    item: &ItemType,
) -> Result<Ty, AllocError>
    ensures { IfOk result (λ t. t ≡ factored (joined_types (item_tested schemas.now (kind_asked asked.entry) item.now) (type_of_ancestors schemas.now (kind_asked asked.entry) item.now))) }
{
    let itself = tested_type(alloc, schemas, asked, item)?;
    let rest = ancestor_type(alloc, schemas, asked, item)?;
    factor(alloc, &join(alloc, &itself, &rest)?)
}

/// `node()`, the type of one node (XQuery 1.0, section 2.5.4).
pub fn node_type(alloc: Global) -> Result<Ty, AllocError>
    ensures { IfOk result (λ t. t ≡ type_of_node) }
{
    let attribute = ItemType::Attribute {
        name: None,
        kind: TypeName::Builtin(Builtin::AnySimple),
    };
    let attribute = Ty::of_item(alloc, attribute)?;
    let members = [
        any_document(alloc)?,
        any_element(alloc)?,
        attribute,
        text_type(alloc)?,
    ];
    choose(alloc, &members)
}

/// `item()`, the type of one item (XQuery 1.0, section 2.5.4).
pub fn item_type(alloc: Global) -> Result<Ty, AllocError>
    ensures { IfOk result (λ t. t ≡ any_item) }
{
    let nodes = node_type(alloc)?;
    let atoms = Ty::of_item(alloc, ItemType::Atom(TypeName::Builtin(Builtin::AnyAtomic)))?;
    choose(alloc, &[nodes, atoms])
}
