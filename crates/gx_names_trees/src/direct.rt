// Direct constructors.

ghost use Rattle.std.specs.Prelude.{◌≡◌, [], ◌∷◌, ◌++◌, OnOk, IfOk, drop};
ghost use Rattle.gx_ast.specs.SyntaxTree.{direct};
ghost use Rattle.gx_ast.specs.SyntaxView.{attribute_parts_of, attributes_of, parts_of};
ghost use Rattle.gx_names_scope.specs.declared.tasks.Task.TheVariants as task;
ghost use Rattle.gx_names_scope.specs.Refused.{Judges, Proceeds};
ghost use Rattle.gx_names_scope.specs.Environment.{element_name};
ghost use Rattle.gx_names_trees.specs.Resolving.{adopted, attribute_left_refusals, innermost_tag, refusals_left, refusals_of_rest, refusals_with, trees_behind, trees_left, trees_of_rest, trees_with};
ghost use Rattle.gx_resolved.specs.ResolvedTree.{and_parts, resolved_at};
ghost use Rattle.gx_names_scope.specs.StartTags.{namespaces_refusals, with_namespaces, without_namespaces};
ghost use Rattle.gx_names_trees.specs.TreeRefusals.{attribute_names_with, attributes_refusals, direct_attribute_refusals, form_refusals, parts_refusals};
ghost use Rattle.gx_names_trees.specs.TreeResolution.{attribute_parts_resolved, attributes_resolved, blank_resolved, direct_attribute_resolved, direct_element_resolved, form_resolved, parts_resolved, text_resolved};
ghost use Rattle.gx_names_scope.specs.Refusing.{prefix_refusals};

use crate::opening::{leaf, open_one, open_two};
use crate::resolving::{AttributeNames, Resolving};
use gx_ast::expression::{AttributePart, DirectAttribute, Part};
use gx_ast::name::QName;
use gx_base::code::Code;
use gx_base::name::SharedName;
use gx_base::place::Place;
use gx_base::stack::Stack;
use gx_base::text::Text;
use gx_names_scope::names::Names;
use gx_names_scope::refusal::{NameRefusal, refused};
use gx_names_scope::start_tags::{check_namespaces, declare_namespaces, declares_namespace};
use gx_names_scope::tasks::Task;
use gx_resolved::nested_map::NestedMap;
use gx_resolved::tree::Construct;
use std::alloc::{AllocError, Global};

impl<'a, 's> Resolving<'a, 's> {
    // A direct element: the namespaces of its start tag, its name, its attributes, and its content.
    #[tactic(auto, using(gx_names_scope::proofs::StartTagLemmas::namespaces_gone, gx_names_scope::proofs::RefusalLemmas::refused_before))]
    pub(crate) fn open_direct(
        &mut self,
        alloc: Global,
        place: Place,
        name: &QName,
        attributes: &'a [DirectAttribute],
        content: &'a [Part],
    ) -> Result<(), NameRefusal>
        ensures refusals { Proceeds result (form_refusals self.old.names place (direct name.now (attributes_of attributes.now) (parts_of content.now)) ++ refusals_of_rest self.old) (refusals_of_rest self.new) }
        ensures trees { OnOk result (trees_of_rest self.new ≡ trees_behind (form_resolved self.old.names place (direct name.now (attributes_of attributes.now) (parts_of content.now))) self.old) }
    {
        match enter_tag(alloc, &mut self.names, name, attributes) {
            Ok(construct) => Ok(self.open_inside(alloc, place, construct, attributes, content)?),
            Err(refusal) => Err(refusal),
        }
    }

    // The attributes and the content of an element, in whose scope names are; it is left behind them.
    #[tactic(auto, using(crate::proofs::DirectLemmas::element_closed))]
    fn open_inside(
        &mut self,
        alloc: Global,
        place: Place,
        construct: Construct,
        attributes: &'a [DirectAttribute],
        content: &'a [Part],
    ) -> Result<(), AllocError>
        ensures refusals { OnOk result (refusals_of_rest self.new ≡ attributes_refusals self.old.names [] (attributes_of attributes.now) ++ (parts_refusals self.old.names (parts_of content.now) ++ refusals_left (without_namespaces (attributes_of attributes.now) self.old.names) self.old.tags self.old.tasks)) }
        ensures trees { OnOk result (trees_of_rest self.new ≡ trees_left (without_namespaces (attributes_of attributes.now) self.old.names) self.old.tasks (adopted (resolved_at place construct (and_parts (attributes_resolved self.old.names (attributes_of attributes.now)) (parts_resolved self.old.names place (parts_of content.now)))) self.old.unfinished)) }
    {
        self.tasks.push(Task::LeaveTag(attributes))?;
        let tasks = &mut self.tasks;
        let unfinished = &mut self.unfinished;
        let first = Task::Attributes(attributes);
        let second = Task::Parts(content, place);
        open_two(alloc, tasks, unfinished, place, construct, first, second)?;
        self.tags.push(NestedMap::new(alloc))
    }

    // The first attribute that is left of the innermost start tag, or none.
    pub(crate) fn open_attributes(
        &mut self,
        alloc: Global,
        attributes: &'a [DirectAttribute],
    ) -> Result<(), NameRefusal>
        ensures refusals { Proceeds result (refusals_with (task.Attributes attributes.entry) self.old) (refusals_of_rest self.new) }
        ensures trees { OnOk result (trees_of_rest self.new ≡ trees_with (task.Attributes attributes.entry) self.old) }
    {
        let Some((first, others)) = attributes.split_first() else {
            let _closed = self.tags.pop();
            return Ok(());
        };
        self.tasks.push(Task::Attributes(others))?;
        if declares_namespace(&first.name) {
            return Ok(());
        }
        self.open_direct_attribute(alloc, first)
    }

    // An attribute that declares no namespace.
    #[tactic(auto, using(crate::proofs::DirectLemmas::attribute_closed, gx_names_scope::proofs::RefusalLemmas::refused_before))]
    fn open_direct_attribute(
        &mut self,
        alloc: Global,
        attribute: &'a DirectAttribute,
    ) -> Result<(), NameRefusal>
        ensures refusals { Proceeds result (attribute_left_refusals attribute.now self.old) (refusals_of_rest self.new) }
        ensures trees { OnOk result (trees_of_rest self.new ≡ trees_behind (resolved_at attribute.now.name.place (direct_attribute_resolved self.old.names attribute.now.name) (attribute_parts_resolved self.old.names attribute.now.name.place (attribute_parts_of attribute.now.value.items))) self.old) }
    {
        match attribute_construct(alloc, &self.names, &mut self.tags, &attribute.name) {
            Ok(construct) => {
                let place = attribute.name.place;
                let tasks = &mut self.tasks;
                let inside = Task::AttributeParts(attribute.value.as_slice(), place);
                Ok(open_one(alloc, tasks, &mut self.unfinished, place, construct, inside)?)
            }
            Err(refusal) => Err(refusal),
        }
    }

    // The first part of the value of an attribute, or none.
    pub(crate) fn open_attribute_parts(
        &mut self,
        alloc: Global,
        value: &'a [AttributePart],
        place: Place,
    ) -> Result<(), AllocError>
        ensures refusals { OnOk result (refusals_of_rest self.new ≡ refusals_with (task.AttributeParts value.entry place) self.old) }
        ensures trees { OnOk result (trees_of_rest self.new ≡ trees_with (task.AttributeParts value.entry place) self.old) }
    {
        let Some((first, others)) = value.split_first() else {
            return Ok(());
        };
        self.tasks.push(Task::AttributeParts(others, place))?;
        match first {
            AttributePart::Text(text) => self.text(alloc, place, text),
            AttributePart::Enclosed(value) => self.tasks.push(Task::Tree(value)),
        }
    }

    // The first part of the content of an element, or none.
    pub(crate) fn open_parts(
        &mut self,
        alloc: Global,
        content: &'a [Part],
        place: Place,
    ) -> Result<(), AllocError>
        ensures refusals { OnOk result (refusals_of_rest self.new ≡ refusals_with (task.Parts content.entry place) self.old) }
        ensures trees { OnOk result (trees_of_rest self.new ≡ trees_with (task.Parts content.entry place) self.old) }
    {
        let Some((first, others)) = content.split_first() else {
            return Ok(());
        };
        self.tasks.push(Task::Parts(others, place))?;
        match first {
            Part::Blank(text) => self.blank(alloc, place, text),
            Part::Text(text) => self.text(alloc, place, text),
            Part::Element(tree) | Part::Enclosed(tree) => self.tasks.push(Task::Tree(tree)),
        }
    }

    pub(crate) fn text(
        &mut self,
        alloc: Global,
        place: Place,
        text: &Text,
    ) -> Result<(), AllocError>
        ensures refusals { OnOk result (refusals_of_rest self.new ≡ refusals_of_rest self.old) }
        ensures trees { OnOk result (trees_of_rest self.new ≡ trees_behind (text_resolved place text.now) self.old) }
    {
        let text = text.clone()?;
        leaf(alloc, &mut self.unfinished, place, Construct::String(text))
    }

    fn blank(&mut self, alloc: Global, place: Place, text: &Text) -> Result<(), AllocError>
        ensures refusals { OnOk result (refusals_of_rest self.new ≡ refusals_of_rest self.old) }
        ensures trees { OnOk result (trees_of_rest self.new ≡ trees_behind (blank_resolved place text.now) self.old) }
    {
        let text = text.clone()?;
        leaf(alloc, &mut self.unfinished, place, Construct::Blank(text))
    }
}

// The element of a start tag, with its namespaces bound from then on.
#[tactic(auto, using(gx_names_scope::proofs::RefusalLemmas::refused_before))]
fn enter_tag(
    alloc: Global,
    names: &mut Names<'_>,
    name: &QName,
    attributes: &[DirectAttribute],
) -> Result<Construct, NameRefusal>
    ensures refusals { Judges result (namespaces_refusals [] (attributes_of attributes.now) ++ prefix_refusals (element_name (with_namespaces (attributes_of attributes.now) names.old) name.now) name.now.place) }
    ensures construct { IfOk result (λ construct. construct ≡ direct_element_resolved names.new name.now) }
    ensures names { OnOk result (names.new ≡ with_namespaces (attributes_of attributes.now) names.old) }
{
    check_namespaces(alloc, attributes)?;
    declare_namespaces(alloc, names, attributes)?;
    match names.element_name(name)? {
        Some(name) => Ok(Construct::DirectElement(name)),
        None => Err(refused(name.place, Code::XPST0081)),
    }
}

// The name of an attribute, which the innermost start tag has from then on.
fn attribute_construct(
    alloc: Global,
    names: &Names<'_>,
    tags: &mut Stack<AttributeNames>,
    name: &QName,
) -> Result<Construct, NameRefusal>
    ensures refusals { Judges result (direct_attribute_refusals names.now (innermost_tag tags.old) name.now) }
    ensures construct { IfOk result (λ construct. construct ≡ direct_attribute_resolved names.now name.now) }
    ensures tags { OnOk result (tags.new ≡ attribute_names_with names.now name.now (innermost_tag tags.old) ∷ drop 1 tags.old) }
{
    let mut tag = match tags.pop() {
        Some(tag) => tag,
        None => NestedMap::new(alloc),
    };
    match direct_attribute(alloc, names, &mut tag, name) {
        Ok(construct) => {
            tags.push(tag)?;
            Ok(construct)
        }
        Err(refusal) => {
            drop(tag);
            Err(refusal)
        }
    }
}

// An attribute behind others, which is an earlier one from then on.
fn direct_attribute(
    alloc: Global,
    names: &Names<'_>,
    earlier: &mut AttributeNames,
    name: &QName,
) -> Result<Construct, NameRefusal>
    ensures refusals { Judges result (direct_attribute_refusals names.now earlier.old name.now) }
    ensures construct { IfOk result (λ construct. construct ≡ direct_attribute_resolved names.now name.now) }
    ensures earlier { OnOk result (earlier.new ≡ attribute_names_with names.now name.now earlier.old) }
{
    let place = name.place;
    let Some(name) = names.plain_name(name)? else {
        return Err(refused(place, Code::XPST0081));
    };
    let name = SharedName::new(alloc, name)?;
    if earlier.find(&name).is_some() {
        return Err(refused(place, Code::XQST0040));
    }
    earlier.bind(name.clone()?, place)?;
    Ok(Construct::DirectAttribute(name))
}
