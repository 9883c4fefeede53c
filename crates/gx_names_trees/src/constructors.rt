// Computed constructors.

ghost use Rattle.std.specs.Prelude.{◌≡◌, ◌++◌, OnOk, IfOk};
ghost use Rattle.gx_ast.specs.SyntaxTree.{attribute_node, element_node, empty_attribute, empty_element};
ghost use Rattle.gx_names_scope.specs.Refused.{Judges, Proceeds};
ghost use Rattle.gx_names_scope.specs.Environment.{element_name};
ghost use Rattle.gx_names_trees.specs.Resolving.{refusals_of_rest, trees_behind, trees_of_rest};
ghost use Rattle.gx_names_trees.specs.TreeRefusals.{attribute_refusals, form_refusals};
ghost use Rattle.gx_names_trees.specs.TreeResolution.{attribute_resolved, element_resolved, form_resolved};
ghost use Rattle.gx_names_scope.specs.Refusing.{prefix_refusals};

use crate::opening::{leaf, open_one};
use crate::resolving::Resolving;
use gx_ast::expression::Expr;
use gx_ast::name::QName;
use gx_base::code::Code;
use gx_base::place::Place;
use gx_names_scope::names::Names;
use gx_names_scope::refusal::{NameRefusal, refused};
use gx_names_scope::start_tags::is_xmlns;
use gx_names_scope::tasks::Task;
use gx_resolved::tree::Construct;
use std::alloc::Global;

impl<'a, 's> Resolving<'a, 's> {
    // `element q { .. }`.
    #[tactic(auto, using(gx_names_scope::proofs::RefusalLemmas::refused_before))]
    pub(crate) fn open_element(
        &mut self,
        alloc: Global,
        place: Place,
        name: &QName,
        content: &'a Expr,
    ) -> Result<(), NameRefusal>
        ensures refusals { Proceeds result (form_refusals self.old.names place (element_node name.now content.now) ++ refusals_of_rest self.old) (refusals_of_rest self.new) }
        ensures trees { OnOk result (trees_of_rest self.new ≡ trees_behind (form_resolved self.old.names place (element_node name.now content.now)) self.old) }
    {
        let construct = element_construct(&self.names, name)?;
        let tasks = &mut self.tasks;
        let inside = Task::Tree(content);
        Ok(open_one(alloc, tasks, &mut self.unfinished, place, construct, inside)?)
    }

    // `element q {}`.
    #[tactic(auto, using(gx_names_scope::proofs::RefusalLemmas::refused_before))]
    pub(crate) fn empty_element(
        &mut self,
        alloc: Global,
        place: Place,
        name: &QName,
    ) -> Result<(), NameRefusal>
        ensures refusals { Proceeds result (form_refusals self.old.names place (empty_element name.now) ++ refusals_of_rest self.old) (refusals_of_rest self.new) }
        ensures trees { OnOk result (trees_of_rest self.new ≡ trees_behind (form_resolved self.old.names place (empty_element name.now)) self.old) }
    {
        let construct = element_construct(&self.names, name)?;
        Ok(leaf(alloc, &mut self.unfinished, place, construct)?)
    }

    // `attribute q { .. }`.
    #[tactic(auto, using(gx_names_scope::proofs::RefusalLemmas::refused_before))]
    pub(crate) fn open_attribute(
        &mut self,
        alloc: Global,
        place: Place,
        name: &QName,
        content: &'a Expr,
    ) -> Result<(), NameRefusal>
        ensures refusals { Proceeds result (form_refusals self.old.names place (attribute_node name.now content.now) ++ refusals_of_rest self.old) (refusals_of_rest self.new) }
        ensures trees { OnOk result (trees_of_rest self.new ≡ trees_behind (form_resolved self.old.names place (attribute_node name.now content.now)) self.old) }
    {
        let construct = attribute_construct(&self.names, place, name)?;
        let tasks = &mut self.tasks;
        let inside = Task::Tree(content);
        Ok(open_one(alloc, tasks, &mut self.unfinished, place, construct, inside)?)
    }

    // `attribute q {}`.
    #[tactic(auto, using(gx_names_scope::proofs::RefusalLemmas::refused_before))]
    pub(crate) fn empty_attribute(
        &mut self,
        alloc: Global,
        place: Place,
        name: &QName,
    ) -> Result<(), NameRefusal>
        ensures refusals { Proceeds result (form_refusals self.old.names place (empty_attribute name.now) ++ refusals_of_rest self.old) (refusals_of_rest self.new) }
        ensures trees { OnOk result (trees_of_rest self.new ≡ trees_behind (form_resolved self.old.names place (empty_attribute name.now)) self.old) }
    {
        let construct = attribute_construct(&self.names, place, name)?;
        Ok(leaf(alloc, &mut self.unfinished, place, construct)?)
    }
}

// An element with this name.
fn element_construct(names: &Names<'_>, name: &QName) -> Result<Construct, NameRefusal>
    ensures refusals { Judges result (prefix_refusals (element_name names.now name.now) name.now.place) }
    ensures construct { IfOk result (λ construct. construct ≡ element_resolved names.now name.now) }
{
    match names.element_name(name)? {
        Some(name) => Ok(Construct::Element(name)),
        None => Err(refused(name.place, Code::XPST0081)),
    }
}

// An attribute with this name, in a constructor at this place.
fn attribute_construct(
    names: &Names<'_>,
    place: Place,
    name: &QName,
) -> Result<Construct, NameRefusal>
    ensures refusals { Judges result (attribute_refusals names.now place name.now) }
    ensures construct { IfOk result (λ construct. construct ≡ attribute_resolved names.now name.now) }
{
    if is_xmlns(name) {
        return Err(refused(place, Code::XQDY0044));
    }
    match names.plain_name(name)? {
        Some(name) => Ok(Construct::Attribute(name)),
        None => Err(refused(name.place, Code::XPST0081)),
    }
}
