// Ways from one place of a tree to another.

ghost use Rattle.std.specs.Prelude.{◌≡◌, option_copied, Option, Some, None};
ghost use Rattle.gx_model.specs.Location.{location_of};
ghost use Rattle.gx_model.specs.Axes.{leads_to, same_position, way_down, no_step as takes_none, one_step as takes_one, is_itself as itself, is_descendant as descendant, is_ancestor as ancestor};

use crate::node::Node;
use gx_types::step::Axis;

// Whether an axis leads from a node to a place in its tree.
pub(crate) fn leads(axis: Axis, from: &Node, path: &[usize], attribute: Option<usize>) -> bool
    ensures { result ≡ leads_to axis (location_of from.now) (record { path = path.now; attribute = attribute }) }
{
    match axis {
        Axis::Child => is_child(from, path, attribute),
        Axis::Descendant => is_descendant(from, path, attribute),
        Axis::DescendantOrSelf => {
            is_itself(from, path, attribute) || is_descendant(from, path, attribute)
        }
        Axis::SelfAxis => is_itself(from, path, attribute),
        Axis::Attribute => is_attribute(from, path, attribute),
        Axis::Parent => is_parent(from, path, attribute),
        Axis::Ancestor => is_ancestor(from, path, attribute),
        Axis::AncestorOrSelf => {
            is_itself(from, path, attribute) || is_ancestor(from, path, attribute)
        }
    }
}

fn is_child(from: &Node, path: &[usize], attribute: Option<usize>) -> bool
    ensures { result ≡ leads_to Axis.Child (location_of from.now) (record { path = path.now; attribute = attribute }) }
{
    from.attribute.is_none()
        && match way_between(from.path.as_slice(), path) {
            Some(way) => one_step(way) && attribute.is_none(),
            None => false,
        }
}

fn is_descendant(from: &Node, path: &[usize], attribute: Option<usize>) -> bool
    ensures { result ≡ descendant (location_of from.now) (record { path = path.now; attribute = attribute }) }
{
    from.attribute.is_none()
        && match way_between(from.path.as_slice(), path) {
            Some(way) => !no_step(way) && attribute.is_none(),
            None => false,
        }
}

fn is_itself(from: &Node, path: &[usize], attribute: Option<usize>) -> bool
    ensures { result ≡ itself (location_of from.now) (record { path = path.now; attribute = attribute }) }
{
    match way_between(from.path.as_slice(), path) {
        Some(way) => no_step(way) && same_place(from.attribute, attribute),
        None => false,
    }
}

fn is_attribute(from: &Node, path: &[usize], attribute: Option<usize>) -> bool
    ensures { result ≡ leads_to Axis.Attribute (location_of from.now) (record { path = path.now; attribute = attribute }) }
{
    from.attribute.is_none()
        && match way_between(from.path.as_slice(), path) {
            Some(way) => no_step(way) && attribute.is_some(),
            None => false,
        }
}

fn is_parent(from: &Node, path: &[usize], attribute: Option<usize>) -> bool
    ensures { result ≡ leads_to Axis.Parent (location_of from.now) (record { path = path.now; attribute = attribute }) }
{
    attribute.is_none()
        && match way_between(path, from.path.as_slice()) {
            Some(way) if from.attribute.is_some() => no_step(way),
            Some(way) => one_step(way),
            None => false,
        }
}

fn is_ancestor(from: &Node, path: &[usize], attribute: Option<usize>) -> bool
    ensures { result ≡ ancestor (location_of from.now) (record { path = path.now; attribute = attribute }) }
{
    attribute.is_none()
        && match way_between(path, from.path.as_slice()) {
            Some(way) => from.attribute.is_some() || !no_step(way),
            None => false,
        }
}

// The positions that lead down from one path to another.
fn way_between<'a>(from: &[usize], to: &'a [usize]) -> Option<&'a [usize]>
    ensures { option_copied result ≡ way_down from.now to.now }
{
    let mut from = from;
    let mut to = to;
    while let Some((m, from_rest)) = from.split_first() {
        let Some((n, to_rest)) = to.split_first() else {
            return None;
        };
        if m != n {
            return None;
        }
        from = from_rest;
        to = to_rest;
    }
    Some(to)
}

#[tactic(auto, using(crate::proofs::AxisLemmas::no_step_is))]
fn no_step(way: &[usize]) -> bool
    ensures { result ≡ takes_none way.now }
{
    way.is_empty()
}

#[tactic(auto, using(crate::proofs::AxisLemmas::one_step_is))]
fn one_step(way: &[usize]) -> bool
    ensures { result ≡ takes_one way.now }
{
    way.len() == 1
}

// Whether both are one attribute, or neither is an attribute.
fn same_place(a: Option<usize>, b: Option<usize>) -> bool
    ensures { result ≡ same_position a b }
{
    match (a, b) {
        (None, None) => true,
        (Some(m), Some(n)) => m == n,
        _ => false,
    }
}
