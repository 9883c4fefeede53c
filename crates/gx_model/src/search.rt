// Steps along an axis that look at all nodes of a tree.

ghost use Rattle.std.specs.Prelude.{◌≡◌, ◌&&◌, ◌++◌, [], ◌∷◌, map, IfOk, OnOk, Option, Some, None, option_copied};
ghost use Rattle.gx_tree.specs.PlainTree.{trees_of};
ghost use Rattle.gx_model.specs.Location.{location_of, node_of_tree};
ghost use Rattle.gx_model.specs.Axes.{leads_to, passes};
ghost use Rattle.gx_model.specs.Search.{sought_in, sought_among, sought_attributes};

use crate::lookup::{attributes, children};
use crate::node::{Node, keep};
use crate::node_test::{is_attribute_axis, passes_attribute, passes_test};
use crate::way::leads;
use gx_tree::attribute::Attribute;
use gx_tree::tree::Tree;
use gx_types::schemas::Schemas;
use gx_types::step::{Axis, Test};
use std::alloc::{AllocError, Global};

// The nodes on an axis, by a look at each node of the tree.
pub(crate) fn search(
    alloc: Global,
    schemas: &Schemas,
    root: &Tree,
    from: &Node,
    axis: Axis,
    test: &Test,
) -> Result<Vec<Node>, AllocError>
    ensures { IfOk result (λ found. found.items ≡ map (node_of_tree from.now.tree) (sought_in (leads_to axis (location_of from.now)) (passes schemas.now axis test.now) [] root.now)) }
{
    let mut found = Vec::new(alloc);
    let mut path = Vec::new(alloc);
    search_tree(
        alloc, schemas, root, from, axis, test, &mut path, &mut found,
    )?;
    Ok(found)
}

#[cycle(search)]
fn search_tree(
    alloc: Global,
    schemas: &Schemas,
    tree: &Tree,
    from: &Node,
    axis: Axis,
    test: &Test,
    path: &mut Vec<usize>,
    found: &mut Vec<Node>,
) -> Result<(), AllocError>
    ensures back { OnOk result (path.new.items ≡ path.old.items) }
    ensures sought { OnOk result (found.new.items ≡ found.old.items ++ map (node_of_tree from.now.tree) (sought_in (leads_to axis (location_of from.now)) (passes schemas.now axis test.now) path.old.items tree.now)) }
{
    let sought = is_sought(schemas, tree, from, axis, test, path);
    keep(alloc, sought, from.tree, path, None, found)?;
    let list = attributes(tree);
    search_attributes(alloc, schemas, list, from, axis, test, path, found)?;
    let trees = children(tree);
    search_children(alloc, schemas, trees, from, axis, test, path, found)?;
    Ok(())
}

fn is_sought(
    schemas: &Schemas,
    tree: &Tree,
    from: &Node,
    axis: Axis,
    test: &Test,
    path: &[usize],
) -> bool
    ensures { result ≡ (leads_to axis (location_of from.now) (record { path = path.now; attribute = None }) && passes schemas.now axis test.now tree.now) }
{
    leads(axis, from, path, None) && passes_test(schemas, is_attribute_axis(axis), test, tree)
}

#[cycle(search)]
fn search_children(
    alloc: Global,
    schemas: &Schemas,
    trees: &[Tree],
    from: &Node,
    axis: Axis,
    test: &Test,
    path: &mut Vec<usize>,
    found: &mut Vec<Node>,
) -> Result<(), AllocError>
    ensures back { OnOk result (path.new.items ≡ path.old.items) }
    ensures sought { OnOk result (found.new.items ≡ found.old.items ++ map (node_of_tree from.now.tree) (sought_among (leads_to axis (location_of from.now)) (passes schemas.now axis test.now) path.old.items 0 (trees_of trees.now))) }
{
    for (position, tree) in trees.iter().enumerate() {
        path.push(position)?;
        search_tree(alloc, schemas, tree, from, axis, test, path, found)?;
        path.pop();
    }
    Ok(())
}

fn search_attributes(
    alloc: Global,
    schemas: &Schemas,
    list: &[Attribute],
    from: &Node,
    axis: Axis,
    test: &Test,
    path: &[usize],
    found: &mut Vec<Node>,
) -> Result<(), AllocError>
    ensures { OnOk result (found.new.items ≡ found.old.items ++ map (node_of_tree from.now.tree) (sought_attributes (leads_to axis (location_of from.now)) (passes schemas.now axis test.now) path.now 0 list.now)) }
{
    for (position, attribute) in list.iter().enumerate() {
        search_attribute(
            alloc, schemas, attribute, position, from, axis, test, path, found,
        )?;
    }
    Ok(())
}

fn search_attribute(
    alloc: Global,
    schemas: &Schemas,
    attribute: &Attribute,
    position: usize,
    from: &Node,
    axis: Axis,
    test: &Test,
    path: &[usize],
    found: &mut Vec<Node>,
) -> Result<(), AllocError>
    ensures { OnOk result (found.new.items ≡ found.old.items ++ map (node_of_tree from.now.tree) (sought_attributes (leads_to axis (location_of from.now)) (passes schemas.now axis test.now) path.now position (attribute.now ∷ []))) }
{
    let passes = leads(axis, from, path, Some(position))
        && passes_attribute(
            schemas,
            is_attribute_axis(axis),
            test,
            &attribute.name,
            &attribute.kind,
        );
    keep(alloc, passes, from.tree, path, Some(position), found)
}
