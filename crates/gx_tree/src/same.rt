// Equality of trees.
ghost use Rattle.std.specs.Prelude.{◌≡◌, ◌↔◌, IsTrue};
ghost use Rattle.gx_tree.specs.PlainTree.{trees_of};

use crate::attribute::Attribute;
use crate::tree::{Tree, TreeNode};
use gx_base::name::Name;
use gx_base::text::Text;
use gx_base::type_name::TypeName;

/// Whether two trees are equal in all parts, with the prefixes of names and the annotations.
#[cycle(same)]
pub fn same(a: &Tree, b: &Tree) -> bool
    ensures { IsTrue result ↔ (a.now ≡ b.now) }
{
    match (&a.node, &b.node) {
        (TreeNode::Document(ts), TreeNode::Document(us)) => same_all(ts, us),
        (
            TreeNode::Element {
                name: n,
                kind: k,
                attributes: l,
                children: ts,
            },
            TreeNode::Element {
                name: m,
                kind: j,
                attributes: r,
                children: us,
            },
        ) => same_start(n, k, l, m, j, r) && same_all(ts, us),
        (TreeNode::Attribute(a), TreeNode::Attribute(b)) => same_attribute(a, b),
        (TreeNode::Text(t), TreeNode::Text(u)) => same_text(t, u),
        _ => false,
    }
}

#[cycle(same)]
#[tactic(auto, using(crate::proofs::TreesLemmas::same_from_trees))]
fn same_all(ts: &Vec<Tree>, us: &Vec<Tree>) -> bool
    ensures { IsTrue result ↔ (trees_of ts.now.items ≡ trees_of us.now.items) }
{
    if ts.len() != us.len() {
        return false;
    }
    for i in 0..ts.len() {
        if !same(&ts[i], &us[i]) {
            return false;
        }
    }
    true
}

fn same_start(
    n: &Name,
    k: &TypeName,
    l: &Vec<Attribute>,
    m: &Name,
    j: &TypeName,
    r: &Vec<Attribute>,
) -> bool
    ensures { IsTrue result ↔ ((n.now ≡ m.now) × (k.now ≡ j.now) × (l.now.items ≡ r.now.items)) }
{
    same_name(n, m) && same_type(k, j) && same_attributes(l, r)
}

fn same_attributes(l: &Vec<Attribute>, r: &Vec<Attribute>) -> bool
    ensures { IsTrue result ↔ (l.now.items ≡ r.now.items) }
{
    if l.len() != r.len() {
        return false;
    }
    for i in 0..l.len() {
        if !same_attribute(&l[i], &r[i]) {
            return false;
        }
    }
    true
}

fn same_attribute(a: &Attribute, b: &Attribute) -> bool
    ensures { IsTrue result ↔ (a.now ≡ b.now) }
{
    same_name(&a.name, &b.name) && same_type(&a.kind, &b.kind) && same_text(&a.value, &b.value)
}

fn same_name(a: &Name, b: &Name) -> bool
    ensures { IsTrue result ↔ (a.now ≡ b.now) }
{
    same_text(&a.uri, &b.uri) && same_text(&a.prefix, &b.prefix) && same_text(&a.local, &b.local)
}

fn same_type(a: &TypeName, b: &TypeName) -> bool
    ensures { IsTrue result ↔ (a.now ≡ b.now) }
{
    match (a, b) {
        (TypeName::Builtin(x), TypeName::Builtin(y)) => x == y,
        (TypeName::Named(x), TypeName::Named(y)) => same_name(x.name(), y.name()),
        (TypeName::Anonymous(x), TypeName::Anonymous(y)) => x == y,
        _ => false,
    }
}

fn same_text(a: &Text, b: &Text) -> bool
    ensures { IsTrue result ↔ (a.now ≡ b.now) }
{
    a == b
}
