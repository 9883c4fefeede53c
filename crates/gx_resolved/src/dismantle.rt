// Trees taken apart by a loop, so that dropping one takes no stack in proportion to its depth.

use crate::tree::ResolvedExpr;
use std::alloc::Global;

/// Drops a tree part by part. What finds no memory is dropped as it is.
pub fn dismantle(alloc: Global, tree: ResolvedExpr) {
    let mut parts = Vec::new(alloc);
    set_aside(tree, &mut parts);
    for _ in 0..u64::MAX {
        match parts.pop() {
            Some(part) => set_aside(part, &mut parts),
            None => return,
        }
    }
}

fn set_aside(tree: ResolvedExpr, aside: &mut Vec<ResolvedExpr>) {
    for part in tree.into_parts() {
        let _kept = aside.push(part);
    }
}
