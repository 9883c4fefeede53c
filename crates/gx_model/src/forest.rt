// Forests.

use gx_tree::tree::Tree;
use std::marker::Model;

/// Trees by their numbers, counted from 0.
#[derive(Drop)]
pub struct Forest {
    pub trees: Vec<Tree>,
}

impl Model for Forest {
    ghost use Rattle.gx_model.specs.Forest.{Forest as PlainForest};
    ghost use Rattle.gx_tree.specs.contracts.tree.Tree as rows;
    ghost use Rattle.std.specs.Coded.{coded_list};

    ghost Value = { PlainForest };

    ghost coded = { coded_list rows.the_row.coded };

    ghost view = { λ forest. forest.trees.items };
}
