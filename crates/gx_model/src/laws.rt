// Laws of forests, axes, document order and typed values.

ghost use Rattle.gx_model.specs.Growth.{GrowthIsAnOrder, ValuesStay};
ghost use Rattle.gx_model.specs.OrderLaws.{DocumentOrderIsTotal, NodesAscend, OrderedNodesAscend};
ghost use Rattle.gx_model.specs.PathLaws.{ChildrenBelowAreDescendants};

/// A forest extends itself, and what extends an extension extends the first.
pub fn growth_is_an_order()
    ensures { GrowthIsAnOrder }
{}

/// A value that belongs to a type in a forest belongs to it in each forest that extends this one.
pub fn values_stay()
    ensures { ValuesStay }
{}

/// Document order is a strict total order.
pub fn document_order_is_total()
    ensures { DocumentOrderIsTotal }
{}

/// The nodes of a forest are listed in document order, and so are nodes that are put in document order.
pub fn nodes_ascend()
    ensures listed { NodesAscend }
    ensures ordered { OrderedNodesAscend }
{}

/// The children of nodes and of all their descendants are the descendants of the nodes (XQuery 1.0, section 3.2).
pub fn children_below_are_descendants()
    ensures { ChildrenBelowAreDescendants }
{}
