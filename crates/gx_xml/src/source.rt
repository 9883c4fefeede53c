// Documents as they are written.

use gx_base::name::Name;
use gx_base::text::Text;
use std::marker::Model;

/// A namespace declaration (Namespaces in XML 1.0, section 3). The prefix is empty in a declaration of the default
/// namespace, and the URI where that is undone.
#[derive(Debug, Drop)]
pub struct Declaration {
    pub prefix: Text,
    pub uri: Text,
}

/// An attribute that is no declaration, with its normalised value (XML 1.0, section 3.3.3).
#[derive(Debug, Drop)]
pub struct SourceAttribute {
    pub name: Name,
    pub value: Text,
}

/// An element as it is written (XML 1.0, section 3), with its names expanded.
#[cycle(source)]
#[derive(Debug, Drop)]
pub struct SourceElement {
    pub name: Name,
    pub declarations: Vec<Declaration>,
    pub attributes: Vec<SourceAttribute>,
    pub children: Vec<SourceChild>,
}

/// What stands between the tags of an element. No text is empty, and no two are adjacent.
#[cycle(source)]
#[derive(Debug, Drop)]
pub enum SourceChild {
    Element(SourceElement),
    Text(Text),
}

/// A document as it is written.
#[derive(Debug, Drop)]
pub struct Source {
    pub root: SourceElement,
}

impl Model for SourceElement {
    ghost use Rattle.gx_xml.specs.SourceTree.{SourceTree, source, source_size};
    ghost use Rattle.gx_xml.specs.SourceCode.{source_code};
    ghost use Rattle.gx_base.specs.contracts.name.Name as names;
    ghost use Rattle.gx_xml.specs.contracts.source.Declaration as declared;
    ghost use Rattle.gx_xml.specs.contracts.source.SourceAttribute as listed;

    ghost Value = { SourceTree };

    ghost coded = { source_code names.the_row.coded declared.the_row.coded listed.the_row.coded };

    ghost use Rattle.gx_xml.specs.SourceView.{contents_of};

    ghost view = { λ e. source e.name e.declarations.items e.attributes.items (contents_of e.children.items) };

    ghost size = { source_size };

    ghost use Rattle.gx_xml.specs.SourceParts.{children_are_smaller};

    ghost size_decreases = { λ e h. children_are_smaller e };
}
