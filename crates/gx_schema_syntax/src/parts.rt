// The parts of elements of schema documents: which there are, where they may stand, and which must be there.

ghost use Rattle.std.specs.Prelude.{◌≡◌, map};
ghost use Rattle.gx_schema_syntax.specs.Parts.{fits, needs_part, parts_of, role_in, seen_after, slot_among, slot_of};
ghost use Rattle.gx_schema_syntax.specs.PartView.{part_row};

use crate::role::{Compositor, FacetKind, Role};

/// How often a part may stand, and before which others.
#[derive(Clone, Copy, PartialEq, Eq)]
pub enum Slot {
    /// The one part.
    Alone(Role),
    /// Once, before all others.
    Leading(Role),
    /// Any number of times, before those that are `Repeated`.
    Early(Role),
    /// Any number of times.
    Repeated(Role),
}

/// What was seen of the parts of an element so far.
#[derive(Clone, Copy, PartialEq, Eq)]
pub enum Seen {
    Nothing,
    EarlyParts,
    Others,
    TheOnePart,
}

/// A row of the table of parts: a local name in the namespace of schemas, and its slot.
#[derive(Clone, Copy)]
struct PartRow {
    name: &'static str,
    slot: Slot,
}

const SCHEMA_PARTS: [PartRow; 6] = [
    PartRow {
        name: "element",
        slot: Slot::Repeated(Role::GlobalElement),
    },
    PartRow {
        name: "complexType",
        slot: Slot::Repeated(Role::GlobalComplexType),
    },
    PartRow {
        name: "simpleType",
        slot: Slot::Repeated(Role::GlobalSimpleType),
    },
    PartRow {
        name: "group",
        slot: Slot::Repeated(Role::GlobalGroup),
    },
    PartRow {
        name: "attribute",
        slot: Slot::Repeated(Role::GlobalAttribute),
    },
    PartRow {
        name: "attributeGroup",
        slot: Slot::Repeated(Role::GlobalAttributeGroup),
    },
];

const ELEMENT_PARTS: [PartRow; 2] = [
    PartRow {
        name: "complexType",
        slot: Slot::Alone(Role::AnonymousComplexType),
    },
    PartRow {
        name: "simpleType",
        slot: Slot::Alone(Role::AnonymousSimpleType),
    },
];

const ATTRIBUTE_PARTS: [PartRow; 1] = [PartRow {
    name: "simpleType",
    slot: Slot::Alone(Role::AnonymousSimpleType),
}];

const GROUP_PARTS: [PartRow; 2] = [
    PartRow {
        name: "sequence",
        slot: Slot::Alone(Role::ModelGroup(Compositor::Sequence)),
    },
    PartRow {
        name: "choice",
        slot: Slot::Alone(Role::ModelGroup(Compositor::Choice)),
    },
];

const MODEL_GROUP_PARTS: [PartRow; 4] = [
    PartRow {
        name: "element",
        slot: Slot::Repeated(Role::LocalElement),
    },
    PartRow {
        name: "group",
        slot: Slot::Repeated(Role::GroupReference),
    },
    PartRow {
        name: "sequence",
        slot: Slot::Repeated(Role::ModelGroup(Compositor::Sequence)),
    },
    PartRow {
        name: "choice",
        slot: Slot::Repeated(Role::ModelGroup(Compositor::Choice)),
    },
];

const COMPLEX_TYPE_PARTS: [PartRow; 7] = [
    PartRow {
        name: "simpleContent",
        slot: Slot::Alone(Role::SimpleContent),
    },
    PartRow {
        name: "complexContent",
        slot: Slot::Alone(Role::ComplexContent),
    },
    PartRow {
        name: "sequence",
        slot: Slot::Leading(Role::ModelGroup(Compositor::Sequence)),
    },
    PartRow {
        name: "choice",
        slot: Slot::Leading(Role::ModelGroup(Compositor::Choice)),
    },
    PartRow {
        name: "group",
        slot: Slot::Leading(Role::GroupReference),
    },
    PartRow {
        name: "attribute",
        slot: Slot::Repeated(Role::LocalAttribute),
    },
    PartRow {
        name: "attributeGroup",
        slot: Slot::Repeated(Role::AttributeGroupReference),
    },
];

const SIMPLE_CONTENT_PARTS: [PartRow; 2] = [
    PartRow {
        name: "extension",
        slot: Slot::Alone(Role::SimpleContentExtension),
    },
    PartRow {
        name: "restriction",
        slot: Slot::Alone(Role::SimpleContentRestriction),
    },
];

const COMPLEX_CONTENT_PARTS: [PartRow; 2] = [
    PartRow {
        name: "extension",
        slot: Slot::Alone(Role::ComplexContentExtension),
    },
    PartRow {
        name: "restriction",
        slot: Slot::Alone(Role::ComplexContentRestriction),
    },
];

const CONTENT_PARTS: [PartRow; 5] = [
    PartRow {
        name: "sequence",
        slot: Slot::Leading(Role::ModelGroup(Compositor::Sequence)),
    },
    PartRow {
        name: "choice",
        slot: Slot::Leading(Role::ModelGroup(Compositor::Choice)),
    },
    PartRow {
        name: "group",
        slot: Slot::Leading(Role::GroupReference),
    },
    PartRow {
        name: "attribute",
        slot: Slot::Repeated(Role::LocalAttribute),
    },
    PartRow {
        name: "attributeGroup",
        slot: Slot::Repeated(Role::AttributeGroupReference),
    },
];

const ATTRIBUTE_GROUP_PARTS: [PartRow; 2] = [
    PartRow {
        name: "attribute",
        slot: Slot::Repeated(Role::LocalAttribute),
    },
    PartRow {
        name: "attributeGroup",
        slot: Slot::Repeated(Role::AttributeGroupReference),
    },
];

const SIMPLE_RESTRICTION_PARTS: [PartRow; 10] = [
    PartRow {
        name: "enumeration",
        slot: Slot::Early(Role::Facet(FacetKind::Enumeration)),
    },
    PartRow {
        name: "minInclusive",
        slot: Slot::Early(Role::Facet(FacetKind::MinInclusive)),
    },
    PartRow {
        name: "maxInclusive",
        slot: Slot::Early(Role::Facet(FacetKind::MaxInclusive)),
    },
    PartRow {
        name: "minExclusive",
        slot: Slot::Early(Role::Facet(FacetKind::MinExclusive)),
    },
    PartRow {
        name: "maxExclusive",
        slot: Slot::Early(Role::Facet(FacetKind::MaxExclusive)),
    },
    PartRow {
        name: "length",
        slot: Slot::Early(Role::Facet(FacetKind::Length)),
    },
    PartRow {
        name: "minLength",
        slot: Slot::Early(Role::Facet(FacetKind::MinLength)),
    },
    PartRow {
        name: "maxLength",
        slot: Slot::Early(Role::Facet(FacetKind::MaxLength)),
    },
    PartRow {
        name: "attribute",
        slot: Slot::Repeated(Role::LocalAttribute),
    },
    PartRow {
        name: "attributeGroup",
        slot: Slot::Repeated(Role::AttributeGroupReference),
    },
];

const SIMPLE_TYPE_PARTS: [PartRow; 2] = [
    PartRow {
        name: "restriction",
        slot: Slot::Alone(Role::SimpleTypeRestriction),
    },
    PartRow {
        name: "list",
        slot: Slot::Alone(Role::SimpleTypeList),
    },
];

const FACET_PARTS: [PartRow; 8] = [
    PartRow {
        name: "enumeration",
        slot: Slot::Early(Role::Facet(FacetKind::Enumeration)),
    },
    PartRow {
        name: "minInclusive",
        slot: Slot::Early(Role::Facet(FacetKind::MinInclusive)),
    },
    PartRow {
        name: "maxInclusive",
        slot: Slot::Early(Role::Facet(FacetKind::MaxInclusive)),
    },
    PartRow {
        name: "minExclusive",
        slot: Slot::Early(Role::Facet(FacetKind::MinExclusive)),
    },
    PartRow {
        name: "maxExclusive",
        slot: Slot::Early(Role::Facet(FacetKind::MaxExclusive)),
    },
    PartRow {
        name: "length",
        slot: Slot::Early(Role::Facet(FacetKind::Length)),
    },
    PartRow {
        name: "minLength",
        slot: Slot::Early(Role::Facet(FacetKind::MinLength)),
    },
    PartRow {
        name: "maxLength",
        slot: Slot::Early(Role::Facet(FacetKind::MaxLength)),
    },
];

// The parts that an element may hold beside annotations (XML Schema 1.0 part 1, section 3, in the representations of components).
#[tactic(auto, unfolding(crate::specs::Parts::parts_of))]
fn parts_of(role: Role) -> &'static [PartRow]
    ensures { map part_row result.now ≡ parts_of role }
{
    match role {
        Role::Schema => &SCHEMA_PARTS,
        Role::GlobalElement | Role::LocalElement => &ELEMENT_PARTS,
        Role::GlobalAttribute | Role::LocalAttribute => &ATTRIBUTE_PARTS,
        Role::GlobalGroup => &GROUP_PARTS,
        Role::ModelGroup(_) => &MODEL_GROUP_PARTS,
        Role::GlobalComplexType | Role::AnonymousComplexType => &COMPLEX_TYPE_PARTS,
        Role::SimpleContent => &SIMPLE_CONTENT_PARTS,
        Role::ComplexContent => &COMPLEX_CONTENT_PARTS,
        Role::ComplexContentExtension | Role::ComplexContentRestriction => &CONTENT_PARTS,
        Role::SimpleContentExtension | Role::GlobalAttributeGroup => &ATTRIBUTE_GROUP_PARTS,
        Role::SimpleContentRestriction => &SIMPLE_RESTRICTION_PARTS,
        Role::GlobalSimpleType | Role::AnonymousSimpleType => &SIMPLE_TYPE_PARTS,
        Role::SimpleTypeRestriction => &FACET_PARTS,
        Role::GroupReference
        | Role::AttributeGroupReference
        | Role::SimpleTypeList
        | Role::Facet(_) => &[],
    }
}

/// Whether an element of this role must hold a part.
#[tactic(auto, unfolding(crate::specs::Parts::needs_part))]
pub fn needs_part(role: Role) -> bool
    ensures { result ≡ needs_part role }
{
    matches!(
        role,
        Role::GlobalGroup
            | Role::SimpleContent
            | Role::ComplexContent
            | Role::GlobalSimpleType
            | Role::AnonymousSimpleType
    )
}

fn slot_among(rows: &[PartRow], local: &str) -> Option<Slot>
    ensures { result ≡ slot_among (map part_row rows.now) local.now }
{
    let mut left = rows;
    while let Some((row, others)) = left.split_first() {
        if row.name == local {
            return Some(row.slot);
        }
        left = others;
    }
    None
}

/// The slot of a part of this local name in an element of this role, if it has such parts.
pub fn slot_of(role: Role, local: &str) -> Option<Slot>
    ensures { result ≡ slot_of role local.now }
{
    slot_among(parts_of(role), local)
}

/// The role of the parts of a slot.
pub fn role_in(slot: Slot) -> Role
    ensures { result ≡ role_in slot }
{
    match slot {
        Slot::Alone(role) | Slot::Leading(role) | Slot::Early(role) | Slot::Repeated(role) => role,
    }
}

/// Whether a part of the slot may stand behind what was seen.
pub fn fits(seen: Seen, slot: Slot) -> bool
    ensures { result ≡ fits seen slot }
{
    match slot {
        Slot::Alone(_) | Slot::Leading(_) => seen == Seen::Nothing,
        Slot::Early(_) => matches!(seen, Seen::Nothing | Seen::EarlyParts),
        Slot::Repeated(_) => seen != Seen::TheOnePart,
    }
}

/// What was seen behind a part of the slot.
pub fn seen_after(slot: Slot) -> Seen
    ensures { result ≡ seen_after slot }
{
    match slot {
        Slot::Alone(_) => Seen::TheOnePart,
        Slot::Early(_) => Seen::EarlyParts,
        Slot::Leading(_) | Slot::Repeated(_) => Seen::Others,
    }
}
