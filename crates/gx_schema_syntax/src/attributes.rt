// The attributes of elements of schema documents: which there are, the forms of their values, and which must be there.

ghost use Rattle.std.specs.Prelude.{◌≡◌, map};
ghost use Rattle.gx_schema_syntax.specs.Attributes.{allowed_attributes, form_among, form_of, may_hold_its_base, needs_of};
ghost use Rattle.gx_schema_syntax.specs.AttributeView.{attribute_row, words_needed};

use crate::role::{FacetKind, Role};

/// The form of the values of an attribute.
#[derive(Clone, Copy, PartialEq, Eq)]
pub enum Form {
    /// A name without a prefix.
    Name,
    /// A name of an element, an attribute or a group.
    Reference,
    /// A name of a type.
    TypeReference,
    /// Digits.
    Digits,
    /// Digits or `unbounded`.
    DigitsOrUnbounded,
    /// `true`, `false`, `1` or `0`.
    Boolean,
    /// `false`.
    False,
    /// `optional`, `required` or `prohibited`.
    Usage,
    /// `qualified` or `unqualified`.
    Qualification,
    /// Any text.
    Any,
}

/// A row of the table of attributes: a local name in no namespace, and the form of the values.
#[derive(Clone, Copy)]
struct AttributeRow {
    name: &'static str,
    form: Form,
}

const SCHEMA_ATTRIBUTES: [AttributeRow; 4] = [
    AttributeRow {
        name: "targetNamespace",
        form: Form::Any,
    },
    AttributeRow {
        name: "elementFormDefault",
        form: Form::Qualification,
    },
    AttributeRow {
        name: "attributeFormDefault",
        form: Form::Qualification,
    },
    AttributeRow {
        name: "version",
        form: Form::Any,
    },
];

const GLOBAL_ELEMENT_ATTRIBUTES: [AttributeRow; 4] = [
    AttributeRow {
        name: "name",
        form: Form::Name,
    },
    AttributeRow {
        name: "type",
        form: Form::TypeReference,
    },
    AttributeRow {
        name: "abstract",
        form: Form::False,
    },
    AttributeRow {
        name: "nillable",
        form: Form::False,
    },
];

const LOCAL_ELEMENT_ATTRIBUTES: [AttributeRow; 8] = [
    AttributeRow {
        name: "ref",
        form: Form::Reference,
    },
    AttributeRow {
        name: "minOccurs",
        form: Form::Digits,
    },
    AttributeRow {
        name: "maxOccurs",
        form: Form::DigitsOrUnbounded,
    },
    AttributeRow {
        name: "form",
        form: Form::Qualification,
    },
    AttributeRow {
        name: "name",
        form: Form::Name,
    },
    AttributeRow {
        name: "type",
        form: Form::TypeReference,
    },
    AttributeRow {
        name: "abstract",
        form: Form::False,
    },
    AttributeRow {
        name: "nillable",
        form: Form::False,
    },
];

const GLOBAL_COMPLEX_TYPE_ATTRIBUTES: [AttributeRow; 3] = [
    AttributeRow {
        name: "name",
        form: Form::Name,
    },
    AttributeRow {
        name: "mixed",
        form: Form::Boolean,
    },
    AttributeRow {
        name: "abstract",
        form: Form::False,
    },
];

const ANONYMOUS_COMPLEX_TYPE_ATTRIBUTES: [AttributeRow; 2] = [
    AttributeRow {
        name: "mixed",
        form: Form::Boolean,
    },
    AttributeRow {
        name: "abstract",
        form: Form::False,
    },
];

const GROUP_REFERENCE_ATTRIBUTES: [AttributeRow; 3] = [
    AttributeRow {
        name: "ref",
        form: Form::Reference,
    },
    AttributeRow {
        name: "minOccurs",
        form: Form::Digits,
    },
    AttributeRow {
        name: "maxOccurs",
        form: Form::DigitsOrUnbounded,
    },
];

const BOUNDS: [AttributeRow; 2] = [
    AttributeRow {
        name: "minOccurs",
        form: Form::Digits,
    },
    AttributeRow {
        name: "maxOccurs",
        form: Form::DigitsOrUnbounded,
    },
];

const GLOBAL_ATTRIBUTE_ATTRIBUTES: [AttributeRow; 2] = [
    AttributeRow {
        name: "name",
        form: Form::Name,
    },
    AttributeRow {
        name: "type",
        form: Form::TypeReference,
    },
];

const LOCAL_ATTRIBUTE_ATTRIBUTES: [AttributeRow; 5] = [
    AttributeRow {
        name: "ref",
        form: Form::Reference,
    },
    AttributeRow {
        name: "use",
        form: Form::Usage,
    },
    AttributeRow {
        name: "form",
        form: Form::Qualification,
    },
    AttributeRow {
        name: "name",
        form: Form::Name,
    },
    AttributeRow {
        name: "type",
        form: Form::TypeReference,
    },
];

const NAME: [AttributeRow; 1] = [AttributeRow {
    name: "name",
    form: Form::Name,
}];

const REFERENCE: [AttributeRow; 1] = [AttributeRow {
    name: "ref",
    form: Form::Reference,
}];

const BASE: [AttributeRow; 1] = [AttributeRow {
    name: "base",
    form: Form::TypeReference,
}];

const ITEM_TYPE: [AttributeRow; 1] = [AttributeRow {
    name: "itemType",
    form: Form::TypeReference,
}];

const VALUE: [AttributeRow; 1] = [AttributeRow {
    name: "value",
    form: Form::Any,
}];

const NUMBER: [AttributeRow; 1] = [AttributeRow {
    name: "value",
    form: Form::Digits,
}];

// The attributes in no namespace that an element may have beside `id` (XML Schema 1.0 part 1, section 3; part 2, section 4).
#[tactic(auto, unfolding(crate::specs::Attributes::allowed_attributes))]
fn allowed_attributes(role: Role) -> &'static [AttributeRow]
    ensures { map attribute_row result.now ≡ allowed_attributes role }
{
    match role {
        Role::Schema => &SCHEMA_ATTRIBUTES,
        Role::GlobalElement => &GLOBAL_ELEMENT_ATTRIBUTES,
        Role::LocalElement => &LOCAL_ELEMENT_ATTRIBUTES,
        Role::GlobalComplexType => &GLOBAL_COMPLEX_TYPE_ATTRIBUTES,
        Role::AnonymousComplexType => &ANONYMOUS_COMPLEX_TYPE_ATTRIBUTES,
        Role::GlobalSimpleType | Role::GlobalGroup | Role::GlobalAttributeGroup => &NAME,
        Role::GroupReference => &GROUP_REFERENCE_ATTRIBUTES,
        Role::ModelGroup(_) => &BOUNDS,
        Role::GlobalAttribute => &GLOBAL_ATTRIBUTE_ATTRIBUTES,
        Role::LocalAttribute => &LOCAL_ATTRIBUTE_ATTRIBUTES,
        Role::AttributeGroupReference => &REFERENCE,
        Role::SimpleContentExtension
        | Role::SimpleContentRestriction
        | Role::ComplexContentExtension
        | Role::ComplexContentRestriction
        | Role::SimpleTypeRestriction => &BASE,
        Role::SimpleTypeList => &ITEM_TYPE,
        Role::Facet(FacetKind::Length | FacetKind::MinLength | FacetKind::MaxLength) => &NUMBER,
        Role::Facet(_) => &VALUE,
        Role::AnonymousSimpleType | Role::SimpleContent | Role::ComplexContent => &[],
    }
}

/// The attributes of which an element must have one, if it needs any.
#[tactic(auto, unfolding(crate::specs::Attributes::needs_of))]
pub fn needs_of(role: Role) -> Option<&'static [&'static str]>
    ensures { words_needed result ≡ needs_of role }
{
    match role {
        Role::GlobalElement
        | Role::GlobalComplexType
        | Role::GlobalSimpleType
        | Role::GlobalGroup
        | Role::GlobalAttribute
        | Role::GlobalAttributeGroup => Some(&["name"]),
        Role::LocalElement | Role::LocalAttribute => Some(&["name", "ref"]),
        Role::GroupReference | Role::AttributeGroupReference => Some(&["ref"]),
        Role::SimpleContentExtension
        | Role::SimpleContentRestriction
        | Role::ComplexContentExtension
        | Role::ComplexContentRestriction
        | Role::SimpleTypeRestriction => Some(&["base"]),
        Role::SimpleTypeList => Some(&["itemType"]),
        Role::Facet(_) => Some(&["value"]),
        _ => None,
    }
}

/// Whether an element of this role may hold a simple type in place of the attribute that it needs.
#[tactic(auto, unfolding(crate::specs::Attributes::may_hold_its_base))]
pub fn may_hold_its_base(role: Role) -> bool
    ensures { result ≡ may_hold_its_base role }
{
    matches!(
        role,
        Role::SimpleContentExtension
            | Role::SimpleContentRestriction
            | Role::ComplexContentExtension
            | Role::ComplexContentRestriction
            | Role::SimpleTypeRestriction
            | Role::SimpleTypeList
    )
}

fn form_among(rows: &[AttributeRow], local: &str) -> Option<Form>
    ensures { result ≡ form_among (map attribute_row rows.now) local.now }
{
    let mut left = rows;
    while let Some((row, others)) = left.split_first() {
        if row.name == local {
            return Some(row.form);
        }
        left = others;
    }
    None
}

/// The form of the values of the attribute of this local name in an element of this role, if it has such an attribute.
pub fn form_of(role: Role, local: &str) -> Option<Form>
    ensures { result ≡ form_of role local.now }
{
    form_among(allowed_attributes(role), local)
}
