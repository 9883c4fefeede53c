// What an element of a schema document is for.

/// The facets of the profile (XML Schema 1.0 part 2, section 4.3).
#[derive(Clone, Copy, Debug, PartialEq, Eq)]
pub enum FacetKind {
    Enumeration,
    MinInclusive,
    MaxInclusive,
    MinExclusive,
    MaxExclusive,
    Length,
    MinLength,
    MaxLength,
}

/// How the particles of a model group are put together (XML Schema 1.0 part 1, section 3.8).
#[derive(Clone, Copy, Debug, PartialEq, Eq)]
pub enum Compositor {
    Sequence,
    Choice,
}

/// What an element of a schema document is for, by its name and by where it stands (XML Schema 1.0 part 1, section 3).
#[derive(Clone, Copy, PartialEq, Eq)]
pub enum Role {
    Schema,
    GlobalElement,
    LocalElement,
    GlobalComplexType,
    AnonymousComplexType,
    GlobalSimpleType,
    AnonymousSimpleType,
    GlobalGroup,
    GroupReference,
    GlobalAttribute,
    LocalAttribute,
    GlobalAttributeGroup,
    AttributeGroupReference,
    ModelGroup(Compositor),
    SimpleContent,
    ComplexContent,
    SimpleContentExtension,
    SimpleContentRestriction,
    ComplexContentExtension,
    ComplexContentRestriction,
    SimpleTypeRestriction,
    SimpleTypeList,
    Facet(FacetKind),
}
