// Laws of the contents of types.

ghost use Rattle.gx_schema_content.specs.Laws.{ContentsAreBounded, ContentsAreWhole, ElementsKeep, OneTypeAName};

/// Where no element particle disagrees, elements of one name have one type in each content model (XML Schema 1.0 part 1, section
/// 3.8.6, Element Declarations Consistent).
pub fn one_type_a_name()
    ensures { OneTypeAName }
{}

/// Where the types of all elements that are written pass a test, each item of a content model is an element with a name whose type
/// passes it, or a text where texts are allowed.
pub fn elements_keep()
    ensures { ElementsKeep }
{}

/// No content model has more positions than a content may have, with a text in front of them and one behind each: nothing is seen
/// of a content that has more.
pub fn contents_are_bounded()
    ensures { ContentsAreBounded }
{}

/// The content of a type of no more positions than a content may have is its whole content, so that extensions are compared with
/// the contents that schemas keep.
pub fn contents_are_whole()
    ensures { ContentsAreWhole }
{}
