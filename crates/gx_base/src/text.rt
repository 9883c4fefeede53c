// A text of Unicode characters.

ghost use Rattle.std.specs.Prelude.{◌≡◌, [], ◌∷◌, true, IfOk, IsTrue, ◌↔◌, ◌<◌, length, IfNone, IfSome, OnSome, string_bytes};
ghost use Rattle.std.specs.Str.{chars, encode_utf8_all, all_scalars, IsUtf8};
ghost use Rattle.std.specs.Str.Iter.{chars_rest};
ghost use Rattle.std.specs.Cmp.{partial_order_from_own_ties};
ghost use Rattle.std.specs.Cmp.Rules.{comparing, hashing};
ghost use Rattle.std.specs.Ordering.{as_partial_cmp};
ghost use Rattle.std.specs.Hash as fed;
ghost use Rattle.std.proofs.Common.{rules};
ghost use Rattle.gx_base.specs.Text.{same_text, text_cmp};

use crate::characters::next_character;
use std::alloc::{AllocError, Global};
use std::cmp::Ordering;
use std::fmt;
use std::hash::{Hash, Hasher};
use std::marker::Model;
use std::rc::Rc;

/// A text, which contracts see as the list of its characters (XML 1.0, section 2.2; XQuery 1.0 and XPath 2.0 Data
/// Model, section 2.1). Copies share the characters, so copying a text takes no memory. Texts are compared by code points.
pub struct Text {
    shared: Rc<String>,
}

impl Model for Text {
    ghost use Rattle.std.specs.Prelude.{List, ℕ, string_bytes};
    ghost use Rattle.std.specs.Str.{chars};

    ghost Value = { List ℕ };

    ghost view = { λ t. chars (string_bytes t.shared.value) };
}

impl Drop for Text {
    fn drop(self) {
        let Text { shared: _shared } = self;
    }
}

#[tactic(auto, using(crate::proofs::TextLemmas::string_rules))]
impl Text {
    /// The text without characters.
    pub fn empty(alloc: Global) -> Result<Text, AllocError>
        ensures { IfOk result (λ t. t ≡ []) }
    {
        Text::from_string(alloc, String::new(alloc))
    }

    /// The text of a string slice.
    pub fn from_str(alloc: Global, text: &str) -> Result<Text, AllocError>
        ensures { IfOk result (λ t. t ≡ chars text.now) }
    {
        Text::from_string(alloc, String::from_str(alloc, text)?)
    }

    /// The text of a string, whose memory it keeps.
    pub fn from_string(alloc: Global, text: String) -> Result<Text, AllocError>
        ensures { IfOk result (λ t. t ≡ chars (string_bytes text)) }
    {
        Ok(Text {
            shared: Rc::new(alloc, text)?,
        })
    }

    /// The text as a string slice, which holds its characters in UTF-8.
    pub fn as_str(&self) -> &str
        ensures bytes { result.now ≡ encode_utf8_all self.now }
        ensures characters { all_scalars self.now ≡ true }
    {
        self.shared.as_ref().as_str()
    }

    /// Whether the text has no character.
    pub fn is_empty(&self) -> bool
        ensures { IsTrue result ↔ (self.now ≡ []) }
    {
        has_no_character(self.shared.as_ref())
    }
}

impl Clone for Text {
    ghost is_clone = { λ t copy. copy ≡ t };

    // The copy shares the characters.
    fn clone(&self) -> Result<Text, AllocError> {
        Ok(Text {
            shared: self.shared.clone()?,
        })
    }
}

#[tactic(auto, using(crate::proofs::TextLemmas::string_rules))]
impl PartialEq for Text {
    ghost eq = { same_text };

    ghost laws = { Prim.search (comparing, rules) };

    fn eq(&self, other: &Text) -> bool {
        self.shared.as_ref() == other.shared.as_ref()
    }
}

impl Eq for Text {
    ghost laws = { Prim.search (comparing, rules) };
}

impl Ord for Text {
    ghost cmp = { text_cmp };

    ghost total = { Prim.search (comparing, rules) };

    ghost matches_partial_cmp = { Prim.search (comparing, rules) };

    ghost matches_eq = { Prim.search (comparing, rules) };

    fn cmp(&self, other: &Text) -> Ordering {
        compare_characters(
            self.shared.as_ref().as_str(),
            other.shared.as_ref().as_str(),
        )
    }
}

impl PartialOrd for Text {
    ghost partial_cmp = { as_partial_cmp text_cmp };

    ghost laws = { partial_order_from_own_ties (Prim.search (comparing, rules)) (Prim.search (comparing, rules)) };

    fn partial_cmp(&self, other: &Text) -> Option<Ordering> {
        Some(self.cmp(other))
    }
}

#[tactic(auto, using(crate::proofs::TextLemmas::string_rules))]
impl Hash for Text {
    ghost hash_input = { λ t. fed.str (encode_utf8_all t) };

    ghost respects_eq = { Prim.search (hashing, rules) };

    fn hash<H: Hasher>(&self, state: &mut H) {
        self.shared.as_ref().as_str().hash(state);
    }
}

impl fmt::Debug for Text {
    fn fmt<W: fmt::Write>(&self, f: &mut fmt::Formatter<W>) -> fmt::Result {
        let text = self.shared.as_ref().as_str();
        write!(f, "{text:?}")
    }
}

// Whether a string has no character.
pub(crate) fn has_no_character(text: &String) -> bool
    ensures { IsTrue result ↔ (chars (string_bytes text.now) ≡ []) }
{
    text.as_str().is_empty()
}

// The order of two texts by code points.
#[tactic(auto, using(crate::proofs::TextLemmas::string_rules))]
fn compare_characters(a: &str, b: &str) -> Ordering
    ensures { result ≡ text_cmp (chars a.now) (chars b.now) }
{
    let mut first = a.chars();
    let mut second = b.chars();
    while let Some(x) = next_character(&mut first) {
        let Some(y) = next_character(&mut second) else {
            return Ordering::Greater;
        };
        if x != y {
            return x.cmp(&y);
        }
    }
    match next_character(&mut second) {
        Some(_) => Ordering::Less,
        None => Ordering::Equal,
    }
}
