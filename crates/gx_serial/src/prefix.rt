// The prefixes of a tag.
ghost use Rattle.std.specs.Prelude.{◌≡◌, [], ◌∷◌, ◌++◌, length, map, option_copied, IfOk, OnOk, OnErr};
ghost use Rattle.gx_tree.specs.declared.attribute.Attribute.{Attribute};
ghost use Rattle.gx_serial.specs.Binding.{bound_to, numbered_prefix, is_prefix_among, free_number, free_prefix};
ghost use Rattle.gx_serial.specs.Marked.{prefixes_of, unless_taken};
ghost use Rattle.gx_serial.specs.View.{all_prefixes, IsSearchStart};
ghost use Rattle.gx_serial.specs.PrefixSet.{HoldsAll};

use gx_base::name::Name;
use gx_base::text::Text;
use gx_namespaces::bindings::Bindings;
use gx_tree::attribute::Attribute;
use std::alloc::{AllocError, Global};
use std::collections::BTreeSet;
use std::marker::Model;

// The prefixes of the names of a tag, and those that they have taken so far, each with its URI. No number below
// `number` is free.
#[derive(Drop)]
pub(crate) struct Prefixes<'a> {
    name: &'a Name,
    attributes: &'a [Attribute],
    attribute_prefixes: BTreeSet<Text>,
    taken_bindings: Bindings,
    number: usize,
}

impl<'a> Model for Prefixes<'a> {
    ghost use Rattle.gx_serial.specs.View.{TagPrefixes};

    ghost Value = { TagPrefixes };

    ghost use Rattle.gx_serial.specs.PrefixSet.{prefixes_seen, IsPrepared};

    ghost view = { prefixes_seen };

    ghost invariant = { IsPrepared };
}

impl<'a> Prefixes<'a> {
    // Of a tag, where the element's name alone has taken its prefix.
    pub(crate) fn new(
        alloc: Global,
        name: &'a Name,
        attributes: &'a [Attribute],
    ) -> Result<Prefixes<'a>, AllocError>
        ensures { IfOk result (λ prefixes. prefixes
            ≡ record { used = prefixes_of name.now attributes.now; taken_bindings = (name.now.prefix, name.now.uri) ∷ [] }) }
    {
        let mut taken = Bindings::new(alloc);
        taken.push(&name.prefix, &name.uri)?;
        Ok(Prefixes {
            name,
            attributes,
            attribute_prefixes: prefix_set(alloc, attributes)?,
            taken_bindings: taken,
            number: 1,
        })
    }

    // The URI for which a prefix was taken last.
    pub(crate) fn bound_to(&self, prefix: &Text) -> Option<&Text>
        ensures { option_copied result ≡ bound_to self.now.taken_bindings prefix.now }
    {
        self.taken_bindings.bound_to(prefix)
    }

    // Whether a name has the prefix, or has taken it.
    fn is_used(&self, prefix: &Text) -> bool
        ensures { result ≡ is_prefix_among (all_prefixes self.now) prefix.now }
    {
        self.name.prefix == *prefix
            || self.attribute_prefixes.contains(prefix)
            || self.taken_bindings.bound_to(prefix).is_some()
    }

    // Lets a name take a prefix for its URI.
    pub(crate) fn take(&mut self, prefix: &Text, uri: &'a Text) -> Result<(), AllocError>
        ensures ok { OnOk result (self.new ≡ record self.old { taken_bindings = self.old.taken_bindings ++ ((prefix.now, uri.now) ∷ []) }) }
        ensures err { OnErr result (self.new ≡ self.old) }
    {
        self.taken_bindings.push(prefix, uri)
    }

    // The first number from 1 on whose prefix no name has or has taken.
    fn free_number(&self, alloc: Global) -> Result<usize, AllocError>
        ensures number { IfOk result (λ n. n
            ≡ free_number (all_prefixes self.now) (length (all_prefixes self.now)) 1) }
        ensures start { IfOk result (IsSearchStart (all_prefixes self.now)) }
    {
        let most = 1 + self.attributes.len() + self.taken_bindings.len();
        let mut number = self.number;
        while number <= most {
            let prefix = numbered_prefix(alloc, number)?;
            if !self.is_used(&prefix) {
                return Ok(number);
            }
            number += 1;
        }
        Ok(number)
    }

    // The first of ns1, ns2, .. that no name has or has taken.
    fn free_prefix(&mut self, alloc: Global) -> Result<Text, AllocError>
        ensures prefix { IfOk result (λ prefix. prefix ≡ free_prefix (all_prefixes self.old)) }
        ensures same { self.new ≡ self.old }
    {
        self.number = self.free_number(alloc)?;
        numbered_prefix(alloc, self.number)
    }

    // The prefix that is written for an attribute.
    pub(crate) fn written_prefix(
        &mut self,
        alloc: Global,
        attribute: &Attribute,
    ) -> Result<Text, AllocError>
        ensures prefix { IfOk result (λ prefix. prefix
            ≡ unless_taken (bound_to self.old.taken_bindings attribute.now.name.prefix) self.old.used self.old.taken_bindings
            attribute.now.name.prefix attribute.now.name.uri) }
        ensures same { self.new ≡ self.old }
    {
        if let Some(bound) = self.bound_to(&attribute.name.prefix) {
            if *bound != attribute.name.uri {
                return self.free_prefix(alloc);
            }
        }
        attribute.name.prefix.clone()
    }
}

// The prefixes of attributes.
fn prefix_set(alloc: Global, attributes: &[Attribute]) -> Result<BTreeSet<Text>, AllocError>
    ensures { IfOk result (λ set. HoldsAll (map (λ (a : Attribute). a.name.prefix) attributes.now) set) }
{
    let mut set = BTreeSet::new(alloc);
    for attribute in attributes {
        set.insert(attribute.name.prefix.clone()?)?;
    }
    Ok(set)
}

// The prefix `ns` with a number.
fn numbered_prefix(alloc: Global, number: usize) -> Result<Text, AllocError>
    ensures { IfOk result (λ prefix. prefix ≡ numbered_prefix number) }
{
    let text = format!(in alloc; "ns{number}")?;
    Text::from_str(alloc, text.as_str())
}
