// Expanded names.

ghost use Rattle.std.specs.Prelude.{◌≡◌, [], ◌∷◌, IfOk, OnOk, drop, option_copied};
ghost use Rattle.std.specs.Str.{chars};
ghost use Rattle.gx_names_scope.specs.Environment.{expanded, known_namespaces, or_nameless};

use crate::signature::Signature;
use gx_ast::name::{QName, Variable};
use gx_base::name::{Name, SharedName};
use gx_base::place::Place;
use gx_base::text::Text;
use gx_resolved::nested_map::NestedMap;
use gx_types::schemas::Schemas;
use std::alloc::{AllocError, Global};
use std::marker::Model;

/// What names stand for at a point of a query: the namespaces and the variables in scope, the declared functions, and the schemas
/// (XQuery 1.0, section 2.1.1).
pub struct Names<'s> {
    namespaces: NestedMap<Text, Text>,
    declared: NestedMap<Signature, Place>,
    variables: NestedMap<SharedName, Place>,
    nowhere: Text,
    functions: Text,
    schemas: &'s Schemas,
}

impl<'s> Drop for Names<'s> {
    fn drop(self) {
        let Names {
            namespaces: _namespaces,
            declared: _declared,
            variables: _variables,
            nowhere: _nowhere,
            functions: _functions,
            schemas: _schemas,
        } = self;
    }
}

impl<'s> Model for Names<'s> {
    ghost use Rattle.std.specs.Prelude.{◌≡◌, []};
    ghost use Rattle.gx_names_scope.specs.Environment.{Environment, function_uri};
    ghost use Rattle.gx_types.specs.contracts.sequence_type.Ty as kinds;
    ghost use Rattle.std.specs.Coded.{codes};

    ghost Value = { Environment };

    ghost coded = { Prim.hlevel (codes, kinds.the_row.coded) };

    ghost view = { λ n. record { namespaces = n.namespaces; functions = n.declared; variables = n.variables; schemas = n.schemas.now } };

    ghost invariant = { λ n. (n.nowhere ≡ []) × (n.functions ≡ function_uri) };
}

impl<'s> Names<'s> {
    ghost use Rattle.gx_base.specs.Text.{same_text};
    ghost use Rattle.gx_names_scope.specs.Environment.{binder_of, called_name, default_element_uri, element_name, function_uri, is_declared_function, known_namespaces, plain_name, uri_of, with_optional, with_variable, without_optional, without_variable};

    /// What is known without a declaration.
    #[tactic(auto, unfolding(crate::specs::Environment::function_uri))]
    pub fn new(alloc: Global, schemas: &'s Schemas) -> Result<Names<'s>, AllocError>
        ensures { IfOk result (λ n. n ≡ record { namespaces = known_namespaces; functions = []; variables = []; schemas = schemas.now }) }
    {
        let nowhere = Text::empty(alloc)?;
        let functions = Text::from_str(alloc, FUNCTIONS)?;
        Ok(Names {
            namespaces: known_namespaces(alloc)?,
            declared: NestedMap::new(alloc),
            variables: NestedMap::new(alloc),
            nowhere,
            functions,
            schemas,
        })
    }

    /// The schemas.
    pub fn schemas(&self) -> &'s Schemas
        ensures { result.now ≡ self.now.schemas }
    {
        self.schemas
    }

    /// Binds a prefix to a URI.
    pub fn bind(&mut self, prefix: Text, uri: Text) -> Result<(), AllocError>
        ensures { OnOk result (self.new ≡ record self.old { namespaces = (prefix, uri) ∷ self.old.namespaces }) }
    {
        self.namespaces.bind(prefix, uri)
    }

    /// Takes the innermost binding of a prefix away.
    pub fn unbind(&mut self) -> Result<(), AllocError>
        ensures { OnOk result (self.new ≡ record self.old { namespaces = drop 1 self.old.namespaces }) }
    {
        self.namespaces.unbind()
    }

    // The URI of a name with this prefix; without one it is the given URI.
    #[tactic(auto, using(crate::proofs::NameLemmas::uri_of_prefixed))]
    fn uri_of<'t>(&'t self, unprefixed: &'t Text, prefix: &Text) -> Option<&'t Text>
        ensures { option_copied result ≡ uri_of self.now.namespaces unprefixed.now prefix.now }
    {
        if prefix.is_empty() {
            return Some(unprefixed);
        }
        match self.namespaces.find(prefix) {
            Some(uri) if !uri.is_empty() => Some(uri),
            _ => None,
        }
    }

    fn default_element_uri(&self) -> &Text
        ensures { result.now ≡ default_element_uri self.now.namespaces }
    {
        match self.namespaces.find(&self.nowhere) {
            Some(uri) => uri,
            None => &self.nowhere,
        }
    }

    /// The name of an element or a type; None exactly where its prefix is unknown.
    pub fn element_name(&self, name: &QName) -> Result<Option<Name>, AllocError>
        ensures { IfOk result (λ n. n ≡ element_name self.now name.now) }
    {
        expanded(name, self.uri_of(self.default_element_uri(), &name.prefix))
    }

    /// The name of a variable or an attribute; None exactly where its prefix is unknown.
    pub fn plain_name(&self, name: &QName) -> Result<Option<Name>, AllocError>
        ensures { IfOk result (λ n. n ≡ plain_name self.now name.now) }
    {
        expanded(name, self.uri_of(&self.nowhere, &name.prefix))
    }

    /// Whether a name is in the namespace of the functions of the standard.
    pub fn is_standard_function(&self, name: &Name) -> bool
        ensures { result ≡ same_text name.now.uri function_uri }
    {
        name.uri == self.functions
    }

    /// The name of a function; None exactly where its prefix is unknown.
    pub fn called_name(&self, name: &QName) -> Result<Option<Name>, AllocError>
        ensures { IfOk result (λ n. n ≡ called_name self.now name.now) }
    {
        expanded(name, self.uri_of(&self.functions, &name.prefix))
    }

    /// The URI of a prefix by itself; None exactly where it is unknown.
    pub fn prefix_uri(&self, prefix: &Text) -> Option<&Text>
        ensures { option_copied result ≡ uri_of self.now.namespaces [] prefix.now }
    {
        self.uri_of(&self.nowhere, prefix)
    }

    /// Declares a function.
    pub fn declare(&mut self, signature: Signature, place: Place) -> Result<(), AllocError>
        ensures { OnOk result (self.new ≡ record self.old { functions = (signature, place) ∷ self.old.functions }) }
    {
        self.declared.bind(signature, place)
    }

    /// Whether a function of this name with so many parameters is declared.
    pub fn is_declared(&self, name: SharedName, arity: usize) -> bool
        ensures { result ≡ is_declared_function self.now name arity }
    {
        self.declared.find(&Signature { name, arity }).is_some()
    }

    /// The place of the binder that a variable has in scope.
    pub fn binder(&self, name: &SharedName) -> Option<&Place>
        ensures { option_copied result ≡ binder_of self.now.variables name.now }
    {
        self.variables.find(name)
    }

    /// Binds a variable inside the others.
    pub fn bind_variable(&mut self, alloc: Global, variable: &Variable) -> Result<(), AllocError>
        ensures { OnOk result (self.new ≡ with_variable variable.now self.old) }
    {
        let name = or_nameless(alloc, self.plain_name(&variable.name)?)?;
        let name = SharedName::new(alloc, name)?;
        self.variables.bind(name, variable.place)
    }

    /// Binds a variable, if there is one.
    pub fn bind_optional(
        &mut self,
        alloc: Global,
        variable: &Option<Variable>,
    ) -> Result<(), AllocError>
        ensures { OnOk result (self.new ≡ with_optional variable.now self.old) }
    {
        match variable {
            Some(variable) => self.bind_variable(alloc, variable),
            None => Ok(()),
        }
    }

    /// Takes the innermost variable away.
    pub fn unbind_variable(&mut self) -> Result<(), AllocError>
        ensures { OnOk result (self.new ≡ without_variable self.old) }
    {
        self.variables.unbind()
    }

    /// Takes the innermost variable away, if one was bound.
    pub fn unbind_optional(&mut self, variable: &Option<Variable>) -> Result<(), AllocError>
        ensures { OnOk result (self.new ≡ without_optional variable.now self.old) }
    {
        match variable {
            Some(_) => self.unbind_variable(),
            None => Ok(()),
        }
    }
}

/// A name, where its prefix is known, and else one that nothing has.
pub fn or_nameless(alloc: Global, name: Option<Name>) -> Result<Name, AllocError>
    ensures { IfOk result (λ n. n ≡ or_nameless name) }
{
    if let Some(name) = name {
        return Ok(name);
    }
    let uri = Text::empty(alloc)?;
    let prefix = Text::empty(alloc)?;
    let local = Text::empty(alloc)?;
    Ok(Name { uri, prefix, local })
}

const FUNCTIONS: &str = "http://www.w3.org/2005/xpath-functions";

fn expanded(name: &QName, uri: Option<&Text>) -> Result<Option<Name>, AllocError>
    ensures { IfOk result (λ n. n ≡ expanded name.now (option_copied uri.entry)) }
{
    let Some(uri) = uri else {
        return Ok(None);
    };
    let prefix = name.prefix.clone()?;
    let local = name.local.clone()?;
    let uri = uri.clone()?;
    Ok(Some(Name { uri, prefix, local }))
}

// The prefixes that are known without a declaration.
fn known_namespaces(alloc: Global) -> Result<NestedMap<Text, Text>, AllocError>
    ensures { IfOk result (λ n. n ≡ known_namespaces) }
{
    let mut namespaces = NestedMap::new(alloc);
    know(
        alloc,
        &mut namespaces,
        "xml",
        "http://www.w3.org/XML/1998/namespace",
    )?;
    know(
        alloc,
        &mut namespaces,
        "xs",
        "http://www.w3.org/2001/XMLSchema",
    )?;
    know(
        alloc,
        &mut namespaces,
        "xsi",
        "http://www.w3.org/2001/XMLSchema-instance",
    )?;
    know(alloc, &mut namespaces, "fn", FUNCTIONS)?;
    know(
        alloc,
        &mut namespaces,
        "local",
        "http://www.w3.org/2005/xquery-local-functions",
    )?;
    Ok(namespaces)
}

fn know(
    alloc: Global,
    namespaces: &mut NestedMap<Text, Text>,
    prefix: &str,
    uri: &str,
) -> Result<(), AllocError>
    ensures { OnOk result (namespaces.new ≡ (chars prefix.now, chars uri.now) ∷ namespaces.old) }
{
    let prefix = Text::from_str(alloc, prefix)?;
    let uri = Text::from_str(alloc, uri)?;
    namespaces.bind(prefix, uri)
}
