// Which declared types are derived from the types that item types ask for.

ghost use Rattle.std.specs.Prelude.{◌≡◌, ◌++◌, [], ◌∷◌, ◌<◌, if◌then◌else◌, ℕ, IfOk, OnOk, IfSome, Some, length, slice_get, slice_index_or, slice_set, true, false};
ghost use Rattle.gx_types.specs.Derivation.{is_derived};
ghost use Rattle.indexmap.specs.IndexMap.{get};
ghost use Rattle.gx_types.specs.TypeIndex.{equal_kinds};
ghost use Rattle.gx_include_derivations.specs.Derivations.{derived_types, is_derived_at, IsColumn, AreNumbers, AllAreNumbered, AreBases, AreKnown, IsNumberOf, IsLead, AreColumnsByKind};

use crate::lead::Lead;
use gx_base::type_name::TypeName;
use gx_include_positions::places::fits;
use gx_include_positions::step::is_set;
use gx_types::declaration::Declared;
use gx_types::derivation::derives;
use gx_types::item_type::ItemType;
use gx_types::schemas::Schemas;
use gx_types::shape::Shape;
use indexmap::IndexMap;
use std::alloc::{AllocError, Global};
use std::marker::Model;

/// Schemas with what derivation asks for, found once: the numbers of the declared types and of their bases, and for each type that
/// was asked for so far, which declared types are derived from it.
#[derive(Drop)]
pub struct Derivations<'a> {
    schemas: &'a Schemas,
    numbers: IndexMap<TypeName, usize>,
    bases: Vec<Option<usize>>,
    columns: IndexMap<TypeName, Vec<bool>>,
}

impl<'a> Model for Derivations<'a> {
    ghost use Rattle.gx_types.specs.SchemaSet.{SchemaSet};
    ghost use Rattle.gx_types.specs.contracts.sequence_type.Ty as kinds;
    ghost use Rattle.std.specs.Coded.{codes};
    ghost use Rattle.gx_include_derivations.specs.Derivations.{AreDerivations, is_derived_at, IsColumn};

    ghost Value = { SchemaSet };

    ghost coded = { Prim.hlevel (codes, kinds.the_row.coded) };

    ghost view = { λ derivations. derivations.schemas.now };

    ghost invariant = { λ derivations. AreDerivations derivations.schemas.now derivations.numbers derivations.bases.items derivations.columns };
}

impl<'a> Derivations<'a> {
    ghost use Rattle.std.specs.Prelude.{◌≡◌, ◌||◌, ◌<◌, ℕ, Bool, Vec, IfOk, IfSome, length, option_copied, slice_index_or, false};
    ghost use Rattle.std.specs.declared.alloc.Global.{Global};
    ghost use Rattle.gx_types.specs.Derivation.{is_derived};
    ghost use Rattle.gx_include_derivations.specs.Asked.{asks_at, is_asked_at, types_asked};
    ghost use Rattle.gx_include_positions.specs.Test.{is_taken};

    /// The derivations of schemas.
    pub fn new(alloc: Global, schemas: &'a Schemas) -> Result<Derivations<'a>, AllocError>
        ensures { IfOk result (λ derivations. derivations ≡ schemas.now) }
    {
        let numbers = numbers_of(alloc, schemas)?;
        let bases = bases_of(alloc, schemas, &numbers)?;
        let columns = IndexMap::new(alloc);
        Ok(Derivations {
            schemas,
            numbers,
            bases,
            columns,
        })
    }

    /// The schemas.
    pub fn schemas(&self) -> &'a Schemas
        ensures { result.now ≡ self.now }
    {
        self.schemas
    }

    /// Finds which declared types are derived from those that item types ask for.
    pub fn ask(&mut self, alloc: Global, items: &[ItemType]) -> Result<(), AllocError>
        ensures { self.new ≡ self.old }
    {
        let bases = self.bases.as_slice();
        add_columns(alloc, self.schemas, bases, items, &mut self.columns)
    }

    /// The declared types of which item types may take shapes, in document order.
    pub fn types_asked(
        &self,
        alloc: Global,
        items: &[ItemType],
    ) -> Result<Vec<TypeName>, AllocError>
        ensures { IfOk result (λ types. types.items ≡ types_asked self.now items.now) }
    {
        let flags = self.flags_asked(alloc, items)?;
        let mut types = Vec::new(alloc);
        for (number, declared) in self.schemas().types().iter().enumerate() {
            add_if(&mut types, declared, is_set(flags.as_slice(), number))?;
        }
        Ok(types)
    }

    // Whether item types may take a shape of each declared type.
    fn flags_asked(&self, alloc: Global, items: &[ItemType]) -> Result<Vec<bool>, AllocError>
        ensures { IfOk result (λ flags. (number : ℕ) → number < length self.now.types → slice_index_or flags.items number false ≡ is_asked_at self.now items.now number) }
    {
        let mut flags = vec![in alloc; false; self.bases.len()]?;
        for item in items {
            self.mark_asked(item, &mut flags);
        }
        Ok(flags)
    }

    // Marks the declared types of which an item type may take shapes.
    fn mark_asked(&self, item: &ItemType, flags: &mut Vec<bool>)
        ensures count { length flags.new.items ≡ length flags.old.items }
        ensures flags { (number : ℕ) → number < length flags.old.items → slice_index_or flags.new.items number false ≡ slice_index_or flags.old.items number false || asks_at self.now number item.now }
    {
        match item {
            ItemType::Element { kind, .. } | ItemType::Attribute { kind, .. } => {
                self.mark_derived(kind, flags)
            }
            ItemType::Document(Some((_, kind))) | ItemType::Atom(kind) => {
                self.mark_derived(kind, flags)
            }
            ItemType::Document(None) => mark_all(flags),
            ItemType::Text => {}
        }
    }

    // Marks the declared types that are derived from a type.
    fn mark_derived(&self, kind: &TypeName, flags: &mut Vec<bool>)
        ensures count { length flags.new.items ≡ length flags.old.items }
        ensures flags { (number : ℕ) → number < length flags.old.items → slice_index_or flags.new.items number false ≡ slice_index_or flags.old.items number false || is_derived_at self.now kind.now number }
    {
        let column = self.columns.get(kind);
        for number in 0..flags.len() {
            flags[number] = flags[number] | self.is_derived_at(column, kind, number);
        }
    }

    // Whether the declared type of a number is derived from a type, by its column if it was asked for.
    fn is_derived_at(&self, column: Option<&Vec<bool>>, kind: &TypeName, number: usize) -> bool
        requires { IfSome (option_copied column) (λ (column : Vec Bool Global). IsColumn self.now kind.now column.items) }
        ensures { result ≡ is_derived_at self.now kind.now number }
    {
        match column {
            Some(column) => is_set(column.as_slice(), number),
            None => derives_at(self.schemas, kind, number),
        }
    }

    // Whether a type is derived from another one.
    #[tactic(auto, using(crate::proofs::Derived::looked_up))]
    fn derives(&self, t: &TypeName, kind: &TypeName) -> bool
        ensures { result ≡ is_derived self.now t.now kind.now }
    {
        match (self.numbers.get(t), self.columns.get(kind)) {
            (Some(number), Some(column)) => is_set(column.as_slice(), *number),
            _ => derives(self.schemas, t, kind),
        }
    }

    /// Whether a shape is one that an item type takes.
    pub fn takes_shape(&self, shape: &Shape, item: &ItemType) -> bool
        ensures { result ≡ is_taken self.now shape.now item.now }
    {
        match (item, shape) {
            (ItemType::Element { name, kind }, Shape::Elem(given, t)) => {
                fits(name, given) && self.derives(t, kind)
            }
            (ItemType::Attribute { name, kind }, Shape::Attr(given, t)) => {
                fits(name, given) && self.derives(t, kind)
            }
            (ItemType::Text, Shape::Text) => true,
            (ItemType::Document(None), Shape::Doc(_)) => true,
            (ItemType::Document(Some((name, kind))), Shape::Doc(Some((given, t)))) => {
                fits(name, given) && self.derives(t, kind)
            }
            (ItemType::Atom(kind), Shape::Atom(t)) => self.derives(t, kind),
            _ => false,
        }
    }
}

fn mark_all(flags: &mut Vec<bool>)
    ensures count { length flags.new.items ≡ length flags.old.items }
    ensures flags { (number : ℕ) → number < length flags.old.items → slice_index_or flags.new.items number false ≡ true }
{
    for number in 0..flags.len() {
        flags[number] = true;
    }
}

// Puts the name of a declared type behind those of a list, if a flag says so.
fn add_if(types: &mut Vec<TypeName>, declared: &Declared, flag: bool) -> Result<(), AllocError>
    ensures { OnOk result (types.new.items ≡ types.old.items ++ (if flag then declared.now.name ∷ [] else [])) }
{
    if flag {
        types.push(declared.name.clone()?)?;
    }
    Ok(())
}

/// The declared types that are derived from a type, in document order. The work is linear in the number of declared types.
pub fn derived_types(
    alloc: Global,
    schemas: &Schemas,
    kind: &TypeName,
) -> Result<Vec<TypeName>, AllocError>
    ensures { IfOk result (λ types. types.items ≡ derived_types schemas.now kind.now) }
{
    let numbers = numbers_of(alloc, schemas)?;
    let column = column_anew(alloc, schemas, &numbers, kind)?;
    types_of_column(alloc, schemas, kind, column.as_slice())
}

// The column of a type, where no bases are known yet.
fn column_anew(
    alloc: Global,
    schemas: &Schemas,
    numbers: &IndexMap<TypeName, usize>,
    kind: &TypeName,
) -> Result<Vec<bool>, AllocError>
    requires { AreNumbers schemas.now numbers.now }
    ensures { IfOk result (λ column. IsColumn schemas.now kind.now column.items) }
{
    let bases = bases_of(alloc, schemas, numbers)?;
    column_of(alloc, schemas, bases.as_slice(), kind)
}

// The declared types that a column has.
fn types_of_column(
    alloc: Global,
    schemas: &Schemas,
    _kind: &TypeName,
    column: &[bool],
) -> Result<Vec<TypeName>, AllocError>
    requires { IsColumn schemas.now _kind.now column.now }
    ensures { IfOk result (λ types. types.items ≡ derived_types schemas.now _kind.now) }
{
    let mut types = Vec::new(alloc);
    for (number, declared) in schemas.types().iter().enumerate() {
        add_if(&mut types, declared, is_set(column, number))?;
    }
    Ok(types)
}

// The number of each declared type, in document order.
fn numbers_of(alloc: Global, schemas: &Schemas) -> Result<IndexMap<TypeName, usize>, AllocError>
    ensures numbers { IfOk result (λ numbers. AreNumbers schemas.now numbers) }
    ensures all { IfOk result (λ numbers. AllAreNumbered schemas.now numbers) }
{
    let mut numbers = IndexMap::new(alloc);
    for (number, declared) in schemas.types().iter().enumerate() {
        numbers.insert(declared.name.clone()?, number)?;
    }
    Ok(numbers)
}

// The number of the base of each declared type, where that is declared.
fn bases_of(
    alloc: Global,
    schemas: &Schemas,
    numbers: &IndexMap<TypeName, usize>,
) -> Result<Vec<Option<usize>>, AllocError>
    requires { AreNumbers schemas.now numbers.now }
    ensures { IfOk result (λ bases. AreBases schemas.now bases.items) }
{
    let mut bases = Vec::new(alloc);
    for declared in schemas.types() {
        bases.push(number_of_base(numbers, declared))?;
    }
    Ok(bases)
}

// The number of the base of a declared type, where that is declared.
fn number_of_base(numbers: &IndexMap<TypeName, usize>, declared: &Declared) -> Option<usize>
    ensures { result ≡ get equal_kinds numbers.now declared.now.base }
{
    numbers.get(&declared.base).copied()
}

// Puts the columns of the types that item types ask for into a table.
fn add_columns(
    alloc: Global,
    schemas: &Schemas,
    bases: &[Option<usize>],
    items: &[ItemType],
    columns: &mut IndexMap<TypeName, Vec<bool>>,
) -> Result<(), AllocError>
    requires bases { AreBases schemas.now bases.now }
    requires columns { AreColumnsByKind schemas.now columns.old }
    ensures { AreColumnsByKind schemas.now columns.new }
{
    for item in items {
        if let Some(kind) = kind_asked(item) {
            add_column(alloc, schemas, bases, kind, columns)?;
        }
    }
    Ok(())
}

// The type that an item type asks for.
fn kind_asked(item: &ItemType) -> Option<&TypeName> {
    match item {
        ItemType::Element { kind, .. } | ItemType::Attribute { kind, .. } => Some(kind),
        ItemType::Document(Some((_, kind))) | ItemType::Atom(kind) => Some(kind),
        ItemType::Text | ItemType::Document(None) => None,
    }
}

// Puts the column of a type into a table, unless that of an equal one is there.
fn add_column(
    alloc: Global,
    schemas: &Schemas,
    bases: &[Option<usize>],
    kind: &TypeName,
    columns: &mut IndexMap<TypeName, Vec<bool>>,
) -> Result<(), AllocError>
    requires bases { AreBases schemas.now bases.now }
    requires columns { AreColumnsByKind schemas.now columns.old }
    ensures { AreColumnsByKind schemas.now columns.new }
{
    if columns.contains_key(kind) {
        return Ok(());
    }
    let column = column_of(alloc, schemas, bases, kind)?;
    columns.insert(kind.clone()?, column)?;
    Ok(())
}

// Whether each declared type is derived from a type. Each base is looked at twice at most.
fn column_of(
    alloc: Global,
    schemas: &Schemas,
    bases: &[Option<usize>],
    kind: &TypeName,
) -> Result<Vec<bool>, AllocError>
    requires { AreBases schemas.now bases.now }
    ensures { IfOk result (λ column. IsColumn schemas.now kind.now column.items) }
{
    let mut known = vec![in alloc; None; bases.len()]?;
    let mut column = Vec::new(alloc);
    for number in 0..bases.len() {
        let answer = answer(schemas, bases, known.as_slice(), kind, number);
        mark(schemas, bases, &mut known, kind, number, answer);
        column.push(answer)?;
    }
    Ok(column)
}

// Whether a declared type is derived from a type, where that is known of some.
fn answer(
    schemas: &Schemas,
    bases: &[Option<usize>],
    known: &[Option<bool>],
    kind: &TypeName,
    start: usize,
) -> bool
    requires bases { AreBases schemas.now bases.now }
    requires known { AreKnown schemas.now kind.now known.now }
    ensures { result ≡ is_derived_at schemas.now kind.now start }
{
    let mut at = start;
    for _step in 0..bases.len() {
        match lead(schemas, bases, known, kind, at) {
            Lead::Answer(answer) => return answer,
            Lead::Base(base) => at = base,
        }
    }
    derives_at(schemas, kind, at)
}

// Puts down what is known of a declared type, for it and for those on the way to the first base of which it was known.
fn mark(
    schemas: &Schemas,
    bases: &[Option<usize>],
    known: &mut Vec<Option<bool>>,
    kind: &TypeName,
    start: usize,
    answer: bool,
)
    requires bases { AreBases schemas.now bases.now }
    requires known { AreKnown schemas.now kind.now known.old.items }
    requires answer { answer ≡ is_derived_at schemas.now kind.now start }
    ensures { AreKnown schemas.now kind.now known.new.items }
{
    let mut at = start;
    for _step in 0..bases.len() {
        match mark_one(schemas, bases, known, kind, at, answer) {
            Some(base) => at = base,
            None => return,
        }
    }
}

// Puts down what is known of a declared type, and gives the number of its base, where it is to be put down for that too.
fn mark_one(
    schemas: &Schemas,
    bases: &[Option<usize>],
    known: &mut Vec<Option<bool>>,
    kind: &TypeName,
    at: usize,
    answer: bool,
) -> Option<usize>
    requires bases { AreBases schemas.now bases.now }
    requires known { AreKnown schemas.now kind.now known.old.items }
    requires answer { answer ≡ is_derived_at schemas.now kind.now at }
    ensures known { AreKnown schemas.now kind.now known.new.items }
    ensures base { IfSome result (λ base. answer ≡ is_derived_at schemas.now kind.now base) }
{
    let next = lead(schemas, bases, known.as_slice(), kind, at);
    put_down(known, at, answer);
    match next {
        Lead::Answer(_) => None,
        Lead::Base(base) => Some(base),
    }
}

// Puts down an answer for the declared type of a number.
fn put_down(known: &mut Vec<Option<bool>>, number: usize, answer: bool)
    ensures { known.new.items ≡ slice_set known.old.items number (Some answer) }
{
    if number < known.len() {
        known[number] = Some(answer);
    }
}

// One step of the way along the bases of a declared type.
fn lead(
    schemas: &Schemas,
    bases: &[Option<usize>],
    known: &[Option<bool>],
    kind: &TypeName,
    at: usize,
) -> Lead
    requires bases { AreBases schemas.now bases.now }
    requires known { AreKnown schemas.now kind.now known.now }
    ensures { IsLead schemas.now kind.now (is_derived_at schemas.now kind.now at) result }
{
    if let Some(Some(answer)) = known.get(at) {
        return Lead::Answer(*answer);
    }
    match (schemas.types().get(at), bases.get(at)) {
        (Some(declared), Some(base)) => lead_from(schemas, kind, declared, *base),
        _ => Lead::Answer(false),
    }
}

// The same from a declared type, with the number of its base, where that is declared.
fn lead_from(schemas: &Schemas, kind: &TypeName, declared: &Declared, base: Option<usize>) -> Lead
    requires declared { (number : ℕ) × (slice_get schemas.now.types number ≡ Some declared.now) }
    requires base { IfSome base (IsNumberOf schemas.now declared.now.base) }
    ensures { IsLead schemas.now kind.now (is_derived schemas.now declared.now.name kind.now) result }
{
    let _types = schemas.types();
    if declared.name == *kind {
        return Lead::Answer(true);
    }
    match base {
        Some(base) => Lead::Base(base),
        None => Lead::Answer(derives(schemas, &declared.base, kind)),
    }
}

// Whether the declared type of a number is derived from a type.
fn derives_at(schemas: &Schemas, kind: &TypeName, number: usize) -> bool
    ensures { result ≡ is_derived_at schemas.now kind.now number }
{
    match schemas.types().get(number) {
        Some(declared) => derives(schemas, &declared.name, kind),
        None => false,
    }
}
