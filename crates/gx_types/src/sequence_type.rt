// Sequence types.

ghost use Rattle.std.specs.Prelude.{◌≡◌, IfOk, fold};
ghost use Rattle.gx_types.specs.SequenceType.{never, nothing, item};
ghost use Rattle.gx_types.specs.SameType.{same_type};
ghost use Rattle.gx_types.specs.HashInput.{type_writes};

use crate::item_type::ItemType;
use std::alloc::{AllocError, Global};
use std::hash::{Hash, Hasher};
use std::marker::Model;
use std::rc::Rc;

/// A type of values, which contracts see as a plain tree (XQuery 1.0 and XPath 2.0 Formal Semantics, section 2.4.1). Types
/// share their parts, so that a copy takes no more than one level. Equality and hash are part by part, and look at no prefix.
#[cycle(type_tree)]
pub struct Ty {
    pub node: TyNode,
}

/// One level of a type. `Never` is `none`, the type of no value, and `Empty` that of the empty sequence.
#[cycle(type_tree)]
#[derive(Drop)]
pub enum TyNode {
    Never,
    Empty,
    Item(Rc<ItemType>),
    Seq(Rc<Ty>, Rc<Ty>),
    Alt(Rc<Ty>, Rc<Ty>),
    Optional(Rc<Ty>),
    Star(Rc<Ty>),
    Plus(Rc<Ty>),
}

impl Model for Ty {
    ghost use Rattle.gx_types.specs.SequenceType.{SequenceType, type_size};
    ghost use Rattle.gx_types.specs.TypeCode.{type_code};

    ghost Value = { SequenceType };

    ghost coded = { type_code };

    ghost use Rattle.gx_types.specs.TypeView.{type_of};

    ghost view = { λ t. type_of t.node };

    ghost size = { type_size };

    ghost use Rattle.gx_types.specs.TypeParts.{type_parts_are_smaller};

    ghost size_decreases = { λ a h. type_parts_are_smaller a.node };
}

impl Drop for Ty {
    #[cycle(type_tree)]
    fn drop(self) {
        let Ty { node: _node } = self;
    }
}

impl Clone for Ty {
    ghost is_clone = { λ t copy. copy ≡ t };

    // The copy shares the parts.
    fn clone(&self) -> Result<Ty, AllocError> {
        let node = match &self.node {
            TyNode::Never => TyNode::Never,
            TyNode::Empty => TyNode::Empty,
            TyNode::Item(kind) => TyNode::Item(kind.clone()?),
            TyNode::Seq(first, second) => {
                let (first, second) = shared_twice(first, second)?;
                TyNode::Seq(first, second)
            }
            TyNode::Alt(first, second) => {
                let (first, second) = shared_twice(first, second)?;
                TyNode::Alt(first, second)
            }
            TyNode::Optional(part) => TyNode::Optional(part.clone()?),
            TyNode::Star(part) => TyNode::Star(part.clone()?),
            TyNode::Plus(part) => TyNode::Plus(part.clone()?),
        };
        Ok(Ty { node })
    }
}

impl PartialEq for Ty {
    ghost use Rattle.std.specs.Cmp.{partial_equiv_from_equiv};
    ghost use Rattle.gx_types.specs.SameType.{same_type};
    ghost use Rattle.gx_types.specs.TypeEquality.{types_are_equivalent};

    ghost eq = { same_type };

    ghost laws = { partial_equiv_from_equiv types_are_equivalent };

    fn eq(&self, other: &Ty) -> bool {
        self.same(other)
    }
}

impl Eq for Ty {
    ghost use Rattle.gx_types.specs.TypeEquality.{types_are_equivalent};

    ghost laws = { types_are_equivalent };
}

impl Hash for Ty {
    ghost use Rattle.gx_types.specs.HashInput.{type_writes};
    ghost use Rattle.gx_types.specs.KeyLaws.{equal_types_write_the_same};

    ghost hash_input = { type_writes };

    ghost respects_eq = { equal_types_write_the_same };

    fn hash<H: Hasher>(&self, state: &mut H) {
        write_type(self, state);
    }
}

// Two parts, shared once more.
fn shared_twice(first: &Rc<Ty>, second: &Rc<Ty>) -> Result<(Rc<Ty>, Rc<Ty>), AllocError>
    ensures first { IfOk result (λ parts. parts.0.value ≡ first.now.value) }
    ensures second { IfOk result (λ parts. parts.1.value ≡ second.now.value) }
{
    let first = first.clone()?;
    Ok((first, second.clone()?))
}

impl Ty {
    /// `none`, the type of no value.
    pub fn none() -> Ty
        ensures { result ≡ never }
    {
        Ty {
            node: TyNode::Never,
        }
    }

    /// The type of the empty sequence.
    pub fn empty() -> Ty
        ensures { result ≡ nothing }
    {
        Ty {
            node: TyNode::Empty,
        }
    }

    /// The type of one item.
    pub fn of_item(alloc: Global, kind: ItemType) -> Result<Ty, AllocError>
        ensures { IfOk result (λ t. t ≡ item kind) }
    {
        let node = TyNode::Item(Rc::new(alloc, kind)?);
        Ok(Ty { node })
    }

    /// Whether two types are equal part by part, where names are by their URIs and local parts.
    pub fn same(&self, other: &Ty) -> bool
        ensures { result ≡ same_type self.now other.now }
    {
        match (&self.node, &other.node) {
            (TyNode::Never, TyNode::Never) => true,
            (TyNode::Empty, TyNode::Empty) => true,
            (TyNode::Item(a), TyNode::Item(b)) => a.same(b),
            (TyNode::Seq(a, b), TyNode::Seq(c, d)) => a.same(c) && b.same(d),
            (TyNode::Alt(a, b), TyNode::Alt(c, d)) => a.same(c) && b.same(d),
            (TyNode::Optional(a), TyNode::Optional(b)) => a.same(b),
            (TyNode::Star(a), TyNode::Star(b)) => a.same(b),
            (TyNode::Plus(a), TyNode::Plus(b)) => a.same(b),
            _ => false,
        }
    }

    // The type as a part that others share.
    pub(crate) fn as_part(&self, alloc: Global) -> Result<Rc<Ty>, AllocError>
        ensures { IfOk result (λ part. part.value ≡ self.now) }
    {
        Ok(Rc::new(alloc, self.clone()?)?)
    }
}

// Writes a type to a hasher.
fn write_type<H: Hasher>(t: &Ty, state: &mut H)
    ensures { state.new ≡ fold H.write state.old (type_writes t.now) }
{
    match &t.node {
        TyNode::Never => state.write_u8(0),
        TyNode::Empty => state.write_u8(1),
        TyNode::Item(kind) => {
            let kind: &ItemType = kind;
            state.write_u8(2);
            kind.hash(state);
        }
        TyNode::Seq(first, second) => {
            state.write_u8(3);
            write_type(first, state);
            write_type(second, state);
        }
        TyNode::Alt(first, second) => {
            state.write_u8(4);
            write_type(first, state);
            write_type(second, state);
        }
        TyNode::Optional(part) => {
            state.write_u8(5);
            write_type(part, state);
        }
        TyNode::Star(part) => {
            state.write_u8(6);
            write_type(part, state);
        }
        TyNode::Plus(part) => {
            state.write_u8(7);
            write_type(part, state);
        }
    }
}
