// A type that many lists of shapes are tried on.

ghost use Rattle.std.specs.Prelude.{◌≡◌, ◌↔◌, IfOk, IsTrue};
ghost use Rattle.gx_types.specs.Takes.{Takes};

use crate::automaton::Automaton;
use crate::take::{SHORT, takes};
use gx_types::schemas::Schemas;
use gx_types::sequence_type::Ty;
use gx_types::shape::Shape;
use std::alloc::{AllocError, Global};
use std::marker::Model;

/// A type that many lists of shapes are tried on, and which keeps what it found, so that short lists that are alike cost little
/// (XQuery 1.0 and XPath 2.0 Formal Semantics, section 8.3). Contracts see the type and the schemas.
#[derive(Drop)]
pub struct Taker<'a> {
    schemas: &'a Schemas,
    t: &'a Ty,
    automaton: Automaton,
}

impl<'a> Model for Taker<'a> {
    ghost use Rattle.gx_types.specs.contracts.sequence_type.Ty as kinds;
    ghost use Rattle.std.specs.Coded.{codes};
    ghost use Rattle.gx_include_takes.specs.Automaton.{IsAutomaton};
    ghost use Rattle.gx_include_takes.specs.Tried.{Tried};

    ghost Value = { Tried };

    ghost coded = { Prim.hlevel (codes, kinds.the_row.coded) };

    ghost view = { λ taker. record { schemas = taker.schemas.now; model = taker.t.now } };

    ghost invariant = { λ taker. IsAutomaton taker.schemas.now taker.t.now taker.automaton.states.keys taker.automaton.targets };
}

impl<'a> Taker<'a> {
    /// A type for which nothing is found yet.
    pub fn new(alloc: Global, schemas: &'a Schemas, t: &'a Ty) -> Result<Taker<'a>, AllocError>
        ensures { IfOk result (λ taker. taker ≡ record { schemas = schemas.now; model = t.now }) }
    {
        let automaton = Automaton::new(alloc, t)?;
        Ok(Taker {
            schemas,
            t,
            automaton,
        })
    }

    /// Whether the type takes a list of shapes.
    pub fn takes(&mut self, alloc: Global, list: &[Shape]) -> Result<bool, AllocError>
        ensures same { self.new ≡ self.old }
        ensures answer { IfOk result (λ answer. IsTrue answer ↔ Takes self.old.schemas self.old.model list.now) }
    {
        if list.len() < SHORT {
            self.automaton.takes(alloc, self.schemas, self.t, list)
        } else {
            takes(alloc, self.schemas, self.t, list)
        }
    }
}
