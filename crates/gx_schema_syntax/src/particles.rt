// What is written of particles.

ghost use Rattle.std.specs.Prelude.{◌≡◌, IfOk};
ghost use Rattle.gx_xml.specs.SourceView.{contents_of};
ghost use Rattle.gx_schema_syntax.specs.Declarations.{group_reference, local_element, model_group, particle_written, particles_written};
ghost use Rattle.gx_schema_syntax.specs.ParticleTree.{particles_of};
ghost use Rattle.gx_qnames.specs.ScopeView.{declared_in};

use crate::children::given_value;
use crate::context::Context;
use crate::declarations::{bounds_written, local_declaration, local_namespace, text_or_empty};
use crate::numbers::{Numbers, numbers_behind, numbers_inside};
use crate::role::Compositor;
use crate::words::{is_annotation, is_schema_element};
use crate::written::{Particle, Term};
use gx_base::type_name::Builtin;
use gx_qnames::reference::reference_in;
use gx_qnames::scope::{Scope, within};
use gx_xml::source::{SourceChild, SourceElement};
use std::alloc::{AllocError, Global};

fn local_element<'a>(
    alloc: Global,
    context: &Context,
    scope: &Scope<'a>,
    at: Numbers,
    element: &'a SourceElement,
) -> Result<Particle, AllocError>
    ensures { IfOk result (λ particle. particle ≡ local_element context.entry.now (declared_in scope.entry.now) at element.entry.now) }
{
    let scope = within(alloc, scope, &element.declarations)?;
    let attributes = element.attributes.as_slice();
    let uri = local_namespace(
        alloc,
        &context.target,
        context.elements_are_qualified,
        attributes,
    )?;
    let bounds = bounds_written(alloc, attributes)?;
    let declaration = local_declaration(
        alloc,
        Builtin::AnyType,
        &uri,
        &scope,
        attributes,
        &element.children,
        at.anonymous,
    )?;
    Ok(Particle {
        place: at.element,
        bounds,
        term: Term::Element(declaration),
    })
}

fn group_reference<'a>(
    alloc: Global,
    scope: &Scope<'a>,
    at: Numbers,
    element: &'a SourceElement,
) -> Result<Particle, AllocError>
    ensures { IfOk result (λ particle. particle ≡ group_reference (declared_in scope.entry.now) at element.entry.now) }
{
    let scope = within(alloc, scope, &element.declarations)?;
    let value = text_or_empty(alloc, given_value("ref", &element.attributes))?;
    let reference = reference_in(alloc, &scope, &value)?;
    let bounds = bounds_written(alloc, &element.attributes)?;
    Ok(Particle {
        place: at.element,
        bounds,
        term: Term::Group(reference),
    })
}

/// The particle of an element: a sequence, a choice, a group that is referred to, or else a local element.
#[cycle(particles)]
pub fn particle_written<'a>(
    alloc: Global,
    context: &Context,
    scope: &Scope<'a>,
    at: Numbers,
    element: &'a SourceElement,
) -> Result<Particle, AllocError>
    ensures { IfOk result (λ particle. particle ≡ particle_written context.entry.now (declared_in scope.entry.now) at element.entry.now) }
{
    if is_schema_element("sequence", &element.name) {
        return model_group(alloc, context, scope, at, Compositor::Sequence, element);
    }
    if is_schema_element("choice", &element.name) {
        return model_group(alloc, context, scope, at, Compositor::Choice, element);
    }
    if is_schema_element("group", &element.name) {
        return group_reference(alloc, scope, at, element);
    }
    local_element(alloc, context, scope, at, element)
}

#[cycle(particles)]
fn model_group<'a>(
    alloc: Global,
    context: &Context,
    scope: &Scope<'a>,
    at: Numbers,
    compositor: Compositor,
    element: &'a SourceElement,
) -> Result<Particle, AllocError>
    ensures { IfOk result (λ particle. particle ≡ model_group context.entry.now (declared_in scope.entry.now) at compositor element.entry.now) }
{
    let scope = within(alloc, scope, &element.declarations)?;
    let inside = numbers_inside(at, element)?;
    let bounds = bounds_written(alloc, &element.attributes)?;
    let particles = particles_written(alloc, context, &scope, inside, &element.children)?;
    Ok(Particle {
        place: at.element,
        bounds,
        term: Term::Model(compositor, particles),
    })
}

#[cycle(particles)]
#[tactic(auto, using(crate::proofs::ParticleLemmas::particle_rules))]
fn particles_written<'a>(
    alloc: Global,
    context: &Context,
    scope: &Scope<'a>,
    at: Numbers,
    children: &'a [SourceChild],
) -> Result<Vec<Particle>, AllocError>
    ensures { IfOk result (λ particles. particles_of particles.items ≡ particles_written context.entry.now (declared_in scope.entry.now) at (contents_of children.entry.now)) }
{
    let mut particles = Vec::new(alloc);
    let mut at = at;
    let mut left = children;
    while let Some((child, others)) = left.split_first() {
        if let SourceChild::Element(element) = child
            && !is_annotation(&element.name)
        {
            particles.push(particle_written(alloc, context, scope, at, element)?)?;
            at = numbers_behind(at, element)?;
        }
        left = others;
    }
    Ok(particles)
}
