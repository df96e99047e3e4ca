//! Definitions: whether linking leaves one as it is, and the type references that occur in it.

ghost use Rattle.asn_meaning_unchanged.specs.References.{names_of};
ghost use Rattle.asn_meaning_unchanged.specs.Unchanged.{is_left, is_unchanged, linking};
ghost use Rattle.std.specs.Prelude.{◌≡◌, IfOk, map};

use crate::references::add_type;
use crate::types::{is_left, linking_of};
use asn_memory::{List, Mem, Text};
use asn_tree::{ASN1Type, ToplevelDefinition};
use std::alloc::Global;

/// Whether linking leaves the definition as it is, told by its form: it is that of a type without parameters, and outside contents
/// and tables there is in it, at any depth, no argument list, `COMPONENTS OF`, selection, class's field, field of an object, no
/// value's name in a constraint or a default, no constraint behind a type reference, no plain name at the head of a contained
/// subtype, no `WITH COMPONENT` or `WITH COMPONENTS`, and no value of several parts in a constraint.
#[tactic(auto, unfolding(crate::specs::Unchanged::is_unchanged))]
pub fn is_unchanged(definition: &ToplevelDefinition) -> bool
    ensures { result ≡ is_unchanged definition.now }
{
    match definition {
        ToplevelDefinition::TypeDef(definition) => {
            definition.parameterization.is_none() && is_left(linking_of(&definition.ty))
        }
        ToplevelDefinition::Value(_) => false,
        ToplevelDefinition::Information(_) => false,
    }
}

/// Whether linking leaves the type as it is, told by its form, as that of a definition.
pub fn is_unchanged_type(ty: &ASN1Type) -> bool
    ensures { result ≡ is_left (linking ty.now) }
{
    is_left(linking_of(ty))
}

/// The type references that occur in the type of a type definition, at any depth, in order; none of any other definition.
///
/// # Errors
///
/// Want of memory alone.
#[tactic(auto, unfolding(crate::specs::References::names_of))]
pub fn type_references(alloc: Global, definition: &ToplevelDefinition) -> Mem<List<&Text>>
    ensures { IfOk result (λ names. map (λ n. n.now) names ≡ names_of definition.now) }
{
    let mut names = List::new(alloc);
    match definition {
        ToplevelDefinition::TypeDef(definition) => add_type(&mut names, &definition.ty)?,
        ToplevelDefinition::Value(_) => (),
        ToplevelDefinition::Information(_) => (),
    }
    Ok(names)
}
