//! The names that stay in what linking made.

ghost use Rattle.asn_link_closed.specs.Closed.{has_field, is_left_open, is_open, names_left, plain_name, plain_names};
ghost use Rattle.asn_link_closed.specs.Lent.{shown_staying_name, shown_staying_names};
ghost use Rattle.std.specs.Prelude.{◌≡◌, ◌++◌, IfOk, OnOk, map};

use crate::names::StayingName;
use crate::types::staying_names;
use asn_memory::{List, Mem, Text};
use asn_tree::{ASN1Type, ToplevelDefinition};
use std::alloc::Global;

/// The names that stay in what was made of a definition.
pub(crate) fn names_left<'t>(
    alloc: Global,
    made: &'t Option<ASN1Type>,
) -> Mem<List<StayingName<'t>>>
    ensures { IfOk result (λ names. shown_staying_names names ≡ names_left made.now) }
{
    match made {
        None => Ok(List::new(alloc)),
        Some(ty) => {
            let names = staying_names(alloc, ty)?;
            Ok(names)
        }
    }
}

/// Adds a name that stands alone.
fn add_plain<'t>(names: &mut List<&'t Text>, staying: &StayingName<'t>) -> Mem<()>
    ensures { OnOk result (map (λ n. n.now) names.new ≡ map (λ n. n.now) names.old ++ plain_name (shown_staying_name staying.now)) }
{
    match staying.object {
        None => names.add(staying.name),
        Some(_) => Ok(()),
    }
}

/// Those of these names that stand alone, in their order.
pub(crate) fn plain_names<'t>(alloc: Global, staying: &[StayingName<'t>]) -> Mem<List<&'t Text>>
    ensures { IfOk result (λ names. map (λ n. n.now) names ≡ plain_names (shown_staying_names staying.now)) }
{
    let mut names = List::new(alloc);
    for name in staying {
        add_plain(&mut names, name)?;
    }
    Ok(names)
}

/// Whether one of these names stands behind that of an object.
pub(crate) fn has_field(staying: &[StayingName<'_>]) -> bool
    ensures { result ≡ has_field (shown_staying_names staying.now) }
{
    for name in staying {
        if name.object.is_some() {
            return true;
        }
    }
    false
}

/// Whether a definition is open.
///
/// Err: want of memory.
pub(crate) fn is_open(
    alloc: Global,
    definition: &ToplevelDefinition,
    made: &Option<ASN1Type>,
) -> Mem<bool>
    ensures { IfOk result (λ told. told ≡ is_open definition.now made.now) }
{
    match definition {
        ToplevelDefinition::TypeDef(_) => is_left_open(alloc, made),
        ToplevelDefinition::Value(_) => Ok(false),
        ToplevelDefinition::Information(_) => Ok(false),
    }
}

/// Whether a type was not made, or a field of an object stays in it.
///
/// Err: want of memory.
fn is_left_open(alloc: Global, made: &Option<ASN1Type>) -> Mem<bool>
    ensures { IfOk result (λ told. told ≡ is_left_open made.now) }
{
    match made {
        None => Ok(true),
        Some(ty) => {
            let names = staying_names(alloc, ty)?;
            Ok(has_field(names.as_slice()))
        }
    }
}
