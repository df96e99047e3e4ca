//! Where a name leads (X.680 14.1, X.683 8.3, 9).

ghost use Rattle.asn_meaning_heads.specs.Kinds.{shown_reference};
ghost use Rattle.asn_meaning_heads.specs.Places.{shown_target};
ghost use Rattle.asn_meaning_heads.specs.Scopes.{shown, shown_bound};
ghost use Rattle.asn_meaning.specs.Names.{dummy_target, lists_in, name_target, null_type, reference_target, type_argument};
ghost use Rattle.asn_meaning.specs.Scopes.{bound_to};
ghost use Rattle.asn_meaning.specs.Written.{as_written};
ghost use Rattle.asn_tree.specs.declared.constraints.Parameter.{out-Parameter};
ghost use Rattle.std.specs.Option.{option_map};
ghost use Rattle.std.specs.Prelude.{◌≡◌, IfOk, []};

use crate::kinds::{Reference, TypeForm};
use crate::lists::{ArgumentLists, argument_lists};
use crate::objects::field_target;
use crate::places::{Place, Target};
use crate::scopes::{Bound, Scope};
use crate::templates::instance;
use crate::written::{Written, as_written};
use asn_memory::Mem;
use asn_names_index::Names;
use asn_tree::{ASN1Value, Constraint, Parameter, ParameterGovernor};
use std::alloc::Global;

/// The value NULL stands for the type NULL; no other value stands for a type.
fn null_type<'a>(value: &ASN1Value) -> Option<Target<'a>>
    ensures { option_map shown_target result ≡ null_type (as_written value.now) }
{
    match as_written(value) {
        Written::Null => {
            let target = Target::outside(TypeForm::Null);
            Some(target)
        }
        Written::All => None,
        Written::Truth(_) => None,
        Written::Number(_) => None,
        Written::Real(_) => None,
        Written::Text(_) => None,
        Written::Bits(_) => None,
        Written::BitNames(_) => None,
        Written::Octets(_) => None,
        Written::Arcs(_) => None,
        Written::Item(_) => None,
        Written::Name { .. } => None,
        Written::Braces(_) => None,
        Written::Fields(_) => None,
        Written::Elements(_) => None,
        Written::Alternative { .. } => None,
        Written::Nested(_) => None,
    }
}

/// The type that an argument is, read in the argument's scope; the value NULL stands for the type NULL.
///
/// Err: want of memory.
fn type_argument<'a>(
    alloc: Global,
    tree: &'a Parameter,
    scope: &Scope<'a>,
) -> Mem<Option<Target<'a>>>
    ensures { IfOk result (λ target. option_map shown_target target ≡ type_argument (shown scope.now) (out-Parameter tree.now)) }
{
    match tree {
        Parameter::ValueParameter(value) => Ok(null_type(value)),
        Parameter::TypeParameter(ty) => {
            let scope = scope.copy(alloc)?;
            let place = Place {
                scope,
                ty: TypeForm::Written(ty),
            };
            Ok(Some(Target {
                place,
                constraints: None,
            }))
        }
        Parameter::InformationObjectParameter(_) => Ok(None),
        Parameter::ObjectSetParameter(_) => Ok(None),
    }
}

/// What a dummy without governor stands for: its type argument, read in the argument's scope (X.683 8.3). None where it
/// has a governor or no argument.
///
/// Err: want of memory.
fn dummy_type<'s, 'a>(alloc: Global, bound: Bound<'s, 'a>) -> Mem<Option<Target<'a>>>
    ensures { IfOk result (λ target. option_map shown_target target ≡ dummy_target (shown_bound bound.entry) (shown_bound bound.entry).governor []) }
{
    match (bound.governor, bound.argument) {
        (ParameterGovernor::None, Some(argument)) => {
            type_argument(alloc, argument.tree, argument.scope)
        }
        (ParameterGovernor::None, None) => Ok(None),
        (ParameterGovernor::TypeOrClass(_), _) => Ok(None),
        (ParameterGovernor::Class(_), _) => Ok(None),
    }
}

/// What a dummy stands for under the argument lists behind it: no list stands on a dummy.
///
/// Err: want of memory.
#[tactic(auto, using(crate::proofs::Listing::dummy_alone, crate::proofs::Listing::dummy_with_list, crate::proofs::Listing::dummy_with_lists))]
pub fn dummy_target<'s, 'a>(
    alloc: Global,
    bound: Bound<'s, 'a>,
    constraints: &'a [Constraint],
) -> Mem<Option<Target<'a>>>
    ensures { IfOk result (λ target. option_map shown_target target ≡ dummy_target (shown_bound bound.entry) (shown_bound bound.entry).governor (lists_in constraints.now)) }
{
    match argument_lists(constraints) {
        ArgumentLists::Nothing => dummy_type(alloc, bound),
        ArgumentLists::One(_) => Ok(None),
        ArgumentLists::Several => Ok(None),
    }
}

/// Where a plain name leads under the argument lists behind it: a dummy's argument, else a type definition (X.680 14.1).
///
/// Err: want of memory.
#[tactic(auto, using(crate::proofs::Leading::name_of_dummy, crate::proofs::Leading::name_of_none, crate::proofs::Leading::name_of_definition))]
pub fn name_target<'a>(
    alloc: Global,
    names: &Names<'a>,
    scope: &Scope<'a>,
    name: &str,
    constraints: &'a [Constraint],
) -> Mem<Option<Target<'a>>>
    ensures { IfOk result (λ target. option_map shown_target target ≡ name_target names.now.definitions.now (shown scope.now) name.now (lists_in constraints.now) (bound_to (shown scope.now) name.now)) }
{
    match scope.bound_to(name) {
        Some(bound) => {
            let target = dummy_target(alloc, bound, constraints)?;
            Ok(target)
        }
        None => match names.type_named(name) {
            None => Ok(None),
            Some(definition) => {
                let target = instance(alloc, scope, definition, constraints)?;
                Ok(target)
            }
        },
    }
}

/// Where a type reference leads: its name, or the field of an object (X.681 15.1).
///
/// Err: want of memory.
pub fn reference_target<'a>(
    alloc: Global,
    names: &Names<'a>,
    scope: &Scope<'a>,
    reference: Reference<'a>,
) -> Mem<Option<Target<'a>>>
    ensures { IfOk result (λ target. option_map shown_target target ≡ reference_target names.now.definitions.now (shown scope.now) (shown_reference reference.entry)) }
{
    match reference {
        Reference::Named(name) => {
            let target = name_target(alloc, names, scope, name.as_str(), &[])?;
            Ok(target)
        }
        Reference::Written(reference) => {
            let name = reference.identifier.as_str();
            match &reference.parent {
                None => {
                    let constraints = reference.constraints.as_slice();
                    let target = name_target(alloc, names, scope, name, constraints)?;
                    Ok(target)
                }
                Some(parent) => {
                    let target = field_target(alloc, names, scope, parent.as_str(), name)?;
                    Ok(target)
                }
            }
        }
    }
}
