//! What stands for contents (X.682 11).

ghost use Rattle.asn_meaning_heads.specs.Scopes.{shown};
ghost use Rattle.asn_link_instance.specs.Instance.{content_bound, content_instance};
ghost use Rattle.asn_meaning.specs.Judge.{meaning};
ghost use Rattle.asn_link_values.specs.Choosing.{chosen, instances};
ghost use Rattle.asn_tree.specs.declared.constraints.ContentConstraint.{out-ContentConstraint};
ghost use Rattle.std.specs.Option.{option_map};
ghost use Rattle.std.specs.Prelude.{◌≡◌, IfOk};

use crate::linking::types::type_in;
use crate::room::Room;
use crate::trees::{containing, containing_encoded, encoded};
use crate::writing::rules_written;
use asn_copy_linked::copy_content_constraint;
use asn_link_values::is_outside;
use asn_meaning_heads::Scope;
use asn_memory::Mem;
use asn_names_index::Names;
use asn_tree::{ASN1Type, ContentConstraint};
use std::alloc::Global;

/// A content: it stays in a scope without dummies.
#[cycle(linking)]
#[tactic(auto, using(crate::proofs::Contents::content_outside, crate::proofs::Contents::content_inside))]
pub(super) fn content_instance<'a>(
    alloc: Global,
    names: &Names<'a>,
    steps: usize,
    levels: usize,
    room: &mut Room,
    scope: &Scope<'a>,
    content: &'a ContentConstraint,
) -> Mem<Option<ContentConstraint>>
    ensures { IfOk result (λ made. made ≡ content_instance chosen names.now.definitions.now (meaning names.now.definitions.now steps) (instances names.now.definitions.now steps levels) (shown scope.now) content.now) }
{
    if is_outside(scope) {
        let copy = copy_content_constraint(alloc, content)?;
        return Ok(Some(copy));
    }
    let made = content_bound(alloc, names, steps, levels, room, scope, content)?;
    Ok(made)
}

/// The type that is contained, and the encoding rules, each as it is in the scope.
#[cycle(linking)]
fn content_bound<'a>(
    alloc: Global,
    names: &Names<'a>,
    steps: usize,
    levels: usize,
    room: &mut Room,
    scope: &Scope<'a>,
    content: &'a ContentConstraint,
) -> Mem<Option<ContentConstraint>>
    ensures { IfOk result (λ made. option_map out-ContentConstraint made ≡ content_bound chosen names.now.definitions.now (meaning names.now.definitions.now steps) (instances names.now.definitions.now steps levels) (shown scope.now) (out-ContentConstraint content.now)) }
{
    match content {
        ContentConstraint::Containing(ty) => {
            let made = contained_type(alloc, names, steps, levels, room, scope, ty)?;
            Ok(containing(made))
        }
        ContentConstraint::EncodedBy(rules) => {
            let made = rules_written(alloc, names, steps, scope, rules)?;
            Ok(encoded(made))
        }
        ContentConstraint::ContainingEncodedBy {
            containing,
            encoded_by,
        } => {
            let Some(ty) = contained_type(alloc, names, steps, levels, room, scope, containing)?
            else {
                return Ok(None);
            };
            let rules = rules_written(alloc, names, steps, scope, encoded_by)?;
            Ok(containing_encoded(ty, rules))
        }
    }
}

/// What stands for a type that is contained: as for any other, since every name may stay.
#[cycle(linking)]
#[tactic(auto, using(crate::proofs::Contents::contained_so))]
fn contained_type<'a>(
    alloc: Global,
    names: &Names<'a>,
    steps: usize,
    levels: usize,
    room: &mut Room,
    scope: &Scope<'a>,
    ty: &'a ASN1Type,
) -> Mem<Option<ASN1Type>>
    ensures { IfOk result (λ made. made ≡ (instances names.now.definitions.now steps levels).of_contained (shown scope.now) ty.now) }
{
    let made = type_in(alloc, names, steps, levels, room, false, scope, ty)?;
    Ok(made)
}
