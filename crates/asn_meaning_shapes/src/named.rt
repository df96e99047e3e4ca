//! The types of parts by their names (X.680 25, 27, 29).

ghost use Rattle.asn_meaning_heads.specs.Places.{shown_place};
ghost use Rattle.asn_meaning_heads.specs.Scopes.{shown};
ghost use Rattle.asn_meaning.specs.Answers.{once};
ghost use Rattle.asn_meaning.specs.Members.{member_named, member_place};
ghost use Rattle.asn_meaning.specs.Names.{option_named};
ghost use Rattle.asn_meaning.specs.Shapes.{option_place};
ghost use Rattle.asn_meaning_shapes.specs.Members.{shown_members};
ghost use Rattle.std.specs.Option.{option_map};
ghost use Rattle.std.specs.Prelude.{◌≡◌, IfOk, None, Some};

use crate::members::{Member, member_named};
use asn_meaning_heads::{Place, Scope, TypeForm, option_named};
use asn_memory::Mem;
use asn_tree::ChoiceOption;
use std::alloc::Global;

/// The type of the first option of the name, in this scope; None where no option has the name (X.680 29.1).
///
/// Err: want of memory.
pub fn option_type<'a>(
    alloc: Global,
    scope: &Scope<'a>,
    options: &'a [ChoiceOption],
    name: &str,
) -> Mem<Option<Place<'a>>>
    ensures { IfOk result (λ found. option_map shown_place found ≡ once None (option_named options.now name.now) (λ o. Some (option_place (shown scope.now) o))) }
{
    match option_named(options, name) {
        None => Ok(None),
        Some(option) => {
            let scope = scope.copy(alloc)?;
            Ok(Some(Place {
                scope,
                ty: TypeForm::Written(&option.ty),
            }))
        }
    }
}

/// The type of the first member of the name; None where no member has the name (X.680 25.1).
///
/// Err: want of memory.
pub fn member_type<'a>(alloc: Global, members: &[Member<'a>], name: &str) -> Mem<Option<Place<'a>>>
    ensures { IfOk result (λ found. option_map shown_place found ≡ once None (member_named (shown_members members.now) name.now) (λ m. Some (member_place m))) }
{
    match member_named(members, name) {
        None => Ok(None),
        Some(member) => {
            let place = member.place(alloc)?;
            Ok(Some(place))
        }
    }
}
