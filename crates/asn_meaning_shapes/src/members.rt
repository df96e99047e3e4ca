//! A member of a SEQUENCE or SET, and the one of a name (X.680 25, 27).

ghost use Rattle.asn_meaning_shapes.specs.Members.{shown_member, shown_members};
ghost use Rattle.asn_meaning_heads.specs.Places.{shown_place};
ghost use Rattle.asn_meaning.specs.Members.{may_be_absent, member_named, member_place};
ghost use Rattle.std.specs.Option.{option_map};
ghost use Rattle.std.specs.Prelude.{◌≡◌, IfOk};

use asn_meaning_heads::{Place, Scope, TypeForm};
use asn_memory::Mem;
use asn_tree::SequenceOrSetMember;
use std::alloc::Global;

/// A member: the scope that it is read in, how it is written, and whether it is an addition (X.680 25.1).
#[derive(Drop)]
pub struct Member<'a> {
    pub scope: Scope<'a>,
    pub written: &'a SequenceOrSetMember,
    pub is_addition: bool,
}

impl<'a> Member<'a> {
    /// The member's type.
    ///
    /// Err: want of memory.
    pub fn place(&self, alloc: Global) -> Mem<Place<'a>>
        ensures { IfOk result (λ place. shown_place place ≡ member_place (shown_member self.now)) }
    {
        let scope = self.scope.copy(alloc)?;
        Ok(Place {
            scope,
            ty: TypeForm::Written(&self.written.ty),
        })
    }

    /// Whether a value may lack the member: it is OPTIONAL, has a DEFAULT, or is an addition (X.680 25.1).
    pub fn may_be_absent(&self) -> bool
        ensures { result ≡ may_be_absent (shown_member self.now) }
    {
        self.written.is_optional || (self.written.default_value.is_some() || self.is_addition)
    }
}

/// The first member of the name.
#[tactic(auto, using(crate::proofs::Membering::member_first))]
pub fn member_named<'m, 'a>(members: &'m [Member<'a>], name: &str) -> Option<&'m Member<'a>>
    ensures { option_map (λ member. shown_member member.now) result ≡ member_named (shown_members members.now) name.now }
{
    for member in members {
        if member.written.name.as_str() == name {
            return Some(member);
        }
    }
    None
}
