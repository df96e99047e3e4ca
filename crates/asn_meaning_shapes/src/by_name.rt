//! The fields of a struct and the members of a SEQUENCE or SET by their names, so that one of a name is found without a walk
//! over all.

ghost use Rattle.asn_meaning_shapes.specs.ByName.{HasFirsts, name_of_field, name_of_member, under_name};
ghost use Rattle.asn_meaning_shapes.specs.Members.{shown_member, shown_members};
ghost use Rattle.asn_meaning_shapes.specs.Trees.{shown_fields, shown_tree};
ghost use Rattle.asn_meaning_shapes.specs.declared.trees.Field.{out-Field};
ghost use Rattle.asn_meaning.specs.Members.{member_named, member_names};
ghost use Rattle.asn_meaning.specs.ValueTrees.{are_among, field_named, is_among};
ghost use Rattle.std.specs.Option.{option_map};
ghost use Rattle.std.specs.Prelude.{◌≡◌, if◌then◌else◌, ℕ, IfOk, List as Sequence, MatchOption, None, OnOk, Some};
ghost use Rattle.std.specs.Str.{bytes_eq};

use crate::members::Member;
use crate::trees::{Field, Tree};
use asn_memory::Mem;
use std::alloc::Global;
use std::collections::BTreeMap;

/// The fields of a struct, and the first field of each name. It borrows them.
#[derive(Drop)]
pub struct FieldsByName<'t> {
    pub(crate) fields: &'t [Field],
    found: BTreeMap<&'t str, &'t Field>,
    ghost has_firsts: { HasFirsts name_of_field fields.now found },
}

/// Members, and the first member of each name. It borrows them.
#[derive(Drop)]
pub struct MembersByName<'m, 'a> {
    pub(crate) members: &'m [Member<'a>],
    found: BTreeMap<&'m str, &'m Member<'a>>,
    ghost has_firsts: { HasFirsts name_of_member members.now found },
}

/// Puts a field under its name, in place of the one that is there.
///
/// Err: want of memory.
fn put_field<'t>(found: &mut BTreeMap<&'t str, &'t Field>, field: &'t Field) -> Mem<()>
    ensures { OnOk result ((name : Sequence ℕ) → under_name found.new name ≡ (if bytes_eq (name_of_field field.now) name then Some field.now else under_name found.old name)) }
{
    found.insert(field.name.as_str(), field)?;
    Ok(())
}

/// The first field of each name.
///
/// Err: want of memory.
#[tactic(auto, using(crate::proofs::Naming::none_left, crate::proofs::Naming::one_before))]
fn first_fields<'t>(alloc: Global, fields: &'t [Field]) -> Mem<BTreeMap<&'t str, &'t Field>>
    ensures { IfOk result (λ found. HasFirsts name_of_field fields.now found) }
{
    let mut found = BTreeMap::new(alloc);
    for at in (0..fields.len()).rev() {
        put_field(&mut found, &fields[at])?;
    }
    Ok(found)
}

/// Puts a member under its name, in place of the one that is there.
///
/// Err: want of memory.
fn put_member<'m, 'a>(
    found: &mut BTreeMap<&'m str, &'m Member<'a>>,
    member: &'m Member<'a>,
) -> Mem<()>
    ensures { OnOk result ((name : Sequence ℕ) → under_name found.new name ≡ (if bytes_eq (name_of_member member.now) name then Some member.now else under_name found.old name)) }
{
    found.insert(member.written.name.as_str(), member)?;
    Ok(())
}

/// The first member of each name.
///
/// Err: want of memory.
#[tactic(auto, using(crate::proofs::Naming::none_left, crate::proofs::Naming::one_before))]
fn first_members<'m, 'a>(
    alloc: Global,
    members: &'m [Member<'a>],
) -> Mem<BTreeMap<&'m str, &'m Member<'a>>>
    ensures { IfOk result (λ found. HasFirsts name_of_member members.now found) }
{
    let mut found = BTreeMap::new(alloc);
    for at in (0..members.len()).rev() {
        put_member(&mut found, &members[at])?;
    }
    Ok(found)
}

impl<'t> FieldsByName<'t> {
    /// The fields by their names.
    ///
    /// Err: want of memory.
    pub fn new(alloc: Global, fields: &'t [Field]) -> Mem<FieldsByName<'t>>
        ensures { IfOk result (λ by_name. by_name.fields.now ≡ fields.now) }
    {
        let found = first_fields(alloc, fields)?;
        Ok(FieldsByName { fields, found })
    }

    /// The tree of the first field of the name.
    #[tactic(auto, using(crate::proofs::Naming::no_field_found, crate::proofs::Naming::field_found))]
    pub fn tree(&self, name: &str) -> Option<&'t Tree>
        ensures { MatchOption result (field_named (shown_fields self.now.fields.now) name.now ≡ None) (λ tree. field_named (shown_fields self.now.fields.now) name.now ≡ Some (shown_tree tree.now)) }
    {
        match self.found.get(name) {
            None => None,
            Some(field) => Some(&field.tree),
        }
    }
}

impl<'m, 'a> MembersByName<'m, 'a> {
    /// The members by their names.
    ///
    /// Err: want of memory.
    pub fn new(alloc: Global, members: &'m [Member<'a>]) -> Mem<MembersByName<'m, 'a>>
        ensures { IfOk result (λ by_name. by_name.members.now ≡ members.now) }
    {
        let found = first_members(alloc, members)?;
        Ok(MembersByName { members, found })
    }

    /// The first member of the name.
    #[tactic(auto, using(crate::proofs::Naming::no_member_found, crate::proofs::Naming::member_found))]
    pub fn member(&self, name: &str) -> Option<&'m Member<'a>>
        ensures { option_map (λ member. shown_member member.now) result ≡ member_named (shown_members self.now.members.now) name.now }
    {
        match self.found.get(name) {
            None => None,
            Some(member) => Some(*member),
        }
    }

    /// Whether the field's name is a member's.
    #[tactic(auto, using(crate::proofs::Naming::found_is_among))]
    fn has_member_for(&self, field: &Field) -> bool
        ensures { result ≡ is_among (member_names (shown_members self.now.members.now)) (out-Field field.now).name }
    {
        self.member(field.name.as_str()).is_some()
    }

    /// Whether each field's name is a member's.
    #[tactic(auto, using(crate::proofs::Shaping::fields_in, crate::proofs::Shaping::fields_out, crate::proofs::Shaping::fields_done))]
    pub fn has_members_for(&self, fields: &[Field]) -> bool
        ensures { result ≡ are_among (member_names (shown_members self.now.members.now)) (shown_fields fields.now) }
    {
        for field in fields {
            if !self.has_member_for(field) {
                return false;
            }
        }
        true
    }
}
