//! Whether written fields may stand for the members of a SEQUENCE or SET (X.680 25.18, 27.7).

ghost use Rattle.asn_meaning_values.specs.Braces.{shown_named_values};
ghost use Rattle.asn_meaning_values.specs.inner.Structs.{all_stand, names_of, stands_or_lacks};
ghost use Rattle.asn_meaning.specs.Denotes.{are_distinct, may_stand};
ghost use Rattle.asn_meaning.specs.ValueTrees.{is_among};
ghost use Rattle.asn_meaning_shapes.specs.Members.{shown_member, shown_members};
ghost use Rattle.std.specs.Prelude.{◌≡◌, ◌≤◌, drop, length};

use crate::braces::NamedValue;
use asn_meaning_shapes::Member;

/// Whether a field has the name.
#[tactic(auto, using(crate::proofs::Fielding::named_first))]
fn is_named(fields: &[NamedValue<'_>], name: &str) -> bool
    ensures { result ≡ is_among (names_of (shown_named_values fields.now)) name.now }
{
    for field in fields {
        if field.name.as_str() == name {
            return true;
        }
    }
    false
}

/// The fields behind so many.
fn behind<'n, 'a>(fields: &'n [NamedValue<'a>], count: usize) -> &'n [NamedValue<'a>]
    requires { count ≤ length fields.now }
    ensures { result.now ≡ drop count fields.now }
{
    &fields[count..]
}

/// Whether no two fields share a name.
#[tactic(auto, using(crate::proofs::Fielding::distinct_next, crate::proofs::Fielding::distinct_lost, crate::proofs::Fielding::distinct_done))]
fn are_distinct(fields: &[NamedValue<'_>]) -> bool
    ensures { result ≡ are_distinct (names_of (shown_named_values fields.now)) }
{
    for i in 0..fields.len() {
        if is_named(behind(fields, i + 1), fields[i].name.as_str()) {
            return false;
        }
    }
    true
}

/// Whether a field has the member's name, or the member may be absent.
fn stands_or_lacks(fields: &[NamedValue<'_>], member: &Member<'_>) -> bool
    ensures { result ≡ stands_or_lacks (names_of (shown_named_values fields.now)) (shown_member member.now) }
{
    is_named(fields, member.written.name.as_str()) || member.may_be_absent()
}

/// Whether each member is there, or may be absent.
#[tactic(auto, using(crate::proofs::Fielding::stand_next, crate::proofs::Fielding::stand_lost, crate::proofs::Fielding::stand_done))]
fn all_stand(fields: &[NamedValue<'_>], members: &[Member<'_>]) -> bool
    ensures { result ≡ all_stand (names_of (shown_named_values fields.now)) (shown_members members.now) }
{
    for member in members {
        if !stands_or_lacks(fields, member) {
            return false;
        }
    }
    true
}

/// Whether the names of the fields are distinct, and each member that is none of them may be absent.
pub fn may_stand(fields: &[NamedValue<'_>], members: &[Member<'_>]) -> bool
    ensures { result ≡ may_stand (names_of (shown_named_values fields.now)) (shown_members members.now) }
{
    are_distinct(fields) && all_stand(fields, members)
}
