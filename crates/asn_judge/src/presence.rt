//! What WITH COMPONENTS asks of the presence of parts (X.680 51.8.6 to 51.8.9).

ghost use Rattle.asn_meaning_shapes.specs.Answers.{known};
ghost use Rattle.asn_meaning_shapes.specs.Members.{shown_member, shown_members};
ghost use Rattle.asn_meaning_shapes.specs.Trees.{shown_fields};
ghost use Rattle.asn_meaning.specs.Answers.{answer_of, each};
ghost use Rattle.asn_meaning.specs.Constraints.{is_absent_word, is_choice_allowed, is_left_out, is_listed, must_be_present};
ghost use Rattle.asn_meaning.specs.ValueTrees.{field_named};
ghost use Rattle.std.specs.Prelude.{◌≡◌, ◌&&◌, ◌||◌, is_none, is_some, not};

use asn_meaning_shapes::{Answer, Field, Member, find_field};
use asn_tree::{ComponentPresence, ConstrainedComponent, InnerTypeConstraint};

/// Whether an alternative may be chosen, or not be: PRESENT asks that it is, ABSENT that it is not.
pub fn is_choice_allowed(presence: ComponentPresence, chosen: bool) -> bool
    ensures { result ≡ is_choice_allowed presence chosen }
{
    match presence {
        ComponentPresence::Present => chosen,
        ComponentPresence::Absent => !chosen,
        ComponentPresence::Optional => true,
        ComponentPresence::Unspecified => true,
    }
}

/// Whether a member is marked OPTIONAL, and has no DEFAULT.
fn is_optional(member: &Member<'_>) -> bool
    ensures { result ≡ ((shown_member member.now).written.is_optional && is_none (shown_member member.now).written.default_value) }
{
    member.written.is_optional && member.written.default_value.is_none()
}

/// Whether a member must be present: where PRESENT stands, and without `...` where it is marked OPTIONAL and no word stands.
pub fn must_be_present(is_partial: bool, presence: ComponentPresence, member: &Member<'_>) -> bool
    ensures { result ≡ must_be_present is_partial presence (shown_member member.now) }
{
    match presence {
        ComponentPresence::Present => true,
        ComponentPresence::Absent => false,
        ComponentPresence::Optional => false,
        ComponentPresence::Unspecified => !is_partial && is_optional(member),
    }
}

/// Whether the word is ABSENT.
pub fn is_absent_word(presence: ComponentPresence) -> bool
    ensures { result ≡ is_absent_word presence }
{
    match presence {
        ComponentPresence::Absent => true,
        ComponentPresence::Present => false,
        ComponentPresence::Optional => false,
        ComponentPresence::Unspecified => false,
    }
}

/// Whether a component of the name is listed.
#[tactic(auto, using(crate::proofs::Listing::listed_first))]
fn is_listed(listed: &[ConstrainedComponent], name: &str) -> bool
    ensures { result ≡ is_listed listed.now name.now }
{
    for component in listed {
        if component.identifier.as_str() == name {
            return true;
        }
    }
    false
}

/// Whether an alternative may be chosen that has the name: it is listed, or the list begins with `...` (X.680 51.8.8).
pub fn may_be_chosen(inner: &InnerTypeConstraint, name: &str) -> bool
    ensures { result ≡ (inner.now.is_partial || is_listed inner.now.constraints name.now) }
{
    inner.is_partial || is_listed(inner.constraints.as_slice(), name)
}

/// Whether a member is marked OPTIONAL or DEFAULT.
fn may_be_missing(member: &Member<'_>) -> bool
    ensures { result ≡ ((shown_member member.now).written.is_optional || is_some (shown_member member.now).written.default_value) }
{
    member.written.is_optional || member.written.default_value.is_some()
}

/// Whether no field has the name.
fn is_missing(fields: &[Field], name: &str) -> bool
    ensures { result ≡ is_none (field_named (shown_fields fields.now) name.now) }
{
    match find_field(fields, name) {
        None => true,
        Some(_) => false,
    }
}

/// Whether a member is absent, or must be present by its type.
fn is_absent_or_due(fields: &[Field], member: &Member<'_>) -> bool
    ensures { result ≡ (not ((shown_member member.now).written.is_optional || is_some (shown_member member.now).written.default_value) || is_none (field_named (shown_fields fields.now) (shown_member member.now).written.name)) }
{
    !may_be_missing(member) || is_missing(fields, member.written.name.as_str())
}

/// Whether a member that is not listed is absent where it may be, or the list begins with `...`.
#[tactic(auto, using(crate::proofs::Listing::left_out_free, crate::proofs::Listing::left_out_bound))]
fn is_left_out(inner: &InnerTypeConstraint, fields: &[Field], member: &Member<'_>) -> bool
    ensures { result ≡ is_left_out inner.now (shown_fields fields.now) (shown_member member.now) }
{
    if may_be_chosen(inner, member.written.name.as_str()) {
        return true;
    }
    is_absent_or_due(fields, member)
}

/// Whether each member that is not listed is absent where it may be, or the list begins with `...` (X.680 51.8.9).
#[tactic(auto, using(crate::proofs::Listing::member_next, crate::proofs::Listing::members_done))]
pub fn are_left_out(inner: &InnerTypeConstraint, fields: &[Field], members: &[Member<'_>]) -> Answer
    ensures { known result ≡ each (λ m. answer_of (is_left_out inner.now (shown_fields fields.now) m)) (shown_members members.now) }
{
    let mut answer = Answer::Yes;
    for member in members {
        let one = Answer::of(is_left_out(inner, fields, member));
        answer = answer.and(one);
    }
    answer
}
