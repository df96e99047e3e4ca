//! How far the items of an object have been followed, and one item more (X.681 11.6).

ghost use Rattle.asn_meaning_fields.specs.Given.{shown_given_fields};
ghost use Rattle.asn_meaning_fields.specs.inner.Walks.{shown_walk, walked};
ghost use Rattle.asn_meaning_heads.specs.Following.{shown_fields};
ghost use Rattle.asn_meaning_heads.specs.Objects.{shown_given};
ghost use Rattle.asn_meaning_heads.specs.Tokens.{shown_behind, shown_token};
ghost use Rattle.asn_meaning.specs.Objects.{if_ended, take_item};
ghost use Rattle.std.specs.Option.{option_map};
ghost use Rattle.std.specs.Prelude.{◌≡◌, ◌++◌, ◌∷◌, [], IfOk};

use asn_meaning_heads::{Behind, GivenField, Token, item_at};
use asn_memory::{List, Mem};
use asn_tree::SyntaxApplication;

/// How far items have been followed: the fields that were given, in order, and the items that are left.
#[derive(Drop)]
pub struct Walk<'a> {
    pub fields: List<GivenField<'a>>,
    pub left: &'a [SyntaxApplication],
}

/// The fields with one more at the end.
///
/// Err: want of memory.
#[tactic(auto, using(crate::proofs::Walking::one_more))]
pub fn with_field<'a>(
    fields: List<GivenField<'a>>,
    field: GivenField<'a>,
) -> Mem<List<GivenField<'a>>>
    ensures { IfOk result (λ more. shown_given_fields more ≡ shown_given_fields fields.entry ++ shown_given field.entry ∷ []) }
{
    let mut fields = fields;
    fields.add(field)?;
    Ok(fields)
}

/// The fields with the one that an item gives, where it gives one.
///
/// Err: want of memory.
#[tactic(auto, using(crate::proofs::Walking::nothing_more))]
fn with_given<'a>(
    fields: List<GivenField<'a>>,
    given: Option<GivenField<'a>>,
) -> Mem<List<GivenField<'a>>>
    ensures { IfOk result (λ more. shown_given_fields more ≡ shown_given_fields fields.entry ++ shown_fields given.entry) }
{
    match given {
        None => Ok(fields),
        Some(field) => {
            let fields = with_field(fields, field)?;
            Ok(fields)
        }
    }
}

/// Takes an item, which gives this field or none, and leaves these behind it.
///
/// Err: want of memory.
fn taken<'a>(
    walk: Walk<'a>,
    given: Option<GivenField<'a>>,
    left: &'a [SyntaxApplication],
) -> Mem<Walk<'a>>
    ensures { IfOk result (λ next. shown_walk next ≡ (shown_given_fields walk.entry.fields ++ shown_fields given.entry, left.now)) }
{
    let Walk { fields, left: _ } = walk;
    let fields = with_given(fields, given)?;
    Ok(Walk { fields, left })
}

/// Takes the next item, where it may stand at the place of the token. None: it may not, or no item is left.
///
/// Err: want of memory.
#[tactic(auto, using(crate::proofs::Walking::take_none, crate::proofs::Walking::take_some))]
pub fn take_item<'a>(
    token: Token<'a>,
    behind: &Behind<'_, '_>,
    walk: Walk<'a>,
) -> Mem<Option<Walk<'a>>>
    ensures { IfOk result (λ next. option_map shown_walk next ≡ walked (shown_given_fields walk.entry.fields) (take_item (shown_token token.entry) (shown_behind behind.now) walk.entry.left.now)) }
{
    match walk.left {
        [] => Ok(None),
        [item, ..] => match item_at(item, token, behind) {
            None => Ok(None),
            Some(given) => {
                let left = &walk.left[1..];
                let next = taken(walk, given, left)?;
                Ok(Some(next))
            }
        },
    }
}

/// The fields that were given, where no item is left.
pub fn if_ended<'a>(walk: Walk<'a>) -> Option<List<GivenField<'a>>>
    ensures { option_map shown_given_fields result ≡ if_ended (shown_walk walk.entry) }
{
    let Walk { fields, left } = walk;
    match left {
        [] => Some(fields),
        [_, ..] => None,
    }
}
