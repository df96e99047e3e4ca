//! Objects in their class's own syntax, part by part (X.681 10.12, 11.6).

ghost use Rattle.asn_meaning_fields.specs.Given.{shown_given_fields};
ghost use Rattle.asn_meaning_fields.specs.inner.Walks.{shown_walk, walked};
ghost use Rattle.asn_meaning_heads.specs.Tokens.{shown_behind, tokens_by};
ghost use Rattle.asn_meaning.specs.Objects.{follow_each, part_of};
ghost use Rattle.std.specs.Option.{option_map};
ghost use Rattle.std.specs.Prelude.{◌≡◌, IfOk, map};

use crate::walks::{Walk, take_item};
use asn_meaning_heads::{Behind, begins, token_of};
use asn_memory::{List, Mem};
use asn_tree::SyntaxExpression;

/// Follows a part: a token takes the next item, and a group is taken whole where its first token stands, and else left out
/// (X.681 10.12). None: the items do not follow it.
///
/// Err: want of memory.
#[cycle(following)]
#[tactic(auto, using(asn_meaning_heads::proofs::Walking::part_of_token, asn_meaning_heads::proofs::Walking::part_of_group, crate::proofs::Walking::part_left_out))]
fn follow_part<'s, 'a>(
    part: &'a SyntaxExpression,
    behind: &'s Behind<'a, 's>,
    walk: Walk<'a>,
) -> Mem<Option<Walk<'a>>>
    ensures { IfOk result (λ next. option_map shown_walk next ≡ walked (shown_given_fields walk.entry.fields) ((part_of part.now).follow (shown_behind behind.now) walk.entry.left.now)) }
{
    match part {
        SyntaxExpression::Required(token) => {
            let next = take_item(token_of(token), behind, walk)?;
            Ok(next)
        }
        SyntaxExpression::Optional(group) => {
            if begins(group, behind, walk.left) {
                let next = follow_each(group, true, behind, walk)?;
                Ok(next)
            } else {
                Ok(Some(walk))
            }
        }
    }
}

/// Follows parts in order, those of a group or of a whole syntax. None: the items do not follow them.
///
/// Err: want of memory.
#[cycle(following)]
#[tactic(auto, using(crate::proofs::Walking::each_ends, crate::proofs::Walking::each_fails, crate::proofs::Walking::each_next))]
pub fn follow_each<'s, 'a>(
    parts: &'a List<SyntaxExpression>,
    grouped: bool,
    behind: &'s Behind<'a, 's>,
    walk: Walk<'a>,
) -> Mem<Option<Walk<'a>>>
    ensures { IfOk result (λ next. option_map shown_walk next ≡ walked (shown_given_fields walk.entry.fields) (follow_each (tokens_by grouped) (map part_of parts.now) (shown_behind behind.now) walk.entry.left.now)) }
{
    let items = parts.as_slice();
    let mut walk = walk;
    for i in 0..items.len() {
        let rest = Behind::parts(parts, i + 1, grouped, behind);
        match follow_part(&items[i], &rest, walk)? {
            None => return Ok(None),
            Some(next) => walk = next,
        }
    }
    Ok(Some(walk))
}
