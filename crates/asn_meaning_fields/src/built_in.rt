//! Objects of the built-in class, `{ &Type IDENTIFIED BY &id }` (X.681 A.2).

ghost use Rattle.asn_meaning_fields.specs.Given.{shown_given_fields};
ghost use Rattle.asn_meaning_fields.specs.inner.Walks.{built_in_walked, shown_walk};
ghost use Rattle.std.specs.Option.{option_map};
ghost use Rattle.std.specs.Prelude.{◌≡◌, IfOk};

use crate::walks::{Walk, take_item};
use asn_meaning_heads::{Behind, Token};
use asn_memory::Mem;

/// Follows the syntax of the built-in class. None: the items do not follow it.
///
/// Err: want of memory.
pub fn follow_built_in<'a>(walk: Walk<'a>) -> Mem<Option<Walk<'a>>>
    ensures { IfOk result (λ next. option_map shown_walk next ≡ built_in_walked (shown_given_fields walk.entry.fields) walk.entry.left.now) }
{
    let behind = Behind::word("IDENTIFIED");
    let Some(walk) = take_item(Token::TypePlace("&Type"), &behind, walk)? else {
        return Ok(None);
    };
    let Some(walk) = take_item(Token::Word("IDENTIFIED"), &Behind::end(), walk)? else {
        return Ok(None);
    };
    let Some(walk) = take_item(Token::Word("BY"), &Behind::end(), walk)? else {
        return Ok(None);
    };
    let next = take_item(Token::ValuePlace("&id"), &Behind::end(), walk)?;
    Ok(next)
}
