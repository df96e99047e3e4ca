//! Objects in their class's own syntax, item by item (X.681 10.12, 11.6).

ghost use Rattle.asn_names_index.specs.Classes.{shown_class};
ghost use Rattle.asn_meaning_heads.specs.Following.{at_first, earlier, ended, named, shown_fields, shown_walk, walked};
ghost use Rattle.asn_meaning_heads.specs.Objects.{shown_given};
ghost use Rattle.asn_meaning_heads.specs.Tokens.{marked_by, shown_behind, shown_token, tokens_by};
ghost use Rattle.asn_meaning.specs.Answers.{once};
ghost use Rattle.asn_meaning.specs.Definitions.{type_identifier};
ghost use Rattle.asn_meaning.specs.Objects.{applied, begins, follow_each, if_ended, optional_tokens, part_of, take_item};
ghost use Rattle.asn_tree_notation.specs.Syntax.{matches};
ghost use Rattle.std.specs.Option.{option_map};
ghost use Rattle.std.specs.Prelude.{◌≡◌, ◌∷◌, true, None, Some, drop, map};

use crate::matching::item_at;
use crate::objects::GivenField;
use crate::tokens::{Behind, Token, token_of};
use asn_memory::List;
use asn_names_index::Class;
use asn_tree::{SyntaxApplication, SyntaxExpression, SyntaxToken};

/// How far items have been followed: the first field of the name that is looked for, where one was met, and the items that
/// are left.
#[derive(Clone, Copy)]
pub struct Walk<'a> {
    pub found: Option<GivenField<'a>>,
    pub left: &'a [SyntaxApplication],
}

/// The items behind the first.
fn behind_first(items: &[SyntaxApplication]) -> &[SyntaxApplication]
    ensures { result.now ≡ drop 1 items.now }
{
    if items.len() < 1 { &[] } else { &items[1..] }
}

/// The field that was found before, else the one that is given, where it has the name.
#[tactic(auto, using(crate::proofs::Walking::has_name, crate::proofs::Walking::lacks_name, crate::proofs::Walking::earlier_none))]
fn earlier<'a>(
    found: Option<GivenField<'a>>,
    given: Option<GivenField<'a>>,
    name: &str,
) -> Option<GivenField<'a>>
    ensures { option_map shown_given result ≡ earlier (option_map shown_given found.entry) (named name.now (shown_fields given.entry)) }
{
    match (found, given) {
        (Some(found), _) => Some(found),
        (None, None) => None,
        (None, Some(given)) => {
            if given.name == name {
                Some(given)
            } else {
                None
            }
        }
    }
}

/// Takes the next item, where it may stand at the place of the token. None: it may not, or no item is left.
#[tactic(auto, using(crate::proofs::Walking::take_refused, crate::proofs::Walking::take_first))]
fn take_item<'a>(
    token: Token<'a>,
    behind: &Behind<'_, '_>,
    name: &str,
    walk: Walk<'a>,
) -> Option<Walk<'a>>
    ensures { option_map shown_walk result ≡ walked name.now (option_map shown_given walk.entry.found) (take_item (shown_token token.entry) (shown_behind behind.now) walk.entry.left.now) }
{
    match walk.left {
        [] => None,
        [item, ..] => match item_at(item, token, behind) {
            None => None,
            Some(given) => Some(Walk {
                found: earlier(walk.found, given, name),
                left: behind_first(walk.left),
            }),
        },
    }
}

/// Whether the item may stand at the token.
fn stands_at(item: &SyntaxApplication, token: &SyntaxToken, behind: &Behind<'_, '_>) -> bool
    ensures { result ≡ matches item.now token.now ((true, token.now) ∷ shown_behind behind.now) 0 }
{
    item_at(item, token_of(token), behind).is_some()
}

/// Whether the item may stand at the first token of a part of a group. None: the part has no token.
#[cycle(beginning)]
#[tactic(auto, using(crate::proofs::Walking::first_of_token, crate::proofs::Walking::first_of_group))]
fn stands_first<'p, 's>(
    part: &'p SyntaxExpression,
    behind: &'s Behind<'p, 's>,
    item: &SyntaxApplication,
) -> Option<bool>
    ensures { result ≡ at_first (marked_by true (part_of part.now).tokens) (shown_behind behind.now) item.now }
{
    match part {
        SyntaxExpression::Required(token) => Some(stands_at(item, token, behind)),
        SyntaxExpression::Optional(group) => stands_in_group(group, behind, item),
    }
}

/// Whether the item may stand at the first token of a group. None: the group has no token.
#[cycle(beginning)]
#[tactic(auto, using(crate::proofs::Walking::first_ends, crate::proofs::Walking::first_here, crate::proofs::Walking::first_past))]
fn stands_in_group<'p, 's>(
    group: &'p List<SyntaxExpression>,
    behind: &'s Behind<'p, 's>,
    item: &SyntaxApplication,
) -> Option<bool>
    ensures { result ≡ at_first (optional_tokens (map part_of group.now)) (shown_behind behind.now) item.now }
{
    let parts = group.as_slice();
    for i in 0..parts.len() {
        let rest = Behind::parts(group, i + 1, true, behind);
        let stands = stands_first(&parts[i], &rest, item);
        if stands.is_some() {
            return stands;
        }
    }
    None
}

/// Whether the next item stands at the place of a group's first token.
#[tactic(auto, using(crate::proofs::Walking::begins_tokenless, crate::proofs::Walking::begins_first))]
pub fn begins<'p, 's>(
    group: &'p List<SyntaxExpression>,
    behind: &'s Behind<'p, 's>,
    items: &[SyntaxApplication],
) -> bool
    ensures { result ≡ begins (optional_tokens (map part_of group.now)) (shown_behind behind.now) items.now }
{
    match items {
        [] => false,
        [item, ..] => match stands_in_group(group, behind, item) {
            None => false,
            Some(stands) => stands,
        },
    }
}

/// Follows a part: a token takes the next item, and a group is taken whole where its first token stands, and else left out
/// (X.681 10.12). None: the items do not follow it.
#[cycle(following)]
#[tactic(auto, using(crate::proofs::Walking::part_of_token, crate::proofs::Walking::part_of_group, crate::proofs::Walking::part_left_out))]
fn follow_part<'s, 'a>(
    part: &'a SyntaxExpression,
    behind: &'s Behind<'a, 's>,
    name: &str,
    walk: Walk<'a>,
) -> Option<Walk<'a>>
    ensures { option_map shown_walk result ≡ walked name.now (option_map shown_given walk.entry.found) ((part_of part.now).follow (shown_behind behind.now) walk.entry.left.now) }
{
    match part {
        SyntaxExpression::Required(token) => take_item(token_of(token), behind, name, walk),
        SyntaxExpression::Optional(group) => {
            if begins(group, behind, walk.left) {
                follow_each(group, true, behind, name, walk)
            } else {
                Some(walk)
            }
        }
    }
}

/// Follows parts in order, those of a group or of a whole syntax. None: the items do not follow them.
#[cycle(following)]
#[tactic(auto, using(crate::proofs::Walking::each_ends, crate::proofs::Walking::each_fails, crate::proofs::Walking::each_next))]
fn follow_each<'s, 'a>(
    parts: &'a List<SyntaxExpression>,
    grouped: bool,
    behind: &'s Behind<'a, 's>,
    name: &str,
    walk: Walk<'a>,
) -> Option<Walk<'a>>
    ensures { option_map shown_walk result ≡ walked name.now (option_map shown_given walk.entry.found) (follow_each (tokens_by grouped) (map part_of parts.now) (shown_behind behind.now) walk.entry.left.now) }
{
    let items = parts.as_slice();
    let mut walk = walk;
    for i in 0..items.len() {
        let rest = Behind::parts(parts, i + 1, grouped, behind);
        match follow_part(&items[i], &rest, name, walk) {
            None => return None,
            Some(next) => walk = next,
        }
    }
    Some(walk)
}

/// What was found, where no item is left.
fn if_ended<'a>(walk: Walk<'a>) -> Option<GivenField<'a>>
    ensures { option_map shown_given result ≡ ended (shown_walk walk.entry) }
{
    match walk.left {
        [] => walk.found,
        [_, ..] => None,
    }
}

/// The first field of the name that items give which follow the syntax of the built-in class, `{ &Type IDENTIFIED BY &id }`
/// (X.681 A.2). None: they do not follow it, or give no field of the name.
#[tactic(auto, using(crate::proofs::Walking::built_in_first, crate::proofs::Walking::built_in_second, crate::proofs::Walking::built_in_third, crate::proofs::Walking::built_in_fourth, crate::proofs::Walking::built_in_ends))]
fn built_in<'a>(items: &'a [SyntaxApplication], name: &str) -> Option<GivenField<'a>>
    ensures { option_map shown_given result ≡ once None (applied type_identifier.syntax items.now) (named name.now) }
{
    let walk = Walk {
        found: None,
        left: items,
    };
    let walk = take_item(
        Token::TypePlace("&Type"),
        &Behind::word("IDENTIFIED"),
        name,
        walk,
    )?;
    let walk = take_item(Token::Word("IDENTIFIED"), &Behind::end(), name, walk)?;
    let walk = take_item(Token::Word("BY"), &Behind::end(), name, walk)?;
    let walk = take_item(Token::ValuePlace("&id"), &Behind::end(), name, walk)?;
    if_ended(walk)
}

/// The first field of the name that items give which follow the class's own syntax: they match its tokens in order, and
/// none is left. None: the class has no syntax, the items do not follow it, or they give no field of the name.
#[tactic(auto, using(crate::proofs::Walking::syntax_fails, crate::proofs::Walking::syntax_followed))]
pub fn applied<'a>(
    class: Class<'a>,
    items: &'a [SyntaxApplication],
    name: &str,
) -> Option<GivenField<'a>>
    ensures { option_map shown_given result ≡ once None (applied (shown_class class.entry).syntax items.now) (named name.now) }
{
    match class {
        Class::TypeIdentifier => built_in(items, name),
        Class::Written(class) => match &class.syntax {
            None => None,
            Some(syntax) => {
                let walk = Walk {
                    found: None,
                    left: items,
                };
                let walk = follow_each(&syntax.expressions, false, &Behind::end(), name, walk)?;
                if_ended(walk)
            }
        },
    }
}
