//! Making trees of the parts that a text has: what the constructors of several rooms share.
//!
//! For want of memory all parts are dropped: a call hands what it holds to `beside`, which is proved once for any type,
//! so that no proof goes through the drops of the trees again.

ghost use Rattle.asn_tree_equality.specs.Making.{listed, marked, lines_joined};
ghost use Rattle.std.specs.Option.{option_copied};
ghost use Rattle.std.specs.Prelude.{◌≡◌, ◌+◌, ◌++◌, IfOk, Ok, map};

use asn_memory::{Box, List, Mem, Text};
use std::alloc::Global;

/// What was made and what the caller holds meanwhile, which is dropped where memory was wanting.
pub fn beside<M, T: Drop>(made: Mem<M>, held: T) -> Mem<(M, T)>
    ensures made { IfOk result (λ both. made ≡ Ok both.0) }
    ensures held { IfOk result (λ both. both.1 ≡ held) }
{
    match made {
        Ok(made) => Ok((made, held)),
        Err(wanting) => Err(wanting),
    }
}

/// The list, or the empty one where it is absent.
pub fn listed<T>(alloc: Global, list: Option<List<T>>) -> List<T>
    ensures { result ≡ listed list }
{
    match list {
        Some(list) => list,
        None => List::new(alloc),
    }
}

/// Where a marker stands, how many items stand before it.
pub fn marked<M: Drop>(marker: Option<M>, count: usize) -> Option<usize>
    ensures { result ≡ marked marker count }
{
    match marker {
        Some(_) => Some(count),
        None => None,
    }
}

/// The items of both lists, those of the second behind those of the first.
pub fn appended<T: Drop>(first: List<T>, second: Option<List<T>>) -> Mem<List<T>>
    ensures { IfOk result (λ all. all ≡ first ++ listed second) }
{
    let mut all = first;
    if let Some(second) = second {
        all.append(second)?;
    }
    Ok(all)
}

/// Comments, joined by line feeds.
pub fn joined(alloc: Global, comments: &[&str]) -> Mem<Text>
    ensures { IfOk result (λ text. text ≡ lines_joined (map (λ c. c.now) comments.now)) }
{
    let mut text = Text::new(alloc, "")?;
    let mut is_first = true;
    for comment in comments {
        if !is_first {
            text.push_str("\n")?;
        }
        text.push_str(comment)?;
        is_first = false;
    }
    Ok(text)
}

/// Texts of their own with the same bytes, in their order.
pub fn texts_of(alloc: Global, names: &[&str]) -> Mem<List<Text>>
    ensures { IfOk result (λ texts. texts ≡ map (λ n. n.now) names.now) }
{
    let mut texts = List::new(alloc);
    for name in names {
        texts.add(Text::new(alloc, name)?)?;
    }
    Ok(texts)
}

/// The pairs in their order, each with its second part on the heap.
pub fn boxed_each<O: Copy, T: Drop>(alloc: Global, pairs: List<(O, T)>) -> Mem<List<(O, Box<T>)>>
    ensures { IfOk result (λ boxed. boxed ≡ pairs) }
{
    let mut boxed = List::new(alloc);
    for (first, second) in pairs.into_vec() {
        boxed.add((first, Box::new(alloc, second)?))?;
    }
    Ok(boxed)
}

/// A text of its own with the same bytes, where one is given.
pub fn optional_text(alloc: Global, text: Option<&str>) -> Mem<Option<Text>>
    ensures { IfOk result (λ made. made ≡ option_copied text.entry) }
{
    match text {
        Some(text) => Ok(Some(Text::new(alloc, text)?)),
        None => Ok(None),
    }
}
