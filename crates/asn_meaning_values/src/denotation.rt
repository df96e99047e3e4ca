//! What a value denotes: a tree, none, or unknown.

ghost use Rattle.asn_meaning_values.specs.Denotation.{shown_denotation};
ghost use Rattle.asn_meaning_shapes.specs.Answers.{known};
ghost use Rattle.asn_meaning_shapes.specs.Trees.{shown_tree};
ghost use Rattle.asn_meaning.specs.Answers.{if_any, provided};
ghost use Rattle.std.specs.Option.{option_map};
ghost use Rattle.std.specs.Prelude.{◌≡◌};

use asn_meaning_shapes::{Answer, Tree};

/// What is denoted: a tree, none, or unknown.
#[derive(Drop)]
pub enum Denotation<T> {
    /// This is denoted.
    Denoted(T),
    /// Nothing is denoted.
    Nothing,
    /// A name leads nowhere.
    Unsure,
}

/// Denoted where there is one, else none.
pub fn if_any(tree: Option<Tree>) -> Denotation<Tree>
    ensures { shown_denotation result ≡ if_any (option_map shown_tree tree) }
{
    match tree {
        None => Denotation::Nothing,
        Some(tree) => Denotation::Denoted(tree),
    }
}

/// The tree where the answer is yes; none where it is no.
pub fn provided(answer: Answer, tree: Tree) -> Denotation<Tree>
    ensures { shown_denotation result ≡ provided (known answer) (shown_tree tree) }
{
    match answer {
        Answer::Yes => Denotation::Denoted(tree),
        Answer::No => Denotation::Nothing,
        Answer::Unknown => Denotation::Unsure,
    }
}
