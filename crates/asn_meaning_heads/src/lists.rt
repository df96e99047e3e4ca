//! Argument lists behind the names of templates (X.683 9.1).

ghost use Rattle.asn_meaning_heads.specs.Lists.{counted, shown_lists, with_layer};
ghost use Rattle.asn_meaning.specs.Names.{lists_in};
ghost use Rattle.asn_tree.specs.declared.constraints.Constraint.{out-Constraint};
ghost use Rattle.std.specs.Prelude.{◌≡◌};

use asn_memory::List;
use asn_tree::{Constraint, Parameter};

/// The argument lists behind a name, as far as they count: none, the one list, or that there are several.
#[derive(Clone, Copy)]
pub enum ArgumentLists<'a> {
    Nothing,
    One(&'a List<Parameter>),
    Several,
}

/// The lists with that of a constraint, where it is an argument list.
fn with_constraint<'a>(lists: ArgumentLists<'a>, constraint: &'a Constraint) -> ArgumentLists<'a>
    ensures { shown_lists result ≡ with_layer (shown_lists lists.entry) (out-Constraint constraint.now) }
{
    match constraint {
        Constraint::SubtypeConstraint(_) => lists,
        Constraint::TableConstraint(_) => lists,
        Constraint::Parameter(arguments) => match lists {
            ArgumentLists::Nothing => ArgumentLists::One(arguments),
            ArgumentLists::One(_) => ArgumentLists::Several,
            ArgumentLists::Several => ArgumentLists::Several,
        },
        Constraint::ContentConstraint(_) => lists,
    }
}

/// The argument lists that stand among the constraints behind a name (X.683 9.1).
#[tactic(auto, using(crate::proofs::Listing::joined_next))]
pub fn argument_lists<'a>(constraints: &'a [Constraint]) -> ArgumentLists<'a>
    ensures { shown_lists result ≡ counted (lists_in constraints.now) }
{
    let mut lists = ArgumentLists::Nothing;
    for constraint in constraints {
        lists = with_constraint(lists, constraint);
    }
    lists
}
