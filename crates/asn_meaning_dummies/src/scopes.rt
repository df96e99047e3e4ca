//! Dummies of a scope.

ghost use Rattle.asn_meaning_heads.specs.Scopes.{shown};
ghost use Rattle.asn_names_index.specs.Classes.{shown_class};
ghost use Rattle.asn_needs.specs.Dummies.{class_in_scope, is_free_dummy};
ghost use Rattle.std.specs.Option.{option_map};
ghost use Rattle.std.specs.Prelude.{◌≡◌};

use asn_meaning_heads::Scope;
use asn_names_index::{Class, Names};

/// Whether the name is a dummy without an argument.
#[tactic(auto, using(crate::proofs::Handing::free_not, crate::proofs::Handing::free_bound, crate::proofs::Handing::free_open))]
pub fn is_free_dummy(scope: &Scope<'_>, name: &str) -> bool
    ensures { result ≡ is_free_dummy (shown scope.now) name.now }
{
    match scope.bound_to(name) {
        None => false,
        Some(bound) => match bound.argument {
            None => true,
            Some(_) => false,
        },
    }
}

/// The class that a name stands for in a scope. None: a dummy is no class, also where one of its name is defined (X.683 8.4).
pub fn class_in_scope<'a>(names: &Names<'a>, scope: &Scope<'_>, name: &str) -> Option<Class<'a>>
    ensures { option_map shown_class result ≡ class_in_scope names.now.definitions.now (shown scope.now) name.now }
{
    if scope.has_dummy(name) {
        None
    } else {
        names.class_named(name)
    }
}
