//! Places: a type with the scope that it is read in; and where names lead.

ghost use Rattle.asn_meaning_heads.specs.Places.{shown_place, shown_target};
ghost use Rattle.asn_meaning_heads.specs.Kinds.{shown_type};
ghost use Rattle.asn_meaning_heads.specs.Scopes.{shown};
ghost use Rattle.asn_meaning.specs.Scopes.{Empty, bare};
ghost use Rattle.asn_meaning.specs.Placed.{listed};
ghost use Rattle.std.specs.Option.{option_copied};
ghost use Rattle.std.specs.Prelude.{◌≡◌, IfOk};

use crate::kinds::TypeForm;
use crate::scopes::Scope;
use asn_memory::{List, Mem};
use asn_tree::Constraint;
use std::alloc::Global;

/// A type, and the scope that it is read in.
#[derive(Drop)]
pub struct Place<'a> {
    pub scope: Scope<'a>,
    pub ty: TypeForm<'a>,
}

/// Where a name leads: a type at its place, and the constraints that come along behind it, to be read in the same
/// scope; None stands for no constraints.
#[derive(Drop)]
pub struct Target<'a> {
    pub place: Place<'a>,
    pub constraints: Option<&'a List<Constraint>>,
}

impl<'a> Place<'a> {
    /// A copy of the place: of its scope, and of no tree.
    ///
    /// Err: want of memory.
    pub fn copy(&self, alloc: Global) -> Mem<Place<'a>>
        ensures { IfOk result (λ copy. shown_place copy ≡ shown_place self.now) }
    {
        let scope = self.scope.copy(alloc)?;
        Ok(Place { scope, ty: self.ty })
    }
}

impl<'a> Target<'a> {
    /// The constraints that come along.
    pub fn constraints(&self) -> &'a [Constraint]
        ensures { result.now ≡ listed (option_copied self.now.constraints) }
    {
        match self.constraints {
            None => &[],
            Some(constraints) => constraints.as_slice(),
        }
    }

    /// A type in a scope, with nothing behind it.
    pub fn bare(scope: Scope<'a>, ty: TypeForm<'a>) -> Target<'a>
        ensures { shown_target result ≡ bare (shown scope.entry) (shown_type ty.entry) }
    {
        Target {
            place: Place { scope, ty },
            constraints: None,
        }
    }

    /// A type in the empty scope, with nothing behind it.
    pub fn outside(ty: TypeForm<'a>) -> Target<'a>
        ensures { shown_target result ≡ bare Empty (shown_type ty.entry) }
    {
        Target {
            place: Place {
                scope: Scope::Empty,
                ty,
            },
            constraints: None,
        }
    }
}
