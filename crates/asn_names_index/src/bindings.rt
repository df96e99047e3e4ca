//! Scopes as numbers: what the dummies of each template that was entered stand for.

ghost use Rattle.asn_names_index.specs.Bindings.{Keeps, Known, below, shown, shown_bound};
ghost use Rattle.asn_names_index.specs.Dummies.{binding};
ghost use Rattle.asn_meaning.specs.Scopes.{Empty, bound_to, entered};
ghost use Rattle.std.specs.Option.{option_map};
ghost use Rattle.std.specs.Prelude.{◌≡◌, ◌≤◌, IfOk, Some, length};

use crate::dummies::pair_of;
use asn_memory::{List, Mem};
use asn_tree::{Parameter, ParameterGovernor, Parameterization};
use std::alloc::Global;

/// A template with its arguments, which are read in the scope of this number.
#[derive(Clone, Copy)]
struct Level<'t> {
    template: &'t Parameterization,
    arguments: &'t List<Parameter>,
    scope: usize,
}

/// What the dummies of each template that was entered stand for. Scopes are numbers: 0 binds nothing, and each template that is
/// entered has the next. A scope is never copied.
#[derive(Drop)]
pub struct Bindings<'t> {
    levels: List<Level<'t>>,
}

/// A dummy's governor with its argument, and the number of the scope that the argument is read in.
#[derive(Clone, Copy)]
pub struct Bound<'t> {
    pub argument: &'t Parameter,
    pub scope: usize,
    pub governor: &'t ParameterGovernor,
}

/// The number, where it is below the bound; else 0.
fn below(number: usize, bound: usize) -> usize
    ensures { result ≡ below number bound }
{
    if number < bound { number } else { 0 }
}

impl<'t> Bindings<'t> {
    /// Nothing is entered yet: 0 is the only scope.
    ///
    /// # Errors
    ///
    /// Want of memory.
    #[tactic(auto, using(crate::proofs::Showing::shown_nothing))]
    pub fn new(alloc: Global) -> Mem<Bindings<'t>>
        ensures { IfOk result (λ bindings. shown bindings 0 ≡ Empty) }
    {
        Ok(Bindings {
            levels: List::new(alloc),
        })
    }

    /// Enters a template with an argument list that is written in `scope`, and gives the number of the template's scope: it binds the
    /// dummies of this template alone, each to the argument at its place, which is read in `scope` (X.683 9.7). A dummy without an
    /// argument, and each behind it, stays unbound; further arguments are ignored. A `scope` that no template was entered for reads as
    /// 0. All scopes that there were stay as they are.
    ///
    /// # Errors
    ///
    /// Want of memory.
    #[tactic(auto, using(crate::proofs::Showing::entered_full, crate::proofs::Showing::entered_all, crate::proofs::Showing::keeps_same, crate::proofs::Showing::keeps_more))]
    pub fn enter(
        &mut self,
        template: &'t Parameterization,
        arguments: &'t List<Parameter>,
        scope: usize,
    ) -> Mem<usize>
        ensures keeps { Keeps self.old self.new }
        ensures known { IfOk result (λ inner. Known self.new inner) }
        ensures binds { IfOk result (λ inner. shown self.new inner ≡ binding (shown self.old scope) template.now.parameters arguments.now) }
        ensures entered { length template.now.parameters ≤ length arguments.now →
            IfOk result (λ inner. Some (shown self.new inner) ≡ entered (shown self.old scope) template.now.parameters arguments.now) }
    {
        self.levels.add(Level {
            template,
            arguments,
            scope,
        })?;
        Ok(self.levels.len())
    }

    /// What the scope binds the name to: the first dummy of the name counts.
    #[tactic(auto, using(crate::proofs::Looking::bound_nowhere, crate::proofs::Looking::bound_past, crate::proofs::Looking::bound_not, crate::proofs::Looking::bound_inside))]
    pub fn look(&self, scope: usize, dummy: &str) -> Option<Bound<'t>>
        ensures { option_map (shown_bound self.now) result ≡ bound_to (shown self.now scope) dummy.now }
    {
        if scope == 0 {
            return None;
        }
        match self.levels.get(scope - 1) {
            None => None,
            Some(level) => {
                let dummies = level.template.parameters.as_slice();
                let arguments = level.arguments.as_slice();
                match pair_of(dummies, arguments, dummy) {
                    None => None,
                    Some(pair) => {
                        let scope = below(level.scope, scope);
                        Some(Bound {
                            argument: pair.argument,
                            scope,
                            governor: pair.governor,
                        })
                    }
                }
            }
        }
    }
}
