//! Scopes: what a template's dummies stand for.

ghost use Rattle.asn_meaning_heads.specs.Scopes.{shown, shown_argument, shown_bound};
ghost use Rattle.asn_meaning_heads.specs.inner.Dummies.{held, read_in, shown_held};
ghost use Rattle.asn_meaning.specs.Scopes.{bound_to};
ghost use Rattle.std.specs.Option.{option_copied, option_map};
ghost use Rattle.std.specs.Prelude.{◌≡◌, IfOk, is_some, slice_get};

use asn_memory::Mem;
use asn_tree::{Parameter, ParameterGovernor, ParameterizationArgument};
use std::alloc::Global;
use std::rc::Rc;

/// Where names are looked up before the definitions (X.683 8.4). It borrows the arguments and copies none; a copy shares the
/// scope that the arguments are read in.
pub enum Scope<'a> {
    /// No dummies: the scope of a definition without parameters.
    Empty,
    /// A template's dummies with their arguments, which are read in a scope of their own. A dummy without an argument stands
    /// for none; arguments beyond the dummies bind nothing.
    Entered {
        dummies: &'a [ParameterizationArgument],
        arguments: &'a [Parameter],
        scope: Rc<Scope<'a>>,
    },
}

/// A loop, so that a long chain of scopes takes no stack.
impl<'a> Drop for Scope<'a> {
    fn drop(mut self) {
        loop {
            match self {
                Scope::Empty => return,
                Scope::Entered {
                    dummies: _,
                    arguments: _,
                    scope,
                } => match Rc::into_inner(scope) {
                    None => return,
                    Some(inner) => self = inner,
                },
            }
        }
    }
}

/// An argument, and the scope that it is read in.
#[derive(Clone, Copy)]
pub struct Argument<'s, 'a> {
    pub tree: &'a Parameter,
    pub scope: &'s Scope<'a>,
}

/// A dummy's governor, and its argument, where it has one.
#[derive(Clone, Copy)]
pub struct Bound<'s, 'a> {
    pub governor: &'a ParameterGovernor,
    pub argument: Option<Argument<'s, 'a>>,
}

/// One more owner of a scope.
///
/// Err: want of memory, where the count of owners is full.
fn shared<'a>(scope: &Rc<Scope<'a>>) -> Mem<Rc<Scope<'a>>>
    ensures { IfOk result (λ copy. copy.value ≡ scope.now.value) }
{
    Ok(scope.clone()?)
}

/// A dummy's governor with its argument, where it has one.
#[derive(Clone, Copy)]
struct Held<'a> {
    governor: &'a ParameterGovernor,
    argument: Option<&'a Parameter>,
}

/// The argument of this number, where there is one.
fn argument_at<'a>(arguments: &'a [Parameter], number: usize) -> Option<&'a Parameter>
    ensures { option_copied result ≡ slice_get arguments.now number }
{
    arguments.get(number)
}

/// The first dummy of the name with the argument at its place, where there is one (X.683 9.7).
#[tactic(auto, using(crate::proofs::Holding::none_left, crate::proofs::Holding::has_name, crate::proofs::Holding::lacks_name))]
fn dummy_of<'a>(
    dummies: &'a [ParameterizationArgument],
    arguments: &'a [Parameter],
    name: &str,
) -> Option<Held<'a>>
    ensures { option_map shown_held result ≡ held dummies.now arguments.now name.now }
{
    for i in 0..dummies.len() {
        if dummies[i].dummy_reference.as_str() == name {
            let argument = argument_at(arguments, i);
            return Some(Held {
                governor: &dummies[i].param_governor,
                argument,
            });
        }
    }
    None
}

/// The argument, read in this scope.
fn read_in<'s, 'a>(
    argument: Option<&'a Parameter>,
    scope: &'s Scope<'a>,
) -> Option<Argument<'s, 'a>>
    ensures { option_map shown_argument result ≡ read_in (shown scope.now) (option_copied argument.entry) }
{
    match argument {
        None => None,
        Some(tree) => Some(Argument { tree, scope }),
    }
}

impl<'a> Scope<'a> {
    /// Whether the name is one of the scope's dummies (X.683 8.4).
    pub fn has_dummy(&self, name: &str) -> bool
        ensures { result ≡ is_some (bound_to (shown self.now) name.now) }
    {
        self.bound_to(name).is_some()
    }

    /// What the scope binds the name to: the first dummy of the name counts.
    #[tactic(auto, using(crate::proofs::Scoping::bound_outside, crate::proofs::Scoping::bound_not, crate::proofs::Scoping::bound_inside))]
    pub fn bound_to<'s>(&'s self, name: &str) -> Option<Bound<'s, 'a>>
        ensures { option_map shown_bound result ≡ bound_to (shown self.now) name.now }
    {
        match self {
            Scope::Empty => None,
            Scope::Entered {
                dummies,
                arguments,
                scope,
            } => match dummy_of(dummies, arguments, name) {
                None => None,
                Some(held) => {
                    let scope = scope.as_ref();
                    let argument = read_in(held.argument, scope);
                    Some(Bound {
                        governor: held.governor,
                        argument,
                    })
                }
            },
        }
    }

    /// A copy of the scope, which shares the scope that its arguments are read in.
    ///
    /// Err: want of memory, where the count of owners is full.
    #[tactic(auto, using(crate::proofs::Scoping::same_empty, crate::proofs::Scoping::same_entered))]
    pub fn copy(&self, _alloc: Global) -> Mem<Scope<'a>>
        ensures { IfOk result (λ copy. shown copy ≡ shown self.now) }
    {
        match self {
            Scope::Empty => Ok(Scope::Empty),
            Scope::Entered {
                dummies,
                arguments,
                scope,
            } => {
                let scope = shared(scope)?;
                Ok(Scope::Entered {
                    dummies,
                    arguments,
                    scope,
                })
            }
        }
    }
}
