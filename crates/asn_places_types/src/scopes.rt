//! The scope that an argument list gives.

ghost use Rattle.asn_meaning_heads.specs.Scopes.{shown};
ghost use Rattle.asn_needs.specs.Dummies.{filled};
ghost use Rattle.std.specs.Prelude.{◌≡◌, IfOk};

use asn_meaning_heads::Scope;
use asn_memory::Mem;
use asn_tree::{Parameter, ParameterizationArgument};
use std::alloc::Global;
use std::rc::Rc;

/// The scope that an argument list on a template gives, which is read in `scope`; a dummy without an argument stands for
/// none (X.683 8.4, 9.7).
///
/// Err: want of memory.
#[tactic(auto, using(crate::proofs::Filling::filled_entered))]
pub fn filled<'a>(
    alloc: Global,
    scope: &Scope<'a>,
    dummies: &'a [ParameterizationArgument],
    arguments: &'a [Parameter],
) -> Mem<Scope<'a>>
    ensures { IfOk result (λ inner. shown inner ≡ filled (shown scope.now) dummies.now arguments.now) }
{
    let scope = Rc::new(alloc, scope.copy(alloc)?)?;
    Ok(Scope::Entered {
        dummies,
        arguments,
        scope,
    })
}
