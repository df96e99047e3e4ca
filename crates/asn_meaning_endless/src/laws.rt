//! Laws of names that come back to themselves, each the contract of a function without a body.

ghost use Rattle.asn_meaning_endless.specs.Laws.{ArrivalOnceRound, AskedAgainTreeless, ComesBackHeadless, ComesBackUnhung};
ghost use Rattle.asn_meaning_endless.specs.Laws.{FollowedOnceRound, IncludesMemberless, NameAsks};

/// A type whose name, or field of an object or a class, comes back to itself has no head within any number of steps,
/// whatever its arguments are.
pub fn comes_back_headless()
    ensures { ComesBackHeadless }
{}

/// Nor does following its names arrive at a dummy reference without an argument.
pub fn comes_back_unhung()
    ensures { ComesBackUnhung }
{}

/// A SEQUENCE or SET that includes its own members by COMPONENTS OF has none that are known within any number of steps.
pub fn includes_memberless()
    ensures { IncludesMemberless }
{}

/// What is followed from a type that comes back to itself is its own name and what is followed once round.
pub fn followed_once_round()
    ensures { FollowedOnceRound }
{}

/// Nor are other names met on the way to the plain name at which following names arrives.
pub fn arrival_once_round()
    ensures { ArrivalOnceRound }
{}

/// A value whose tree is asked for again while it is looked for denotes no tree within any number of steps.
pub fn asked_again_treeless()
    ensures { AskedAgainTreeless }
{}

/// A reference to a value asks for the tree of the value that it names.
pub fn name_asks()
    ensures { NameAsks }
{}
