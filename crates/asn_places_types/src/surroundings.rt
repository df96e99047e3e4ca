//! What surrounds a place. Sites that stand beside each other share it.

ghost use Rattle.asn_meaning_heads.specs.Places.{shown_place};
ghost use Rattle.asn_meaning_heads.specs.Scopes.{shown};
ghost use Rattle.asn_needs.specs.Sites.{LooseList};
ghost use Rattle.asn_places_types.specs.Sites.{shown_around};
ghost use Rattle.std.specs.Prelude.{◌≡◌, ◌++◌, ◌∷◌, IfOk, [], false, map, true};

use asn_meaning_heads::{Place, Scope};
use asn_memory::{List, Mem, Text};
use std::alloc::Global;
use std::rc::Rc;

/// The scope that a place is read in; the templates that were entered on the way, by their names, the innermost first;
/// whether it stands in a content or table constraint; and the constrained types whose parts WITH COMPONENT and WITH
/// COMPONENTS led to, the innermost first.
#[derive(Drop)]
pub struct Around<'a> {
    pub scope: Scope<'a>,
    pub nest: List<&'a Text>,
    pub is_opaque: bool,
    pub way: List<Place<'a>>,
}

/// The names with one more at the end.
///
/// Err: want of memory.
#[tactic(auto, using(crate::proofs::Adding::names_more))]
fn with_name<'a>(names: List<&'a Text>, name: &'a Text) -> Mem<List<&'a Text>>
    ensures { IfOk result (λ more. map (λ n. n.now) more ≡ map (λ n. n.now) names.entry ++ name.now ∷ []) }
{
    let mut names = names;
    names.add(name)?;
    Ok(names)
}

/// The names with others behind them.
///
/// Err: want of memory.
fn with_names<'a>(names: List<&'a Text>, others: &[&'a Text]) -> Mem<List<&'a Text>>
    ensures { IfOk result (λ all. map (λ n. n.now) all ≡ map (λ n. n.now) names.entry ++ map (λ n. n.now) others.now) }
{
    let mut names = names;
    for other in others {
        names = with_name(names, other)?;
    }
    Ok(names)
}

/// The places with a copy of one more at the end.
///
/// Err: want of memory.
#[tactic(auto, using(crate::proofs::Adding::places_more))]
fn with_place<'a>(alloc: Global, places: List<Place<'a>>, place: &Place<'a>) -> Mem<List<Place<'a>>>
    ensures { IfOk result (λ more. map shown_place more ≡ map shown_place places.entry ++ shown_place place.now ∷ []) }
{
    let mut places = places;
    let copy = place.copy(alloc)?;
    places.add(copy)?;
    Ok(places)
}

/// The places with copies of others behind them.
///
/// Err: want of memory.
fn with_places<'a>(
    alloc: Global,
    places: List<Place<'a>>,
    others: &[Place<'a>],
) -> Mem<List<Place<'a>>>
    ensures { IfOk result (λ all. map shown_place all ≡ map shown_place places.entry ++ map shown_place others.now) }
{
    let mut places = places;
    for other in others {
        places = with_place(alloc, places, other)?;
    }
    Ok(places)
}

impl<'a> Around<'a> {
    /// The same with these templates around it, in another scope, where nothing was followed to a constrained part.
    fn moved(&self, alloc: Global, scope: Scope<'a>, nest: List<&'a Text>) -> Around<'a>
        ensures { shown_around result ≡ record (shown_around self.now) { scope = shown scope.entry; nest = map (λ n. n.now) nest.entry; way = [] } }
    {
        Around {
            scope,
            nest,
            is_opaque: self.is_opaque,
            way: List::new(alloc),
        }
    }

    /// The same, where nothing was followed to a constrained part.
    ///
    /// Err: want of memory.
    fn begun(&self, alloc: Global) -> Mem<Around<'a>>
        ensures { IfOk result (λ inner. shown_around inner ≡ record (shown_around self.now) { way = [] }) }
    {
        let scope = self.scope.copy(alloc)?;
        let nest = with_names(List::new(alloc), self.nest.as_slice())?;
        let inner = self.moved(alloc, scope, nest);
        Ok(inner)
    }

    /// The same within a template, under its scope.
    ///
    /// Err: want of memory.
    fn entered(&self, alloc: Global, scope: Scope<'a>, name: &'a Text) -> Mem<Around<'a>>
        ensures { IfOk result (λ inner. shown_around inner ≡ record (shown_around self.now) { scope = shown scope.entry; nest = name.now ∷ (shown_around self.now).nest; way = [] }) }
    {
        let nest = with_names(List::of(alloc, name)?, self.nest.as_slice())?;
        let inner = self.moved(alloc, scope, nest);
        Ok(inner)
    }
}

/// The same in a content or table constraint.
fn opaque<'a>(around: Around<'a>) -> Around<'a>
    ensures { shown_around result ≡ record (shown_around around.entry) { is_opaque = true } }
{
    let Around {
        scope,
        nest,
        way,
        ..
    } = around;
    Around {
        scope,
        nest,
        is_opaque: true,
        way,
    }
}

/// The same with this way.
fn with_way<'a>(around: Around<'a>, way: List<Place<'a>>) -> Around<'a>
    ensures { shown_around result ≡ record (shown_around around.entry) { way = map shown_place way.entry } }
{
    let Around {
        scope,
        nest,
        is_opaque,
        ..
    } = around;
    Around {
        scope,
        nest,
        is_opaque,
        way,
    }
}

/// Surroundings that sites may share.
///
/// Err: want of memory.
fn owned<'a>(alloc: Global, around: Around<'a>) -> Mem<Rc<Around<'a>>>
    ensures { IfOk result (λ owner. shown_around owner.value ≡ shown_around around.entry) }
{
    let owner = Rc::new(alloc, around)?;
    Ok(owner)
}

/// One more owner of the surroundings.
///
/// Err: want of memory, where the count of owners is full.
pub fn shared<'a>(around: &Rc<Around<'a>>) -> Mem<Rc<Around<'a>>>
    ensures { IfOk result (λ owner. shown_around owner.value ≡ shown_around around.now.value) }
{
    let owner = around.clone()?;
    Ok(owner)
}

/// The scope that places in these surroundings are read in.
pub fn scope_in<'s, 'a>(around: &'s Rc<Around<'a>>) -> &'s Scope<'a>
    ensures { shown result.now ≡ (shown_around around.now.value).scope }
{
    let around = around.as_ref();
    &around.scope
}

/// What surrounds the places of a definition that is read in this scope.
///
/// Err: want of memory.
pub fn outermost<'a>(alloc: Global, scope: Scope<'a>) -> Mem<Rc<Around<'a>>>
    ensures { IfOk result (λ around. shown_around around.value ≡ record { form = LooseList; scope = shown scope.entry; nest = []; is_opaque = false; way = [] }) }
{
    let around = Around {
        scope,
        nest: List::new(alloc),
        is_opaque: false,
        way: List::new(alloc),
    };
    let around = owned(alloc, around)?;
    Ok(around)
}

/// The same, where nothing was followed to a constrained part.
///
/// Err: want of memory.
#[tactic(auto, using(crate::proofs::Adding::no_way))]
pub fn without_way<'a>(alloc: Global, around: &Rc<Around<'a>>) -> Mem<Rc<Around<'a>>>
    ensures { IfOk result (λ inner. shown_around inner.value ≡ record (shown_around around.now.value) { way = [] }) }
{
    let here = around.as_ref();
    if here.way.is_empty() {
        let inner = shared(around)?;
        Ok(inner)
    } else {
        let inner = here.begun(alloc)?;
        let inner = owned(alloc, inner)?;
        Ok(inner)
    }
}

/// The same within a template of this name, under its scope.
///
/// Err: want of memory.
pub fn nested<'a>(
    alloc: Global,
    around: &Rc<Around<'a>>,
    scope: &Scope<'a>,
    name: &'a Text,
) -> Mem<Rc<Around<'a>>>
    ensures { IfOk result (λ inner. shown_around inner.value ≡ record (shown_around around.now.value) { scope = shown scope.now; nest = name.now ∷ (shown_around around.now.value).nest; way = [] }) }
{
    let here = around.as_ref();
    let scope = scope.copy(alloc)?;
    let inner = here.entered(alloc, scope, name)?;
    let inner = owned(alloc, inner)?;
    Ok(inner)
}

/// The same in a content or table constraint, where nothing was followed to a constrained part.
///
/// Err: want of memory.
pub fn made_opaque<'a>(alloc: Global, around: &Rc<Around<'a>>) -> Mem<Rc<Around<'a>>>
    ensures { IfOk result (λ inner. shown_around inner.value ≡ record (shown_around around.now.value) { is_opaque = true; way = [] }) }
{
    let here = around.as_ref();
    let inner = here.begun(alloc)?;
    let inner = opaque(inner);
    let inner = owned(alloc, inner)?;
    Ok(inner)
}

/// The same behind one more constrained type.
///
/// Err: want of memory.
pub fn onward<'a>(alloc: Global, around: &Rc<Around<'a>>, place: &Place<'a>) -> Mem<Rc<Around<'a>>>
    ensures { IfOk result (λ inner. shown_around inner.value ≡ record (shown_around around.now.value) { way = shown_place place.now ∷ (shown_around around.now.value).way }) }
{
    let here = around.as_ref();
    let way = with_place(alloc, List::new(alloc), place)?;
    let way = with_places(alloc, way, here.way.as_slice())?;
    let inner = here.begun(alloc)?;
    let inner = with_way(inner, way);
    let inner = owned(alloc, inner)?;
    Ok(inner)
}
