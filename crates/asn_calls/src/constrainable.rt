//! Types that can be constrained (X.680 clause 49).

ghost use Rattle.asn_calls.specs.LentTypes.{constraints_row};
ghost use Rattle.asn_tree.specs.declared.constraints.Constraint.{Constraint as Constrains};
ghost use Rattle.std.specs.Borrow.{Lends, sem};
ghost use Rattle.std.specs.Prelude.{◌≡◌, List as Sequence};

use asn_memory::List;
use asn_tree::{
    BitString, Boolean, CharacterString, Choice, Constraint, DeclarationElsewhere, Enumerated,
    InformationObjectFieldReference, Integer, OctetString, Real, SequenceOrSet, SequenceOrSetOf,
    Time,
};

/// A type with constraints.
pub trait Constrainable {
    ghost constraints_in: { Self → Sequence Constrains };

    ghost with_constraints: { Self → Sequence Constrains → Self };

    /// The constraints.
    fn constraints(&self) -> &List<Constraint>
        ensures { result.now ≡ constraints_in self.now };

    /// The constraints, to be changed; all else stays.
    fn constraints_mut(&mut self) -> &mut List<Constraint>
        ensures* writes_back { sem 𝓛 (Lends Self.row constraints_row self.entry result (with_constraints self.entry.now)) }
        ensures value { result.now ≡ constraints_in self.old };
}

impl Constrainable for Boolean {
    ghost constraints_in = { λ ty. ty.constraints };

    ghost with_constraints = { λ ty list. record ty { constraints = list } };

    fn constraints(&self) -> &List<Constraint> {
        &self.constraints
    }

    fn constraints_mut(&mut self) -> &mut List<Constraint> {
        &mut self.constraints
    }
}

impl Constrainable for Integer {
    ghost constraints_in = { λ ty. ty.constraints };

    ghost with_constraints = { λ ty list. record ty { constraints = list } };

    fn constraints(&self) -> &List<Constraint> {
        &self.constraints
    }

    fn constraints_mut(&mut self) -> &mut List<Constraint> {
        &mut self.constraints
    }
}

impl Constrainable for Real {
    ghost constraints_in = { λ ty. ty.constraints };

    ghost with_constraints = { λ ty list. record ty { constraints = list } };

    fn constraints(&self) -> &List<Constraint> {
        &self.constraints
    }

    fn constraints_mut(&mut self) -> &mut List<Constraint> {
        &mut self.constraints
    }
}

impl Constrainable for Time {
    ghost constraints_in = { λ ty. ty.constraints };

    ghost with_constraints = { λ ty list. record ty { constraints = list } };

    fn constraints(&self) -> &List<Constraint> {
        &self.constraints
    }

    fn constraints_mut(&mut self) -> &mut List<Constraint> {
        &mut self.constraints
    }
}

impl Constrainable for BitString {
    ghost constraints_in = { λ ty. ty.constraints };

    ghost with_constraints = { λ ty list. record ty { constraints = list } };

    fn constraints(&self) -> &List<Constraint> {
        &self.constraints
    }

    fn constraints_mut(&mut self) -> &mut List<Constraint> {
        &mut self.constraints
    }
}

impl Constrainable for OctetString {
    ghost constraints_in = { λ ty. ty.constraints };

    ghost with_constraints = { λ ty list. record ty { constraints = list } };

    fn constraints(&self) -> &List<Constraint> {
        &self.constraints
    }

    fn constraints_mut(&mut self) -> &mut List<Constraint> {
        &mut self.constraints
    }
}

impl Constrainable for CharacterString {
    ghost constraints_in = { λ ty. ty.constraints };

    ghost with_constraints = { λ ty list. record ty { constraints = list } };

    fn constraints(&self) -> &List<Constraint> {
        &self.constraints
    }

    fn constraints_mut(&mut self) -> &mut List<Constraint> {
        &mut self.constraints
    }
}

impl Constrainable for SequenceOrSet {
    ghost use Rattle.asn_tree.specs.declared.types.SequenceOrSet.{out-SequenceOrSet, roll-SequenceOrSet};

    ghost constraints_in = { λ ty. (out-SequenceOrSet ty).constraints };

    ghost with_constraints = { λ ty list. roll-SequenceOrSet (record (out-SequenceOrSet ty) { constraints = list }) };

    fn constraints(&self) -> &List<Constraint> {
        &self.constraints
    }

    fn constraints_mut(&mut self) -> &mut List<Constraint> {
        &mut self.constraints
    }
}

impl Constrainable for SequenceOrSetOf {
    ghost use Rattle.asn_tree.specs.declared.types.SequenceOrSetOf.{out-SequenceOrSetOf, roll-SequenceOrSetOf};

    ghost constraints_in = { λ ty. (out-SequenceOrSetOf ty).constraints };

    ghost with_constraints = { λ ty list. roll-SequenceOrSetOf (record (out-SequenceOrSetOf ty) { constraints = list }) };

    fn constraints(&self) -> &List<Constraint> {
        &self.constraints
    }

    fn constraints_mut(&mut self) -> &mut List<Constraint> {
        &mut self.constraints
    }
}

impl Constrainable for Choice {
    ghost use Rattle.asn_tree.specs.declared.types.Choice.{out-Choice, roll-Choice};

    ghost constraints_in = { λ ty. (out-Choice ty).constraints };

    ghost with_constraints = { λ ty list. roll-Choice (record (out-Choice ty) { constraints = list }) };

    fn constraints(&self) -> &List<Constraint> {
        &self.constraints
    }

    fn constraints_mut(&mut self) -> &mut List<Constraint> {
        &mut self.constraints
    }
}

impl Constrainable for Enumerated {
    ghost constraints_in = { λ ty. ty.constraints };

    ghost with_constraints = { λ ty list. record ty { constraints = list } };

    fn constraints(&self) -> &List<Constraint> {
        &self.constraints
    }

    fn constraints_mut(&mut self) -> &mut List<Constraint> {
        &mut self.constraints
    }
}

impl Constrainable for DeclarationElsewhere {
    ghost constraints_in = { λ ty. ty.constraints };

    ghost with_constraints = { λ ty list. record ty { constraints = list } };

    fn constraints(&self) -> &List<Constraint> {
        &self.constraints
    }

    fn constraints_mut(&mut self) -> &mut List<Constraint> {
        &mut self.constraints
    }
}

impl Constrainable for InformationObjectFieldReference {
    ghost constraints_in = { λ ty. ty.constraints };

    ghost with_constraints = { λ ty list. record ty { constraints = list } };

    fn constraints(&self) -> &List<Constraint> {
        &self.constraints
    }

    fn constraints_mut(&mut self) -> &mut List<Constraint> {
        &mut self.constraints
    }
}
