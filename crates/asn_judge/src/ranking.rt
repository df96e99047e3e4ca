//! Answers on elements joined by set operators: EXCEPT binds tighter than INTERSECTION, and that tighter than UNION, each from the
//! left (X.680 50.1).

ghost use Rattle.asn_judge.specs.inner.Ranking.{begun, joined, ranks_on, told};
ghost use Rattle.asn_tree_kinds.specs.declared.constraints.SetOperator.TheVariants.{Except, Intersection, Union};
ghost use Rattle.asn_meaning_shapes.specs.Answers.{known};
ghost use Rattle.std.specs.Prelude.{◌≡◌};

use asn_meaning_shapes::Answer;
use asn_tree::SetOperator;

/// What is said of the elements so far.
#[derive(Clone, Copy)]
pub struct Ranking {
    /// Of what stands before the last UNION.
    united: Answer,
    /// Of what is intersected since.
    met: Answer,
    /// Of the last element with its exclusions.
    last: Answer,
}

impl Ranking {
    /// What is said of the first element.
    pub fn of(first: Answer) -> Ranking
        ensures { ranks_on result ≡ begun (known first) }
    {
        Ranking {
            united: Answer::No,
            met: Answer::Yes,
            last: first,
        }
    }

    /// Without the elements of this one.
    fn without(self, next: Answer) -> Ranking
        ensures { ranks_on result ≡ joined Except (known next) (ranks_on self) }
    {
        Ranking {
            united: self.united,
            met: self.met,
            last: self.last.and(next.denied()),
        }
    }

    /// Where this one holds too.
    fn intersected(self, next: Answer) -> Ranking
        ensures { ranks_on result ≡ joined Intersection (known next) (ranks_on self) }
    {
        Ranking {
            united: self.united,
            met: self.met.and(self.last),
            last: next,
        }
    }

    /// Or where this one holds.
    fn joined(self, next: Answer) -> Ranking
        ensures { ranks_on result ≡ joined Union (known next) (ranks_on self) }
    {
        Ranking {
            united: self.united.or(self.met.and(self.last)),
            met: Answer::Yes,
            last: next,
        }
    }

    /// With the element behind this operator.
    pub fn with(self, operator: SetOperator, next: Answer) -> Ranking
        ensures { ranks_on result ≡ joined operator (known next) (ranks_on self) }
    {
        match operator {
            SetOperator::Except => self.without(next),
            SetOperator::Intersection => self.intersected(next),
            SetOperator::Union => self.joined(next),
        }
    }

    /// What is said of all.
    pub fn answer(self) -> Answer
        ensures { known result ≡ told (ranks_on self) }
    {
        self.united.or(self.met.and(self.last))
    }
}
