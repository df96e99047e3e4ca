//! Whole numbers at which a set is tried: a set's turns and their neighbours, which may lie beyond i128.

ghost use Rattle.asn_meaning_ranges.specs.inner.Wides.{wide};
ghost use Rattle.asn_meaning.specs.Numbers.{before, behind};
ghost use Rattle.asn_meaning.specs.ValueTrees.{same_number};
ghost use Rattle.std.specs.Prelude.{◌≡◌, IfOk, int_le, int_lt};

use asn_memory::{Mem, OutOfMemory};

/// A whole number.
#[derive(Clone, Copy)]
pub enum Wide {
    Within(i128),
    /// So many below the number before the least of i128.
    Below(usize),
    /// So many above the number behind the greatest of i128.
    Above(usize),
}

impl Wide {
    /// The number before it.
    ///
    /// Err: it lies further beyond i128 than can be counted, which takes more memory than a machine has.
    pub fn before(self) -> Mem<Wide>
        ensures { IfOk result (λ number. wide number ≡ before (wide self)) }
    {
        match self {
            Wide::Within(number) => {
                if number == i128::MIN {
                    Ok(Wide::Below(0))
                } else {
                    Ok(Wide::Within(number - 1))
                }
            }
            Wide::Below(count) => {
                if count == usize::MAX {
                    Err(OutOfMemory)
                } else {
                    Ok(Wide::Below(count + 1))
                }
            }
            Wide::Above(count) => {
                if count == 0 {
                    Ok(Wide::Within(i128::MAX))
                } else {
                    Ok(Wide::Above(count - 1))
                }
            }
        }
    }

    /// The number behind it.
    ///
    /// Err: as `before`.
    pub fn behind(self) -> Mem<Wide>
        ensures { IfOk result (λ number. wide number ≡ behind (wide self)) }
    {
        match self {
            Wide::Within(number) => {
                if number == i128::MAX {
                    Ok(Wide::Above(0))
                } else {
                    Ok(Wide::Within(number + 1))
                }
            }
            Wide::Below(count) => {
                if count == 0 {
                    Ok(Wide::Within(i128::MIN))
                } else {
                    Ok(Wide::Below(count - 1))
                }
            }
            Wide::Above(count) => {
                if count == usize::MAX {
                    Err(OutOfMemory)
                } else {
                    Ok(Wide::Above(count + 1))
                }
            }
        }
    }

    /// Whether it is less than the other.
    pub fn is_below(self, other: Wide) -> bool
        ensures { result ≡ int_lt (wide self) (wide other) }
    {
        match (self, other) {
            (Wide::Below(own), Wide::Below(count)) => count < own,
            (Wide::Below(_), Wide::Within(_)) => true,
            (Wide::Below(_), Wide::Above(_)) => true,
            (Wide::Within(_), Wide::Below(_)) => false,
            (Wide::Within(own), Wide::Within(number)) => own < number,
            (Wide::Within(_), Wide::Above(_)) => true,
            (Wide::Above(_), Wide::Below(_)) => false,
            (Wide::Above(_), Wide::Within(_)) => false,
            (Wide::Above(own), Wide::Above(count)) => own < count,
        }
    }

    /// Whether it is the other or less.
    pub fn is_at_most(self, other: Wide) -> bool
        ensures { result ≡ int_le (wide self) (wide other) }
    {
        match (self, other) {
            (Wide::Below(own), Wide::Below(count)) => count <= own,
            (Wide::Below(_), Wide::Within(_)) => true,
            (Wide::Below(_), Wide::Above(_)) => true,
            (Wide::Within(_), Wide::Below(_)) => false,
            (Wide::Within(own), Wide::Within(number)) => own <= number,
            (Wide::Within(_), Wide::Above(_)) => true,
            (Wide::Above(_), Wide::Below(_)) => false,
            (Wide::Above(_), Wide::Within(_)) => false,
            (Wide::Above(own), Wide::Above(count)) => own <= count,
        }
    }

    /// Whether it is the other.
    pub fn is(self, other: Wide) -> bool
        ensures { result ≡ same_number (wide self) (wide other) }
    {
        self.is_at_most(other) && other.is_at_most(self)
    }
}
