//! Of what kind the definition of a name must be.

/// What stands at the place of a name, and so of what kind its definition must be.
#[derive(Clone, Copy)]
pub enum Need {
    /// A type reference (X.680 14.1).
    NeedsType,
    /// The type of a class's field, where a class stands too (X.681 9).
    NeedsTypeOrClass,
    /// The CHOICE of a selection (X.680 30).
    NeedsChoice,
    /// The SEQUENCE or SET behind COMPONENTS OF (X.680 25.5).
    NeedsComponents,
    /// A value reference (X.680 14.1).
    NeedsValue,
    /// The class of a field, of an object, of a set or of a dummy (X.681 9 to 14).
    NeedsClass,
    /// The object before a field (X.681 15).
    NeedsObject,
    /// An object or a set in a set (X.681 12).
    NeedsObjectOrSet,
    /// What a field is given where its class is not asked (X.681 11.4).
    NeedsValueOrObject,
    /// An argument for which no dummy stands, of whatever kind it is (X.683 9).
    NeedsAny,
}
