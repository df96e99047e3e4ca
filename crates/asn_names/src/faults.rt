//! What may be wrong with a definition.

/// The faults of definitions, in the order in which they are judged.
#[derive(Clone, Copy, Debug, PartialEq, Eq)]
pub enum Fault {
    /// An argument, an argument list or a governor is wrong.
    Argument,
    /// A name has no definition of the kind that its place needs, or that definition lacks what the place asks of it.
    MissingDependency,
    /// A form stands in it that linking does not link, linking does not link the definition yet, or does not judge it.
    NotYetInplemented,
}

/// What is told of the places of a definition.
#[derive(Clone, Copy, Debug, PartialEq, Eq)]
pub enum Judgement {
    /// Linking does not judge the definition.
    NotJudged,
    /// No fault stands at any of its places.
    Faultless,
    /// The first fault, in their order, that stands at one of its places.
    Faulty(Fault),
}
