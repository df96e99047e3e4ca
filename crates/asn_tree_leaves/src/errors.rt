//! The faults that warnings and refusals name.

ghost use Rattle.std.specs.Prelude.{◌≡◌, None, Some, OnOk, OnErr};

use asn_memory::{Mem, Text};
use std::alloc::Global;
use thiserror::Error;

/// A warning on a definition of a linked answer.
#[derive(Debug, Drop, Error, PartialEq)]
#[error("{kind:?} in {pdu:?}: {details}")]
pub struct LinkerError {
    /// The definition's name.
    pub pdu: Option<Text>,
    /// What is wrong, in words.
    pub details: &'static str,
    pub kind: LinkerErrorType,
    /// The kind of the refusal that stands behind a warning of kind Unknown.
    pub grammar: Option<GrammarErrorType>,
}

impl LinkerError {
    /// A warning of this kind, without a refusal behind it.
    pub fn new(pdu: Option<Text>, details: &'static str, kind: LinkerErrorType) -> LinkerError
        ensures pdu { result.pdu ≡ pdu }
        ensures details { result.details.now ≡ details.now }
        ensures kind { result.kind ≡ kind }
        ensures grammar { result.grammar ≡ None }
    {
        LinkerError {
            pdu,
            details,
            kind,
            grammar: None,
        }
    }

    /// Sets the definition's name. For want of memory the warning stays as it was.
    pub fn contextualize(&mut self, alloc: Global, pdu: &str) -> Mem<()>
        ensures ok { OnOk result (self.new ≡ record self.old { pdu = Some pdu.now }) }
        ensures err { OnErr result (self.new ≡ self.old) }
    {
        self.pdu = Some(Text::new(alloc, pdu)?);
        Ok(())
    }
}

/// A warning of kind Unknown, which keeps the refusal's kind in `grammar`, and its name and words.
impl From<GrammarError> for LinkerError {
    ghost use Rattle.std.specs.Prelude.{◌≡◌};
    ghost use Rattle.asn_tree_leaves.specs.Errors.{warned};

    ghost from_gives = { λ refusal warning. warning ≡ warned refusal };

    fn from(refusal: GrammarError) -> LinkerError {
        Self {
            pdu: refusal.pdu,
            details: refusal.details,
            kind: LinkerErrorType::Unknown,
            grammar: Some(refusal.kind),
        }
    }
}

/// Kinds of warnings.
#[derive(Clone, Copy, Debug, PartialEq, Eq)]
pub enum LinkerErrorType {
    /// A name has no definition of the kind that its place needs.
    MissingDependency,
    /// A range's minimum is above its maximum.
    InvalidConstraintsError,
    /// A refusal of another kind, which stands in `grammar`.
    Unknown,
    /// The definition needs itself.
    Cycle,
    /// An argument is missing or of the wrong kind.
    Argument,
    /// Several definitions have the name, and the last of them stands.
    Duplicate,
}

/// Kinds of refusals.
#[derive(Clone, Copy, Debug, PartialEq, Eq)]
pub enum GrammarErrorType {
    /// A constraint or a value is not of the form asked for.
    UnpackingError,
    /// A name leads to nothing of the kind asked for.
    LinkerError,
    /// A constraint can't be seen by the packed encoding rules. No call gives it, since those rules are left out.
    PerVisibleConstraintError,
    /// The form is not linked.
    NotYetInplemented,
    /// An object does not follow its class's syntax.
    SyntaxMismatch,
}

/// A refusal: what is asked of a tree does not fit its form.
#[derive(Debug, Drop, Error, PartialEq)]
#[error("{kind:?} in {pdu:?}: {details}")]
pub struct GrammarError {
    /// What is wrong, in words.
    pub details: &'static str,
    pub kind: GrammarErrorType,
    /// The definition's name.
    pub pdu: Option<Text>,
}

impl GrammarError {
    /// A refusal of this kind, in no definition yet.
    pub fn new(details: &'static str, kind: GrammarErrorType) -> GrammarError
        ensures details { result.details.now ≡ details.now }
        ensures kind { result.kind ≡ kind }
        ensures pdu { result.pdu ≡ None }
    {
        GrammarError {
            details,
            kind,
            pdu: None,
        }
    }

    /// The refusal of a form that is not linked: of kind NotYetInplemented, in no definition yet.
    pub fn todo() -> GrammarError
        ensures kind { result.kind ≡ GrammarErrorType.NotYetInplemented }
        ensures pdu { result.pdu ≡ None }
    {
        GrammarError::new("not linked yet", GrammarErrorType::NotYetInplemented)
    }

    /// Sets the definition's name. For want of memory the refusal stays as it was.
    pub fn contextualize(&mut self, alloc: Global, pdu: &str) -> Mem<()>
        ensures ok { OnOk result (self.new ≡ record self.old { pdu = Some pdu.now }) }
        ensures err { OnErr result (self.new ≡ self.old) }
    {
        let name = Text::new(alloc, pdu)?;
        self.pdu = Some(name);
        Ok(())
    }
}

/// Why a tree is not linked.
#[derive(Debug, Drop, Error, PartialEq)]
pub enum LinkFault {
    /// The tree is refused.
    #[error("{0}")]
    Grammar(GrammarError),
    /// Memory is wanting.
    #[error("out of memory")]
    OutOfMemory,
}
