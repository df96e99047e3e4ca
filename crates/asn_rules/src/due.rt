//! What a module is made of, and where a text goes wrong: the first part of a module that does not stand.
//!
//! Whoever reads whole texts asks for the pieces of a module once the grammar has failed, and tries them one behind the other.
//! They are a list for each table; all else is over any table.

ghost use Rattle.std.specs.Prelude.{◌≡◌, ℕ, List, map};
ghost use Rattle.asn_rules.specs.Due.{piece, pieces_of, reason_of, context_of, IsDue};
ghost use Rattle.asn_rules.specs.Grammar.{rules_of};
ghost use Rattle.asn_rules.specs.Valid.{Fails};
ghost use Rattle.asn_rules.specs.declared.due.ModulePart.{ModulePart as OnePart};
ghost use Rattle.asn_rules.specs.declared.grammar.Grammar.{Grammar as Table};

use crate::expression::Expression;
use crate::expression::Expression::{Call, Many};
use crate::forms::{EMPTY, GAP, keyword, option};
use crate::grammar::Grammar;
use crate::names::{
    ASSIGNMENT, DEFINITION, DEFINITIVE, END, ENVIRONMENTS, EXPORTS, IDENTIFIER, IMPORTS,
};
use asn_rules_guards::Sight;

/// A part that each module has (X.680 13.1).
#[derive(Clone, Copy, Debug, PartialEq, Eq)]
pub enum ModulePart {
    /// The module's name.
    Name,
    /// The word `DEFINITIONS`.
    Definitions,
    /// The `::=` behind the tagging environment.
    Assignment,
    /// The word `BEGIN`.
    Begin,
    /// The `END` behind the definitions.
    Closing,
}

impl ModulePart {
    /// What a reader who waits for the part is told.
    pub fn reason(self) -> &'static str
        ensures { result.now ≡ reason_of self }
    {
        match self {
            ModulePart::Name => "module name expected",
            ModulePart::Definitions => "DEFINITIONS expected",
            ModulePart::Assignment => "::= expected",
            ModulePart::Begin => "BEGIN expected",
            ModulePart::Closing => "END expected",
        }
    }
}

/// The part that a text lacks, and where. Offsets are in bytes from 0, behind blanks and comments.
#[derive(Clone, Copy, Debug, PartialEq, Eq)]
pub struct DuePlace {
    /// The first part that does not stand.
    pub part: ModulePart,
    /// Where its module begins.
    pub module: usize,
    /// Where the part is due.
    pub place: usize,
}

impl DuePlace {
    /// Where the context begins: for a closing at its own place, else with the module.
    pub fn context(&self) -> usize
        ensures { result ≡ context_of self.now.part self.now.module self.now.place }
    {
        match self.part {
            ModulePart::Closing => self.place,
            ModulePart::Name => self.module,
            ModulePart::Definitions => self.module,
            ModulePart::Assignment => self.module,
            ModulePart::Begin => self.module,
        }
    }
}

/// What stands in a module.
#[derive(Clone, Copy)]
pub enum Piece {
    /// What may stand there, and is passed over.
    Optional(&'static Expression),
    /// A part that each module has.
    Required(ModulePart, &'static Expression),
}

// The pieces of a module, in order (X.680 13.1).
static WHOLE_PIECES: [Piece; 10] = [
    Piece::Required(ModulePart::Name, &Call(IDENTIFIER)),
    Piece::Optional(&option!(Call(DEFINITIVE))),
    Piece::Required(ModulePart::Definitions, &keyword!(b"DEFINITIONS")),
    Piece::Optional(&Call(ENVIRONMENTS)),
    Piece::Required(ModulePart::Assignment, &Call(ASSIGNMENT)),
    Piece::Required(ModulePart::Begin, &keyword!(b"BEGIN")),
    Piece::Optional(&option!(Call(EXPORTS))),
    Piece::Optional(&option!(Call(IMPORTS))),
    Piece::Optional(&Many(&Call(DEFINITION))),
    Piece::Required(ModulePart::Closing, &Call(END)),
];

/// The pieces of a module, in order.
pub fn pieces(grammar: Grammar) -> &'static [Piece]
    ensures { map piece result.now ≡ pieces_of grammar }
{
    match grammar {
        Grammar::Whole => &WHOLE_PIECES,
    }
}

/// A text has at most one due place in each grammar.
pub fn one_due_place()
    ensures { (grammar : Table) (text : List ℕ) (depth : ℕ) (p p' : OnePart) (begun begun' place place' : ℕ) → IsDue (rules_of grammar) text depth (pieces_of grammar) 0 p begun place → IsDue (rules_of grammar) text depth (pieces_of grammar) 0 p' begun' place' → (p ≡ p') × (begun ≡ begun') × (place ≡ place') }
{}

/// In a text that the grammar fails on, within the depth, a part is due.
pub fn due_where_it_fails()
    ensures { (grammar : Table) (text : List ℕ) (depth : ℕ) → Fails (rules_of grammar) text depth → (p : OnePart) × (begun : ℕ) × (place : ℕ) × IsDue (rules_of grammar) text depth (pieces_of grammar) 0 p begun place }
{}
