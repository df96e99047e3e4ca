//! The calls that the judge makes, which no line of a judged text tells by itself: which whole numbers are left (X.680 51.4), which trees
//! have the shape of a type, and what is said at a place with constraints.
//!
//! The text has five type definitions: an INTEGER with a range, one with a range that is put behind it, one with a range that is put on
//! the numbers from 5 on, an INTEGER without constraints, and one with a set. Of each question the numbers are told, of those that are
//! asked about, that are left or accepted.

use asn_judge::{accepts, holds};
use asn_meaning_heads::{Place, Scope, TypeForm};
use asn_meaning_ranges::{Numbers, Parent, chain, narrowed, numbers, numbers_from, range};
use asn_meaning_shapes::{Answer, Tree, fits};
use asn_memory::{List, Mem, Text};
use asn_names_index::Names;
use asn_tree::{ASN1Type, Constraint, ElementOrSetOperation, SubtypeElement, ToplevelDefinition};
use rows::{push_count, push_number};
use rows_trees::TellsDefinitions;
use std::alloc::Global;

/// The steps of each question.
const STEPS: usize = 8;

/// The numbers that are asked about.
const ASKED: [i128; 7] = [-1, 3, 5, 6, 7, 9, 10];

// ---- the parts of the text

/// The constraints of an INTEGER.
fn constraints_of(ty: &ASN1Type) -> &[Constraint] {
    match ty {
        ASN1Type::Integer(integer) => integer.constraints.as_slice(),
        _ => &[],
    }
}

/// The set of the first constraint of an INTEGER.
fn set_of(ty: &ASN1Type) -> Option<&ElementOrSetOperation> {
    match constraints_of(ty) {
        [Constraint::SubtypeConstraint(set), ..] => Some(&set.set),
        _ => None,
    }
}

/// The only element of the first constraint of an INTEGER.
fn element_of(ty: &ASN1Type) -> Option<&SubtypeElement> {
    match set_of(ty) {
        Some(ElementOrSetOperation::Element(element)) => Some(element),
        _ => None,
    }
}

/// The type as it is read outside templates.
fn place_of<'a>(ty: &'a ASN1Type) -> Place<'a> {
    Place {
        scope: Scope::Empty,
        ty: TypeForm::Written(ty),
    }
}

fn from_five() -> Option<Numbers> {
    Some(numbers_from(false, 5))
}

// ---- what is left

fn write_having(alloc: Global, out: &mut Text, set: &Numbers) -> Mem<()> {
    for number in ASKED {
        if set.has(alloc, number)? {
            out.push_str(" ")?;
            push_number(alloc, out, number)?;
        }
    }
    out.push_str("\n")
}

fn write_left(alloc: Global, out: &mut Text, word: &str, found: Mem<Option<Numbers>>) -> Mem<()> {
    out.push_str(word)?;
    match found? {
        Some(set) => write_having(alloc, out, &set),
        None => out.push_str(" unknown\n"),
    }
}

/// What the constraint leaves of the numbers from 5 on.
fn narrowed_from_five<'a>(
    alloc: Global,
    names: &Names<'a>,
    ty: &'a ASN1Type,
    constraint: &'a Constraint,
) -> Mem<Option<Numbers>> {
    let head = place_of(ty);
    narrowed(
        alloc,
        names,
        STEPS,
        &Scope::Empty,
        &head,
        &from_five(),
        constraint,
    )
}

/// What the range MIN<..MAX leaves of the numbers from 5 on.
fn range_from_five<'a>(alloc: Global, names: &Names<'a>, head: &Place<'a>) -> Mem<Option<Numbers>> {
    let numbers = from_five();
    let parent = Parent::Values {
        head: &*head,
        numbers: &numbers,
    };
    range(
        alloc,
        names,
        STEPS,
        &Scope::Empty,
        parent,
        None,
        None,
        true,
        false,
    )
}

/// Writes how many elements stand behind the first one of a set, whose elements are looked for in so many steps.
fn write_chain(alloc: Global, out: &mut Text, steps: usize, ty: &ASN1Type) -> Mem<()> {
    push_count(alloc, out, "elements in steps ", steps)?;
    match set_of(ty) {
        Some(set) => match chain(alloc, steps, set) {
            Ok(found) => push_count(alloc, out, ": others ", found.others.len())?,
            Err(_) => out.push_str(": memory")?,
        },
        None => out.push_str(": no set")?,
    }
    out.push_str("\n")
}

// ---- what is accepted

/// Writes the number where the answer is yes.
fn write_accepted(alloc: Global, out: &mut Text, number: i128, answer: Mem<Answer>) -> Mem<()> {
    match answer? {
        Answer::Yes => {
            out.push_str(" ")?;
            push_number(alloc, out, number)
        }
        Answer::No => Ok(()),
        Answer::Unknown => out.push_str(" unknown"),
    }
}

/// Writes which numbers a type accepts at a place with these constraints.
fn write_at_place<'a>(
    alloc: Global,
    out: &mut Text,
    names: &Names<'a>,
    ty: &'a ASN1Type,
    constraints: &'a [Constraint],
) -> Mem<()> {
    out.push_str("at a place:")?;
    let place = place_of(ty);
    for number in ASKED {
        let tree = Tree::Whole(number);
        let answer = accepts(alloc, names, STEPS, &place, constraints, &tree);
        write_accepted(alloc, out, number, answer)?;
    }
    out.push_str("\n")
}

/// Writes which numbers the element holds for, put on the numbers from 5 on.
fn write_holding<'a>(
    alloc: Global,
    out: &mut Text,
    names: &Names<'a>,
    head: &Place<'a>,
    element: &'a SubtypeElement,
) -> Mem<()> {
    out.push_str("from five:")?;
    let numbers = from_five();
    for number in ASKED {
        let parent = Parent::Values {
            head: &*head,
            numbers: &numbers,
        };
        let tree = Tree::Whole(number);
        let answer = holds(alloc, names, STEPS, &Scope::Empty, parent, element, &tree);
        write_accepted(alloc, out, number, answer)?;
    }
    out.push_str("\n")
}

/// Writes whether the shape of a type is told without steps, also of a tree that the type accepts.
fn write_shape<'a>(alloc: Global, out: &mut Text, names: &Names<'a>, ty: &'a ASN1Type) -> Mem<()> {
    let told = fits(alloc, names, 0, &place_of(ty), &Tree::Whole(7)).is_ok();
    out.push_str(if told {
        "shape without steps: told\n"
    } else {
        "shape without steps: memory\n"
    })
}

// ---- all questions

/// The types of the text.
#[derive(Clone, Copy)]
struct Asked<'a> {
    digit: &'a ASN1Type,
    behind: &'a ASN1Type,
    above: &'a ASN1Type,
    number: &'a ASN1Type,
    either: &'a ASN1Type,
}

fn write_numbers<'a>(
    alloc: Global,
    out: &mut Text,
    names: &Names<'a>,
    asked: Asked<'a>,
) -> Mem<()> {
    let behind = constraints_of(asked.behind);
    let left = numbers(alloc, names, STEPS, &place_of(asked.digit), behind);
    write_left(alloc, out, "left:", left)?;
    if let [constraint, ..] = constraints_of(asked.above) {
        let left = narrowed_from_five(alloc, names, asked.number, constraint);
        write_left(alloc, out, "narrowed from five:", left)?;
    }
    let left = range_from_five(alloc, names, &place_of(asked.number));
    write_left(alloc, out, "range from five:", left)?;
    write_chain(alloc, out, 3, asked.either)?;
    write_chain(alloc, out, 2, asked.either)
}

fn write_accepting<'a>(
    alloc: Global,
    out: &mut Text,
    names: &Names<'a>,
    asked: Asked<'a>,
) -> Mem<()> {
    write_shape(alloc, out, names, asked.number)?;
    write_at_place(alloc, out, names, asked.digit, constraints_of(asked.behind))?;
    match element_of(asked.digit) {
        Some(element) => write_holding(alloc, out, names, &place_of(asked.number), element),
        None => out.push_str("no element\n"),
    }
}

/// What is told of the calls that the judge makes.
#[derive(Clone, Copy)]
pub(crate) struct NumbersLeft;

impl TellsDefinitions for NumbersLeft {
    fn tell(
        &self,
        alloc: Global,
        out: &mut Text,
        definitions: &List<ToplevelDefinition>,
    ) -> Mem<()> {
        let names = Names::new(alloc, definitions)?;
        match definitions.as_slice() {
            [
                ToplevelDefinition::TypeDef(digit),
                ToplevelDefinition::TypeDef(behind),
                ToplevelDefinition::TypeDef(above),
                ToplevelDefinition::TypeDef(number),
                ToplevelDefinition::TypeDef(either),
            ] => {
                let asked = Asked {
                    digit: &digit.ty,
                    behind: &behind.ty,
                    above: &above.ty,
                    number: &number.ty,
                    either: &either.ty,
                };
                write_numbers(alloc, out, &names, asked)?;
                write_accepting(alloc, out, &names, asked)
            }
            _ => out.push_str("no five types\n"),
        }
    }
}
