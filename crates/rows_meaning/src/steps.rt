//! How many steps each question has in a text about values.

use asn_tree::{ASN1Value, ToplevelDefinition, ToplevelValueDefinition};

/// The steps of each question, where the text says nothing else.
pub(crate) const STEPS: usize = 32;

/// Whether the value says how many steps there are, and is none of those that are asked about.
pub(crate) fn says_steps(definition: &ToplevelValueDefinition) -> bool {
    definition.name.as_str() == "steps"
}

/// The number as steps, where it is none that is negative or greater than usual.
fn as_steps(number: i128) -> usize {
    if number < 0 || number > 32 {
        STEPS
    } else {
        number as usize
    }
}

/// The steps that a value with the name `steps` says.
fn said_steps(definition: &ToplevelDefinition) -> Option<usize> {
    match definition {
        ToplevelDefinition::Value(definition) => match &definition.value {
            ASN1Value::Integer(number) => {
                if says_steps(definition) {
                    Some(as_steps(*number))
                } else {
                    None
                }
            }
            _ => None,
        },
        ToplevelDefinition::TypeDef(_) => None,
        ToplevelDefinition::Information(_) => None,
    }
}

/// The steps that a text's types are asked within: those that its value `steps` says, or the usual ones.
pub(crate) fn steps_of(definitions: &[ToplevelDefinition]) -> usize {
    for definition in definitions {
        match said_steps(definition) {
            Some(steps) => return steps,
            None => {}
        }
    }
    STEPS
}
