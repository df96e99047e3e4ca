//! Whether a tree that was made is the one that was read. What was made is let go.

use asn_memory::{Mem, OutOfMemory};
use asn_tree::{
    ASN1Type, ConstrainedComponent, Constraint, InformationObjectField, ObjectSetValue,
};

/// Whether the type is the one that was read.
///
/// Err: want of memory, as it was made.
pub fn is_same_type(made: Mem<ASN1Type>, read: &ASN1Type) -> Mem<bool> {
    match made {
        Ok(made) => Ok(made == *read),
        Err(_) => Err(OutOfMemory),
    }
}

/// Whether the constraint is the one that was read.
///
/// Err: want of memory, as it was made.
pub fn is_same_constraint(made: Mem<Constraint>, read: &Constraint) -> Mem<bool> {
    match made {
        Ok(made) => Ok(made == *read),
        Err(_) => Err(OutOfMemory),
    }
}

/// Whether the component with constraints is the one that was read.
///
/// Err: want of memory, as it was made.
pub fn is_same_component(
    made: Mem<ConstrainedComponent>,
    read: &ConstrainedComponent,
) -> Mem<bool> {
    match made {
        Ok(made) => Ok(made == *read),
        Err(_) => Err(OutOfMemory),
    }
}

/// Whether the field of an object is the one that was read.
///
/// Err: want of memory, as it was made.
pub fn is_same_field(
    made: Mem<InformationObjectField>,
    read: &InformationObjectField,
) -> Mem<bool> {
    match made {
        Ok(made) => Ok(made == *read),
        Err(_) => Err(OutOfMemory),
    }
}

/// Whether the item of a set is the one that was read.
///
/// Err: want of memory, as it was made.
pub fn is_same_item(made: Mem<ObjectSetValue>, read: &ObjectSetValue) -> Mem<bool> {
    match made {
        Ok(made) => Ok(made == *read),
        Err(_) => Err(OutOfMemory),
    }
}
