//! What a constraint is put on while it is read (X.680 51.1, 51.7).

ghost use Rattle.asn_meaning_heads.specs.Places.{shown_place};
ghost use Rattle.asn_link_instance.specs.Subjects.{ends_read, values_read};
ghost use Rattle.asn_link_values.specs.Subjects.{shown_subject};
ghost use Rattle.std.specs.Prelude.{◌≡◌, IfOk};

use asn_meaning_heads::{Place, integer_of, plain_text};
use asn_memory::Mem;
use std::alloc::Global;

/// The values of a type, by its head; or the characters of a string.
#[derive(Clone, Copy)]
pub enum Subject<'h, 'a> {
    OnValues(&'h Place<'a>),
    OnCharacters,
}

/// The type that single values are read under.
///
/// Err: want of memory.
pub fn values_read<'a>(alloc: Global, subject: Subject<'_, 'a>) -> Mem<Place<'a>>
    ensures { IfOk result (λ place. shown_place place ≡ values_read (shown_subject subject.entry)) }
{
    match subject {
        Subject::OnValues(head) => {
            let place = head.copy(alloc)?;
            Ok(place)
        }
        Subject::OnCharacters => Ok(plain_text()),
    }
}

/// The type that the ends of ranges are read under.
pub fn ends_read<'a>(subject: Subject<'_, 'a>) -> Place<'a>
    ensures { shown_place result ≡ ends_read (shown_subject subject.entry) }
{
    match subject {
        Subject::OnValues(head) => integer_of(head.ty),
        Subject::OnCharacters => plain_text(),
    }
}
