//! Names that are several, joined by `.&` (X.681 15).

ghost use Rattle.asn_needs.specs.Occurrences.{is_path};
ghost use Rattle.asn_places_names.specs.inner.Paths.{begins_mark};
ghost use Rattle.std.specs.Prelude.{◌≡◌, drop};

/// Whether the bytes begin with `.&`.
fn begins_mark(bytes: &[u8]) -> bool
    ensures { result ≡ begins_mark bytes.now }
{
    match bytes {
        [] => false,
        [_] => false,
        [first, second, ..] => *first == b'.' && *second == b'&',
    }
}

/// Whether `.&` stands at this place.
fn is_mark_at(bytes: &[u8], number: usize) -> bool
    ensures { result ≡ begins_mark (drop number bytes.now) }
{
    match bytes.get(number..) {
        None => false,
        Some(behind) => begins_mark(behind),
    }
}

/// Whether a name is several, joined by `.&`.
#[tactic(auto, using(crate::proofs::Marking::path_found, crate::proofs::Marking::path_passed, crate::proofs::Marking::path_done))]
pub fn is_path(name: &str) -> bool
    ensures { result ≡ is_path name.now }
{
    let bytes = name.as_bytes();
    for i in 0..bytes.len() {
        if is_mark_at(bytes, i) {
            return true;
        }
    }
    false
}
