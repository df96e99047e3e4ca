//! Texts up to a tag: the calls that walk over an input from the left and stop where a tag stands.

ghost use Rattle.std.specs.Prelude.{ℕ, List, ◌≡◌, ◌+◌, ◌<◌, ◌≤◌, codes, length, IfOk, IfErr, IfSome, MatchOption, IsTrue};
ghost use Rattle.std.specs.Str.{IsCharBoundary};
ghost use Rattle.asn_text.specs.Fault.{FailsAt};
ghost use Rattle.asn_text.specs.Input.{part_of};
ghost use Rattle.asn_text.specs.Part.{shown};
ghost use Rattle.asn_text.specs.Until.{Walker, stands_at, StopsAt, NeverStops, StopsWith, until_either, until_unbalanced, until_and_not, closing_step};
ghost use Rattle.asn_text.specs.inner.Walks.{walker_of, IsTag, AreTags, IsWithin};

use crate::fault::{ParserResult, fails};
use crate::input::Input;

/// The text before the first place where one of the two tags stands, and the rest from there on. It fails where
/// neither stands.
pub fn take_until_or<'a>(input: Input<'a>, first: &str, second: &str) -> ParserResult<'a, &'a str>
    requires first_not_empty { 0 < length first.now }
    requires second_not_empty { 0 < length second.now }
    ensures ok { IfOk result (λ read. StopsWith (until_either first.now second.now) (part_of input.entry) (part_of read.0) read.1.now) }
    ensures err { IfErr result (λ fault. NeverStops (until_either first.now second.now) (shown (part_of input.entry)) 0 0) }
    ensures fault { IfErr result (FailsAt input.entry (codes "take_until_or")) }
{
    let sought = Sought::Either(tag(first), tag(second));
    take_until(input, &sought, "take_until_or")
}

/// The text before the first closing tag that closes no opening one, and the rest from there on. It fails where there
/// is none.
pub fn take_until_unbalanced<'a>(
    input: Input<'a>,
    opening: &str,
    closing: &str,
) -> ParserResult<'a, &'a str>
    requires opening_not_empty { 0 < length opening.now }
    requires closing_not_empty { 0 < length closing.now }
    ensures ok { IfOk result (λ read. StopsWith (until_unbalanced opening.now closing.now) (part_of input.entry) (part_of read.0) read.1.now) }
    ensures err { IfErr result (λ fault. NeverStops (until_unbalanced opening.now closing.now) (shown (part_of input.entry)) 0 0) }
    ensures fault { IfErr result (FailsAt input.entry (codes "take_until_unbalanced")) }
{
    let sought = Sought::Unbalanced(tag(opening), tag(closing));
    take_until(input, &sought, "take_until_unbalanced")
}

/// The text before the first `end_tag`, where each `however_tag` on the way is passed whole, and the rest from there
/// on. It fails where there is none.
pub fn take_until_and_not<'a>(
    input: Input<'a>,
    end_tag: &str,
    however_tag: &str,
) -> ParserResult<'a, &'a str>
    requires end_not_empty { 0 < length end_tag.now }
    requires however_not_empty { 0 < length however_tag.now }
    ensures ok { IfOk result (λ read. StopsWith (until_and_not end_tag.now however_tag.now) (part_of input.entry) (part_of read.0) read.1.now) }
    ensures err { IfErr result (λ fault. NeverStops (until_and_not end_tag.now however_tag.now) (shown (part_of input.entry)) 0 0) }
    ensures fault { IfErr result (FailsAt input.entry (codes "take_until_and_not")) }
{
    let sought = Sought::AndNot(tag(end_tag), tag(however_tag));
    take_until(input, &sought, "take_until_and_not")
}

/// A law: a walk stops at one place at most, and does not stop where it comes to the end. So each of the calls above
/// succeeds exactly where its walk stops.
pub fn one_course()
    ensures one_stop { (walker : Walker) (text : List ℕ) (j k : ℕ) → StopsAt walker text 0 0 j → StopsAt walker text 0 0 k → j ≡ k }
    ensures stop_or_end { (walker : Walker) (text : List ℕ) (j : ℕ) → NeverStops walker text 0 0 → StopsAt walker text 0 0 j → ⊥ }
{}

/// What a walk looks for.
#[derive(Clone, Copy)]
enum Sought<'t> {
    Either(&'t [u8], &'t [u8]),
    Unbalanced(&'t [u8], &'t [u8]),
    AndNot(&'t [u8], &'t [u8]),
}

/// What a walk does at a place.
#[derive(Clone, Copy)]
enum Step {
    Stop,
    /// It passes some bytes, and goes on with a number of open tags.
    Pass(usize, usize),
}

/// The bytes of a tag.
fn tag(text: &str) -> &[u8]
    requires { 0 < length text.now }
    ensures value { result.now ≡ text.now }
    ensures tag { IsTag result.now }
{
    text.as_bytes()
}

fn take_until<'a>(
    input: Input<'a>,
    sought: &Sought<'_>,
    name: &'static str,
) -> ParserResult<'a, &'a str>
    requires { AreTags sought.now }
    ensures ok { IfOk result (λ read. StopsWith (walker_of sought.now) (part_of input.entry) (part_of read.0) read.1.now) }
    ensures err { IfErr result (λ fault. NeverStops (walker_of sought.now) (shown (part_of input.entry)) 0 0) }
    ensures fault { IfErr result (FailsAt input.entry name.now) }
{
    match find(sought, input.inner().as_bytes()) {
        Some(place) => Ok((input.slice_from(place), input.slice_to(place).into_inner())),
        None => Err(fails(input, name)),
    }
}

/// The offset at which the walk over the text stops.
fn find(sought: &Sought<'_>, text: &[u8]) -> Option<usize>
    requires { AreTags sought.now }
    ensures found { MatchOption result (NeverStops (walker_of sought.now) text.now 0 0) (λ place. StopsAt (walker_of sought.now) text.now 0 0 place) }
    ensures boundary { IfSome result (λ place. IsCharBoundary text.now place) }
{
    let mut place = 0;
    let mut opened = 0;
    while place < text.len() {
        match step_at(sought, text, opened, place) {
            Step::Stop => return Some(place),
            Step::Pass(bytes, more) => {
                place += bytes;
                opened = more;
            }
        }
    }
    None
}

/// What the walk does at a place.
fn step_at(sought: &Sought<'_>, text: &[u8], opened: usize, place: usize) -> Step
    requires tags { AreTags sought.now }
    requires within { place < length text.now }
    requires room { opened ≤ place }
    ensures does { result ≡ walker_of sought.now text.now opened place }
    ensures within { IsWithin text.now place result }
{
    match sought {
        Sought::Either(first, second) => {
            if stands_at(first, text, place) || stands_at(second, text, place) {
                Step::Stop
            } else {
                Step::Pass(1, opened)
            }
        }
        Sought::Unbalanced(opening, closing) => {
            if stands_at(opening, text, place) {
                Step::Pass(opening.len(), opened + 1)
            } else if stands_at(closing, text, place) {
                close(closing, opened)
            } else {
                Step::Pass(1, opened)
            }
        }
        Sought::AndNot(end, excepted) => {
            if stands_at(excepted, text, place) {
                Step::Pass(excepted.len(), opened)
            } else if stands_at(end, text, place) {
                Step::Stop
            } else {
                Step::Pass(1, opened)
            }
        }
    }
}

/// What a closing tag does.
fn close(closing: &[u8], opened: usize) -> Step
    ensures { result ≡ closing_step closing.now opened }
{
    if opened == 0 {
        Step::Stop
    } else {
        Step::Pass(closing.len(), opened - 1)
    }
}

/// Whether the tag stands at a place.
fn stands_at(tag: &[u8], text: &[u8], place: usize) -> bool
    requires tag { IsTag tag.now }
    requires within { place < length text.now }
    ensures stands { result ≡ stands_at tag.now text.now place }
    ensures within { IsTrue result → place + length tag.now ≤ length text.now }
    ensures boundary { IsTrue result → IsCharBoundary text.now place }
{
    text[place..].starts_with(tag)
}
