// The structs that cross to C, made of the answers. Each function promises what the definition in
// specs/ says of the paper's number and values. (Here and in the other files of this kind each struct is written out,
// zeros too, as the definition is that it is held against: `..default()` would not say which fields are zero. And two
// matches stand one in the other: of a nested pattern a proof does not see what the inner one matched, as
// `shelf_summary` tried.)
ghost use Rattle.std.specs.Prelude.{◌≡◌, [], ◌∷◌};
ghost use Rattle.refusals.specs.Refusals.{number};
ghost use Rattle.answers.specs.Answers.{given, accepted, refused, refused_input, told_judged, told_stored, told_compared, told_located, told_listed};
ghost use Rattle.surface.specs.Verdicts.{verdict_of};
ghost use Rattle.surface.specs.Answered.{written_of, comparison_of, location_of, listing_of};

use crate::{Comparison, Listing, Location, Verdict, Written};
use answers::{Figures, Listed, Unaccepted};
use refusals::Refusal;
use refusing::number_of;
use values::Span;

pub fn refusal_number(refusal: Refusal) -> u32
    ensures { result ≡ number refusal.fault }
{
    let fault = refusal.fault;
    number_of(fault) as u32
}

fn verdict_accepted(i: Figures) -> Verdict
    ensures { result ≡ verdict_of (accepted i) }
{
    let c = i.characters;
    let segments = i.segments;
    let messages = i.messages;
    let groups = i.groups;
    Verdict {
        number: 0,
        segments: segments.0,
        messages: messages.0,
        groups: groups.0,
        place: 0,
        length: i.length,
        component: c.component,
        element: c.element,
        mark: c.mark,
        release: c.release,
        repetition: c.repetition,
        terminator: c.terminator,
    }
}

fn verdict_refused(refusal: Refusal) -> Verdict
    ensures { result ≡ verdict_of (refused refusal) }
{
    Verdict {
        number: refusal_number(refusal),
        segments: 0,
        messages: 0,
        groups: 0,
        place: refusal.place,
        length: 0,
        component: 0,
        element: 0,
        mark: 0,
        release: 0,
        repetition: 0,
        terminator: 0,
    }
}

pub fn verdict_of(judged: Result<Figures, Refusal>) -> Verdict
    ensures { result ≡ verdict_of (told_judged judged) }
{
    match judged {
        Ok(i) => verdict_accepted(i),
        Err(refusal) => verdict_refused(refusal),
    }
}

pub fn written_of(stored: Result<usize, Refusal>) -> Written
    ensures { result ≡ written_of (told_stored stored) }
{
    match stored {
        Ok(length) => Written {
            number: 0,
            place: 0,
            length,
        },
        Err(refusal) => Written {
            number: refusal_number(refusal),
            place: refusal.place,
            length: 0,
        },
    }
}

fn comparison_given(same: u32) -> Comparison
    ensures { result ≡ comparison_of (given (same ∷ [])) }
{
    Comparison {
        number: 0,
        input: 0,
        same,
        place: 0,
    }
}

fn comparison_refused(input: u32, refusal: Refusal) -> Comparison
    ensures { result ≡ comparison_of (refused_input input refusal) }
{
    Comparison {
        number: refusal_number(refusal),
        input,
        same: 0,
        place: refusal.place,
    }
}

pub fn comparison_of(compared: Result<bool, Unaccepted>) -> Comparison
    ensures { result ≡ comparison_of (told_compared compared) }
{
    match compared {
        Ok(same) => {
            if same {
                comparison_given(1)
            } else {
                comparison_given(0)
            }
        }
        Err(unaccepted) => match unaccepted {
            Unaccepted::First(refusal) => comparison_refused(1, refusal),
            Unaccepted::Second(refusal) => comparison_refused(2, refusal),
        },
    }
}

pub fn location_of(located: Result<Option<Span>, Refusal>) -> Location
    ensures { result ≡ location_of (told_located located) }
{
    match located {
        Ok(found) => match found {
            Some(part) => Location {
                number: 0,
                present: 1,
                place: 0,
                offset: part.offset,
                length: part.length,
            },
            None => Location {
                number: 0,
                present: 0,
                place: 0,
                offset: 0,
                length: 0,
            },
        },
        Err(refusal) => Location {
            number: refusal_number(refusal),
            present: 0,
            place: refusal.place,
            offset: 0,
            length: 0,
        },
    }
}

pub fn listing_of(listed: Result<Listed, Refusal>) -> Listing
    ensures { result ≡ listing_of (told_listed listed) }
{
    match listed {
        Ok(list) => Listing {
            number: 0,
            place: 0,
            bytes: list.bytes,
            numbers: list.numbers,
        },
        Err(refusal) => Listing {
            number: refusal_number(refusal),
            place: refusal.place,
            bytes: 0,
            numbers: 0,
        },
    }
}
