// The struct of the parties that crosses to C. It promises what the definition in specs/ says.
ghost use Rattle.std.specs.Prelude.{◌≡◌};
ghost use Rattle.surface.specs.OfParties.{part, parties_beside, no_part, laid_parties};

use crate::laying::refusal_number;
use crate::{Part, Parties};
use refusals::Refusal;
use values::Span;

fn part_laid(span: Span) -> Part
    ensures { result ≡ part span }
{
    Part {
        offset: span.offset,
        length: span.length,
    }
}

// The three parts beside a number and a place.
fn parties_beside(found: parties::Parties, number: u32, place: usize) -> Parties
    ensures { result ≡ parties_beside number place found }
{
    let sender = found.sender;
    let recipient = found.recipient;
    let reference = found.reference;
    Parties {
        number,
        place,
        sender: part_laid(sender),
        recipient: part_laid(recipient),
        reference: part_laid(reference),
    }
}

// Zero bytes at the input's start.
fn no_part() -> Part
    ensures { result ≡ no_part }
{
    Part {
        offset: 0,
        length: 0,
    }
}

pub fn parties_laid(found: Result<parties::Parties, Refusal>) -> Parties
    ensures { result ≡ laid_parties found }
{
    match found {
        Ok(found) => parties_beside(found, 0, 0),
        Err(refusal) => Parties {
            number: refusal_number(refusal),
            place: refusal.place,
            sender: no_part(),
            recipient: no_part(),
            reference: no_part(),
        },
    }
}
