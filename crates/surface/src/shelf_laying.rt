// The structs of the shelf's answers that cross to C. Each function promises what the definition in specs/
// says of the number and values.
ghost use Rattle.std.specs.Prelude.{◌≡◌, [], ◌∷◌};
ghost use Rattle.answers.specs.Answers.{given, refused};
ghost use Rattle.shelves.specs.Answers.{told_shelved, told_slots, told_sums, told_outcome};
ghost use Rattle.surface.specs.OfShelf.{started_of, shelving_of, got_of, slot_numbers_of, sum_numbers_of};

use crate::laying::refusal_number;
use crate::{Got, Shelving, SlotNumbers, Started, SumNumbers};
use refusals::Refusal;
use shelves::{Shelved, Slots, TwoSums};

pub fn started_of(outcome: Result<(), Refusal>) -> Started
    ensures { result ≡ started_of (told_outcome outcome) }
{
    match outcome {
        Ok(()) => Started {
            number: 0,
            place: 0,
        },
        Err(refusal) => Started {
            number: refusal_number(refusal),
            place: refusal.place,
        },
    }
}

fn shelving_refused(refusal: Refusal) -> Shelving
    ensures { result ≡ shelving_of (refused refusal) }
{
    Shelving {
        number: refusal_number(refusal),
        added: 0,
        place: refusal.place,
        slot: 0,
    }
}

pub fn shelving_of(shelved: Result<Shelved, Refusal>) -> Shelving
    ensures { result ≡ shelving_of (told_shelved shelved) }
{
    match shelved {
        Ok(found) => match found {
            Shelved::New(slot) => Shelving {
                number: 0,
                added: 1,
                place: 0,
                slot,
            },
            Shelved::Copy(slot) => Shelving {
                number: 0,
                added: 0,
                place: 0,
                slot,
            },
        },
        Err(refusal) => shelving_refused(refusal),
    }
}

// A part of the shelf, of so many bytes.
pub fn got_at(offset: usize, length: usize) -> Got
    ensures { result ≡ got_of (given (length ∷ [])) offset length }
{
    Got {
        number: 0,
        place: 0,
        offset,
        length,
    }
}

pub fn got_refused(refusal: Refusal) -> Got
    ensures { result ≡ got_of (refused refusal) 0 0 }
{
    Got {
        number: refusal_number(refusal),
        place: refusal.place,
        offset: 0,
        length: 0,
    }
}

pub fn slot_numbers_of(slots: Result<Slots, Refusal>) -> SlotNumbers
    ensures { result ≡ slot_numbers_of (told_slots slots) }
{
    match slots {
        Ok(slots) => SlotNumbers {
            number: 0,
            place: 0,
            occupied: slots.occupied,
            lowest: slots.lowest_free,
        },
        Err(refusal) => SlotNumbers {
            number: refusal_number(refusal),
            place: refusal.place,
            occupied: 0,
            lowest: 0,
        },
    }
}

pub fn sum_numbers_of(sums: Result<TwoSums, Refusal>) -> SumNumbers
    ensures { result ≡ sum_numbers_of (told_sums sums) }
{
    match sums {
        Ok(sums) => SumNumbers {
            number: 0,
            held: sums.held,
            duplicates: sums.duplicates,
            place: 0,
        },
        Err(refusal) => SumNumbers {
            number: refusal_number(refusal),
            held: 0,
            duplicates: 0,
            place: refusal.place,
        },
    }
}
