// Acknowledge (request 2026-11): the syntax report CONTRL for a received interchange, in a lent buffer. The list put
// together is never stored as a list: its parts are counted, checked, measured and stored where they stand, and the text
// is judged as Write judges its own. It promises, for any slices, the answer and every byte of the output that
// `acknowledgements` gives: what is refused leaves the whole output zero.
#![tactic(auto)]

ghost use Rattle.std.specs.Prelude.{◌≡◌, ◌≤◌, false, length};
ghost use Rattle.std.proofs.lemmas.List.Edits.{sets};
ghost use Rattle.refusals.specs.Limits.{most_bytes};
ghost use Rattle.refusals.specs.Refusals.{outcome};
ghost use Rattle.value_list_text.specs.Composing.{composed_text, HasRoom, Composes};
ghost use Rattle.acknowledgements.specs.Lent.{lent_by, any_bad_lent};
ghost use Rattle.acknowledgements.specs.Received.{cannot_be_acknowledged};
ghost use Rattle.acknowledgements.specs.Promises.{Acknowledges};
ghost use Rattle.acknowledgement_parts.specs.Parts.{lent_in, first_bare};
ghost use Rattle.reported.specs.Reporting.{Takes};
ghost use Rattle.acknowledge.specs.Rows.{row, Ready, AllStand, TriesAfter, Few};

use acknowledgement_parts::{LentElements, Received, check_part, part_at, put_part, records_in};
use characters::Characters;
use held_separators::put_separator;
use lent_elements::LentElement;
use refusals::{Fault, Refusal};
use refusing::failed;
use storing::{Measured, Sink, Stored};
use value_list_text::{first_measure, short_length};

// How many parts there are. (An array of the parts would be built on the stack in each of the loops over them, or stand among
// the constant data, which is held to 64 bytes.)
const PARTS: usize = 20;

// ---- records

// How many records the parts are.
fn record_count(r: Received, s: &[u8], lent: &LentElements) -> usize
    requires { Ready s.now (lent_in lent.now) r }
    ensures { result ≡ length (row s.now (lent_in lent.now) r) }
{
    let mut n = 0;
    for i in 0..PARTS {
        n += records_in(part_at(r, i), s, r.characters, lent);
    }
    n
}

// What refusal 16 answers.
fn check_parts(c: Characters, r: Received, s: &[u8], lent: &LentElements) -> Result<(), Refusal>
    requires { Ready s.now (lent_in lent.now) r × AllStand c s.now r }
    ensures { result ≡ outcome (first_bare c 0 (row s.now (lent_in lent.now) r)) }
{
    let d = r.characters;
    let mut n = 0;
    for i in 0..PARTS {
        let part = part_at(r, i);
        let k = records_in(part, s, d, lent);
        check_part(c, part, s, d, lent).map_err(|q| Refusal {
            fault: Fault::NeedsRelease,
            place: n + q.place,
        })?;
        n += k;
    }
    Ok(())
}

// ---- the text

// Puts the parts from the advice's last byte on, and returns the length of the text: the first ends the advice as it
// would end a segment. A text over 32,000 bytes is given up where that is seen. 15 leaves 32,000 records at most, a third of
// 96,000 numbers: the same number as `most_bytes`, which stands for it.
fn put_parts<S: Sink>(
    output: &mut [u8],
    c: Characters,
    r: Received,
    s: &[u8],
    lent: &LentElements,
) -> Option<usize>
    requires { Few s.now (lent_in lent.now) r × HasRoom S.room (composed_text c (row s.now (lent_in lent.now) r)) output.old }
    ensures { Composes S.holds c (row s.now (lent_in lent.now) r) output.old output.new result }
{
    let mut m = first_measure();
    for i in 0..PARTS {
        m = put_part::<S>(output, m, c, part_at(r, i), s, r.characters, lent);
        short_length(m.total)?;
    }
    short_length(put_separator::<S>(output, m, c, 0).total)
}

// Stores the text at the front.
fn put_text(output: &mut [u8], c: Characters, r: Received, s: &[u8], lent: &LentElements)
    requires { Few s.now (lent_in lent.now) r × (length (composed_text c (row s.now (lent_in lent.now) r)) ≤ most_bytes) × (length (composed_text c (row s.now (lent_in lent.now) r)) ≤ length output.old) }
    ensures { output.new ≡ sets output.old 0 (composed_text c (row s.now (lent_in lent.now) r)) }
{
    storing::put_advice(output, c);
    put_parts::<Stored>(output, c, r, s, lent);
}

// ---- stage by stage

// 15 of the list put together, 16, then 1 and 14, then 3 to 13 for the text that is stored; the service characters are always
// usable.
fn try_received(
    r: Received,
    s: &[u8],
    lent: &LentElements,
    output: &mut [u8],
) -> Result<usize, Refusal>
    requires { (cannot_be_acknowledged s.now ≡ false) × Takes s.now r × (any_bad_lent (lent_in lent.now) ≡ false) }
    ensures { TriesAfter 2 s.now (lent_in lent.now) output.old result output.new }
{
    let d = r.characters;
    let repetition = stage_level::normal_repetition(s, d, stage_opening::body_start(s));
    let c = verbatim::normal_characters(d.mark, repetition);
    if refusals::MOST_BYTES < record_count(r, s, lent) {
        return failed(Fault::BadList, 0);
    }
    check_parts(c, r, s, lent)?;
    let n = write::check_size(put_parts::<Measured>(&mut [], c, r, s, lent), output.len())?;
    put_text(output, c, r, s, lent);
    write::judged_length(&output[..n])
}

// 23, 15 of a lent list, and what follows them.
fn try_acknowledge(s: &[u8], lent: &LentElements, output: &mut [u8]) -> Result<usize, Refusal>
    ensures { TriesAfter 0 s.now (lent_in lent.now) output.old result output.new }
{
    let r = reported::report_of(s).ok_or(Refusal {
        fault: Fault::NoAcknowledgement,
        place: 0,
    })?;
    if lent_elements::is_bad(lent.date)
        || lent_elements::is_bad(lent.reference)
        || lent_elements::is_bad(lent.message)
    {
        return failed(Fault::BadList, 0);
    }
    try_received(r, s, lent, output)
}

// Acknowledges a received interchange: any slices.
pub fn acknowledge(
    s: &[u8],
    date: &[u8],
    datetable: &[u32],
    reference: &[u8],
    referencetable: &[u32],
    message: &[u8],
    messagetable: &[u32],
    output: &mut [u8],
) -> Result<usize, Refusal>
    ensures { Acknowledges s.now (lent_by date.now datetable.now reference.now referencetable.now message.now messagetable.now) output.old result output.new }
{
    let lent = LentElements {
        date: LentElement {
            bytes: date,
            table: datetable,
        },
        reference: LentElement {
            bytes: reference,
            table: referencetable,
        },
        message: LentElement {
            bytes: message,
            table: messagetable,
        },
    };
    let tried = try_acknowledge(s, &lent, output);
    write::cleared(output, tried)
}
