// The list put together (request 2026-11) as a row of parts that stand where they are: words of this crate, values and
// elements of the received input where they are spelled, lent lists. Of each part: how many records it is, which of them
// cannot stand, and its bytes, which a sink stores in a lent buffer or measures alone. Each goes through the steps that
// the writer takes; nothing is copied together first. That the parts are the list is proved in proofs/.
#![tactic(auto)]

ghost use Rattle.std.specs.Prelude.{◌≡◌, ◌+◌, ◌≤◌, ◌<◌, length, get_or};
ghost use Rattle.values.specs.Tokens.{tokens_at};
ghost use Rattle.emission_laws.specs.Emission.{waiting};
ghost use Rattle.operations.specs.ValueList.{list_element};
ghost use Rattle.value_list_text.specs.Advancing.{records_tokens, Appended};
ghost use Rattle.received_pieces.specs.Pieces.{element_in, Spelt};
ghost use Rattle.refusals.specs.Limits.{most_bytes};
ghost use Rattle.lent_elements.specs.Leading.{Reaches, Advances};
ghost use Rattle.acknowledgement_parts.specs.Parts.{tag_at, figure_at, parts_of, lent_in, syntax_items, part_items, Fine, Puttable, first_bare, Stands};
ghost use Rattle.refusals.specs.Refusals.{outcome};

use characters::Characters;
use emission_laws::Measure;
use held_separators::{nothing_held, put_separator};
use lent_elements::{LentElement, put_list};
use received_pieces::{put_piece, values_in};
use refusals::Refusal;
use storing::Sink;
use value_list_text::put_record;
use value_lists::{Record, check_release};

// ---- the parts in the order of the text

// What is taken over from the received interchange: its service characters, and places. `level`, `version`, `sender`,
// `recipient` and `reference` are where values and elements of its UNB begin in the input, and `action` is where the
// action code stands among the words of an acknowledgement.
#[derive(Clone, Copy)]
pub struct Received {
    pub characters: Characters,
    pub level: usize,
    pub version: usize,
    pub sender: usize,
    pub recipient: usize,
    pub reference: usize,
    pub action: u32,
}

// A part of the list put together. `start` and `size` say where a word stands among the words, `level`, `version` and
// `from` where a value or an element begins in the received input.
#[derive(Clone, Copy)]
pub enum Part {
    Word { kind: u32, start: u32, size: u32 },
    Syntax { level: usize, version: usize },
    Element { from: usize },
    Date,
    Reference,
    Message,
}

// The value lists that are lent: the date and time, the new control reference and the message identification.
#[derive(Clone, Copy)]
pub struct LentElements<'a> {
    pub date: LentElement<'a>,
    pub reference: LentElement<'a>,
    pub message: LentElement<'a>,
}

// A tag, by its place among the words.
fn tag(start: u32) -> Part
    ensures { result ≡ tag_at start }
{
    Part::Word {
        kind: 0,
        start,
        size: 3,
    }
}

// An element of one byte, by its place among the words.
fn figure(start: u32) -> Part
    ensures { result ≡ figure_at start }
{
    Part::Word {
        kind: 1,
        start,
        size: 1,
    }
}

// The part of a number, from 0. (Numbers, and no array of the parts: `acknowledge` says why.)
pub fn part_at(r: Received, number: usize) -> Part
    requires { number < 20 }
    ensures { result ≡ get_or (parts_of r) number Part.Date }
{
    match number {
        0 => tag(0),
        1 => Part::Syntax {
            level: r.level,
            version: r.version,
        },
        2 => Part::Element { from: r.recipient },
        3 => Part::Element { from: r.sender },
        4 => Part::Date,
        5 => Part::Reference,
        6 => tag(3),
        7 => figure(15),
        8 => Part::Message,
        9 => tag(6),
        10 => Part::Element { from: r.reference },
        11 => Part::Element { from: r.sender },
        12 => Part::Element { from: r.recipient },
        13 => figure(r.action),
        14 => tag(9),
        15 => figure(16),
        16 => figure(15),
        17 => tag(12),
        18 => figure(15),
        _ => Part::Reference,
    }
}

// ---- its bytes

// Puts level and version, each a value, where the text ends.
fn put_syntax<S: Sink>(
    buffer: &mut [u8],
    m: Measure,
    c: Characters,
    s: &[u8],
    d: Characters,
    level: usize,
    version: usize,
) -> Measure
    requires { (m.total ≤ most_bytes) × (waiting m.held ≤ most_bytes) × (length s.now ≤ most_bytes) × Reaches S.room c buffer.old m (records_tokens (syntax_items s.now d level version)) }
    ensures { Appended S.holds c buffer.old m (syntax_items s.now d level version) buffer.new result }
{
    let begun = put_separator::<S>(buffer, m, c, 1);
    let named = put_piece::<S>(buffer, begun, c, s, d, 3, level);
    let next = put_separator::<S>(buffer, named, c, 3);
    put_piece::<S>(buffer, next, c, s, d, 3, version)
}

// Puts an element where the text ends. What is held back after it is what trimming takes at its end.
fn put_element<S: Sink>(
    buffer: &mut [u8],
    m: Measure,
    c: Characters,
    s: &[u8],
    d: Characters,
    from: usize,
) -> Measure
    requires { (m.total ≤ most_bytes) × (waiting m.held ≤ most_bytes) × (length s.now ≤ most_bytes) × Spelt (tokens_at d s.now from) × Reaches S.room c buffer.old m (records_tokens (list_element 1 (element_in (tokens_at d s.now from)))) }
    ensures { Appended S.holds c buffer.old m (list_element 1 (element_in (tokens_at d s.now from))) buffer.new result }
{
    let begun = put_separator::<S>(buffer, m, c, 1);
    let past = put_piece::<S>(buffer, begun, c, s, d, 1, from);
    Measure {
        held: nothing_held(),
        ..past
    }
}

// Puts a part where the text ends; where it is over 32,000 bytes, some of the part may be left.
pub fn put_part<S: Sink>(
    buffer: &mut [u8],
    m: Measure,
    c: Characters,
    part: Part,
    s: &[u8],
    d: Characters,
    lent: &LentElements,
) -> Measure
    requires { Puttable S.room c buffer.old s.now d (lent_in lent.now) part m }
    ensures { Advances S.holds c buffer.old m (part_items s.now d (lent_in lent.now) part) buffer.new result }
{
    match part {
        Part::Word { kind, start, size } => {
            let words = *b"UNBUNHUCIUNTUNZ1347";
            put_record::<S>(buffer, m, c, &words, Record { kind, start, size })
        }
        Part::Syntax { level, version } => put_syntax::<S>(buffer, m, c, s, d, level, version),
        Part::Element { from } => put_element::<S>(buffer, m, c, s, d, from),
        Part::Date => put_list::<S>(buffer, m, c, lent.date),
        Part::Reference => put_list::<S>(buffer, m, c, lent.reference),
        Part::Message => put_list::<S>(buffer, m, c, lent.message),
    }
}

// ---- records

// How many records a part is.
pub fn records_in(part: Part, s: &[u8], d: Characters, lent: &LentElements) -> usize
    requires { Fine s.now d (lent_in lent.now) part × (length s.now ≤ most_bytes) }
    ensures { (result ≡ length (part_items s.now d (lent_in lent.now) part)) × (result ≤ 32001) }
{
    match part {
        Part::Word { .. } => 1,
        Part::Syntax { .. } => 2,
        Part::Element { from } => values_in(s, d, from),
        Part::Date => lent.date.table.len() / 3,
        Part::Reference => lent.reference.table.len() / 3,
        Part::Message => lent.message.table.len() / 3,
    }
}

// The first of a part's records that cannot stand, as refusal 16 answers for the part alone: only a lent list may have one.
pub fn check_part(
    c: Characters,
    part: Part,
    s: &[u8],
    d: Characters,
    lent: &LentElements,
) -> Result<(), Refusal>
    requires { Fine s.now d (lent_in lent.now) part × Stands c s.now d part }
    ensures { result ≡ outcome (first_bare c 0 (part_items s.now d (lent_in lent.now) part)) }
{
    match part {
        Part::Word { .. } | Part::Syntax { .. } | Part::Element { .. } => Ok(()),
        Part::Date => check_release(c, lent.date.bytes, lent.date.table),
        Part::Reference => check_release(c, lent.reference.bytes, lent.reference.table),
        Part::Message => check_release(c, lent.message.bytes, lent.message.table),
    }
}
