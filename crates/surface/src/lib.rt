// The surface: all operations of paper 01, "Operations", of the shelf (requests 2026-04, 2026-06 and 2026-07), of mailbox files (request
// 2026-02), of message structures (request 2026-08), of acknowledgements (request 2026-11) and of lines for a spreadsheet (request
// 2026-12), and the parties of an interchange in one call, for programs in C and Rust. It promises, for any bytes and any numbers, the paper's answers as the definitions in specs/ lay
// them out in structs, and every byte and number of each lent buffer at exit. A slice crosses as a pointer and a length;
// nothing is asked of what it holds. `laying` makes the structs of the answers.
#![tactic(auto)]

ghost use Rattle.std.specs.Prelude.{◌≡◌};
ghost use Rattle.operations.specs.Judge.{judge as judge_of, normalise as normalise_of, normalise_buffer};
ghost use Rattle.message_structures.specs.Judging.{judge_by_table};
ghost use Rattle.operations.specs.Compare.{compare as compare_of, keep as keep_of};
ghost use Rattle.operations.specs.Locate.{locate as locate_of};
ghost use Rattle.acknowledgements.specs.Lent.{lent_by};
ghost use Rattle.columns.specs.Operations.{exports, export_buffer, imports, import_output};
ghost use Rattle.surface.specs.Verdicts.{verdict_of};
ghost use Rattle.surface.specs.Answered.{written_of, comparison_of, location_of, listing_of, ReadsOut, WritesOut, AcknowledgesOut};
ghost use Rattle.surface.specs.Parts.{kept_of, part_of};
ghost use Rattle.surface.specs.OfParties.{parties_of};
ghost use Rattle.surface.specs.Rules.{rules};
ghost use Rattle.surface.specs.OfShelf.{started_of, shelving_of, got_of, slot_numbers_of, sum_numbers_of};
ghost use Rattle.surface.specs.OfMailbox.{morning_of, piece_end_of};
ghost use Rattle.mailbox_files.specs.Report.{report as report_of};
ghost use Rattle.carrying.specs.Carrying.{carry as carry_of, carry_shelf, carry_back as carry_back_of, carry_back_shelf};
ghost use Rattle.shelves.specs.Layout.{version_two};
ghost use Rattle.shelves.specs.Operations.{start as start_of, start_shelf, put as put_of, put_shelf, got_offset, got_length, length_answer, remove as remove_of, remove_shelf, slots_of, sums_of};

use laying::{comparison_of, listing_of, location_of, verdict_of, written_of};
use mailbox_laying::{morning_of, piece_laid};
use parties_laying::parties_laid;
use shelf_laying::{got_at, got_refused, shelving_of, slot_numbers_of, started_of, sum_numbers_of};

mod laying;
mod mailbox_laying;
mod parties_laying;
mod shelf_laying;

// What Judge says. `number` is 0 where the interchange is accepted, and `place` is then 0; where it
// is refused, `number` and `place` are the refusal's and all else is 0.
#[repr(C)]
#[derive(Clone, Copy)]
pub struct Verdict {
    pub number: u32,
    pub segments: u32,
    pub messages: u32,
    pub groups: u32,
    pub place: usize,
    pub length: usize,
    pub component: u8,
    pub element: u8,
    pub mark: u8,
    pub release: u8,
    pub repetition: u8,
    pub terminator: u8,
}

// What Normalise, Write, Acknowledge, Export and Import say: 0 and how many bytes they stored, or the refusal's number and place.
#[repr(C)]
#[derive(Clone, Copy)]
pub struct Written {
    pub number: u32,
    pub place: usize,
    pub length: usize,
}

// What Compare says: 0, and 1 for "same" or 0 for "different"; or the refusal's number, the input
// that it speaks of, 1 or 2, and its place.
#[repr(C)]
#[derive(Clone, Copy)]
pub struct Comparison {
    pub number: u32,
    pub input: u32,
    pub same: u32,
    pub place: usize,
}

// What Keep hands back: a part of the first input or of the second.
#[repr(C)]
#[derive(Clone, Copy)]
pub struct Kept {
    pub input: u32,
    pub offset: usize,
    pub length: usize,
}

// What Locate says: 0, and 1 with the offset and the spelled length, or 0 where the value is absent;
// or the refusal's number and place.
#[repr(C)]
#[derive(Clone, Copy)]
pub struct Location {
    pub number: u32,
    pub present: u32,
    pub place: usize,
    pub offset: usize,
    pub length: usize,
}

// What Locate's companion hands back: a part of the input.
#[repr(C)]
#[derive(Clone, Copy)]
pub struct Part {
    pub offset: usize,
    pub length: usize,
}

// What Read says: 0 and how many bytes and numbers of the table it stored, or the refusal's number
// and place.
#[repr(C)]
#[derive(Clone, Copy)]
pub struct Listing {
    pub number: u32,
    pub place: usize,
    pub bytes: usize,
    pub numbers: usize,
}

// What a shelf's Start says, and Carry and Carry back: 0, or the refusal's number and place.
#[repr(C)]
#[derive(Clone, Copy)]
pub struct Started {
    pub number: u32,
    pub place: usize,
}

// What a shelf's Put says: 0, the slot, and 1 for a text that is new or 0 for the copy of one that is
// there; or the refusal's number and place.
#[repr(C)]
#[derive(Clone, Copy)]
pub struct Shelving {
    pub number: u32,
    pub added: u32,
    pub place: usize,
    pub slot: usize,
}

// What a shelf's Get says and hands back: 0 and a part of the shelf; or the refusal's number and place,
// and zero bytes at the shelf's start.
#[repr(C)]
#[derive(Clone, Copy)]
pub struct Got {
    pub number: u32,
    pub place: usize,
    pub offset: usize,
    pub length: usize,
}

// What is read off a shelf's map: 0, how many slots are occupied and the lowest free one, 64 where none
// is; or the refusal's number and place.
#[repr(C)]
#[derive(Clone, Copy)]
pub struct SlotNumbers {
    pub number: u32,
    pub place: usize,
    pub occupied: usize,
    pub lowest: usize,
}

// What the morning report of a mailbox file says: 0, and the figures over its pieces; or the refusal's number
// and place, and then every figure is 0. `refused` is indexed by the refusal's number, 1 to 13; the one at 0
// is 0. `total` and `longest` are the lengths of the accepted interchanges' normal forms.
#[repr(C)]
#[derive(Clone, Copy)]
pub struct MorningFigures {
    pub number: u32,
    pub accepted: u32,
    pub refused: [u32; 14],
    pub segments: u32,
    pub messages: u32,
    pub place: usize,
    pub total: usize,
    pub longest: usize,
}

// How the first piece of a mailbox file ends, and where: `ended` is 1 where a UNZ ends it; else `number` and
// `place` are those of the fault 2 to 6 that the cutting meets, or 0 where it meets the file's end, and `end` is
// the file's length.
#[repr(C)]
#[derive(Clone, Copy)]
pub struct PieceEnd {
    pub number: u32,
    pub ended: u32,
    pub place: usize,
    pub end: usize,
}

// The parties of an interchange: 0, and the parts of the input that spell the sender, the recipient and the
// control reference; or the refusal's number and place, and then each is zero bytes at the input's start.
#[repr(C)]
#[derive(Clone, Copy)]
pub struct Parties {
    pub number: u32,
    pub place: usize,
    pub sender: Part,
    pub recipient: Part,
    pub reference: Part,
}

// What a shelf's two sums are: 0, the text bytes held and the duplicates found, which stay at 4,294,967,295; or
// the refusal's number and place.
#[repr(C)]
#[derive(Clone, Copy)]
pub struct SumNumbers {
    pub number: u32,
    pub held: u32,
    pub duplicates: u32,
    pub place: usize,
}

// Which rules the answers follow: a caller holds it against the number of the header that it was built with.
pub fn hverolda_rules() -> u32
    ensures { result ≡ rules }
{
    5
}

pub fn hverolda_judge(input: &[u8]) -> Verdict
    ensures { result ≡ verdict_of (judge_of input.now) }
{
    verdict_of(judge::judge(input))
}

pub fn hverolda_judge_by_table(table: &[u8], input: &[u8]) -> Verdict
    ensures { result ≡ verdict_of (judge_by_table table.now input.now) }
{
    verdict_of(judge_by_table::judge_by_table(table, input))
}

pub fn hverolda_normalise(buffer: &mut [u8], input: &[u8]) -> Written
    ensures { (result ≡ written_of (normalise_of buffer.old input.now)) × (buffer.new ≡ normalise_buffer buffer.old input.now) }
{
    written_of(normalise::normalise(buffer, input))
}

pub fn hverolda_compare(first: &[u8], second: &[u8]) -> Comparison
    ensures { result ≡ comparison_of (compare_of first.now second.now) }
{
    comparison_of(compare::compare(first, second))
}

// A slice that is handed back cannot cross, so the part is named.
pub fn hverolda_keep(first: &[u8], second: &[u8]) -> Kept
    ensures { result ≡ kept_of (keep_of first.now second.now) }
{
    match compare::kept_part(first, second) {
        compare::Kept::First(length) => Kept {
            input: 1,
            offset: 0,
            length,
        },
        compare::Kept::Second(length) => Kept {
            input: 2,
            offset: 0,
            length,
        },
    }
}

pub fn hverolda_locate_value(
    input: &[u8],
    segment: usize,
    element: usize,
    repeat: usize,
    component: usize,
) -> Location
    ensures { result ≡ location_of (locate_of input.now segment element repeat component) }
{
    location_of(locate::locate(input, segment, element, repeat, component))
}

// A slice that is handed back cannot cross, so the part is named: `run_locate::part` hands back the same.
pub fn hverolda_value_part(
    input: &[u8],
    segment: usize,
    element: usize,
    repeat: usize,
    component: usize,
) -> Part
    ensures { result ≡ part_of input.now segment element repeat component }
{
    let part = locate::part_of(input, segment, element, repeat, component);
    Part {
        offset: part.offset,
        length: part.length,
    }
}

pub fn hverolda_parties(input: &[u8]) -> Parties
    ensures { result ≡ parties_of input.now }
{
    parties_laid(parties::parties_of(input))
}

pub fn hverolda_read(bytes: &mut [u8], table: &mut [u32], input: &[u8]) -> Listing
    ensures { ReadsOut bytes.old table.old input.now result bytes.new table.new }
{
    listing_of(read::read(bytes, table, input))
}

pub fn hverolda_write(service: &[u8], bytes: &[u8], table: &[u32], output: &mut [u8]) -> Written
    ensures { WritesOut service.now bytes.now table.now output.old result output.new }
{
    written_of(write::write(service, bytes, table, output))
}

// The three lists are lent as Write's is: values and a table of three numbers a value.
pub fn hverolda_acknowledge(
    received: &[u8],
    date: &[u8],
    datetable: &[u32],
    reference: &[u8],
    referencetable: &[u32],
    message: &[u8],
    messagetable: &[u32],
    output: &mut [u8],
) -> Written
    ensures { AcknowledgesOut received.now (lent_by date.now datetable.now reference.now referencetable.now message.now messagetable.now) output.old result output.new }
{
    written_of(acknowledge::acknowledge(
        received,
        date,
        datetable,
        reference,
        referencetable,
        message,
        messagetable,
        output,
    ))
}

pub fn hverolda_export(buffer: &mut [u8], input: &[u8]) -> Written
    ensures { (result ≡ written_of (exports buffer.old input.now)) × (buffer.new ≡ export_buffer buffer.old input.now) }
{
    written_of(export_columns::export_columns(buffer, input))
}

pub fn hverolda_import(service: &[u8], columns: &[u8], output: &mut [u8]) -> Written
    ensures { (result ≡ written_of (imports service.now columns.now output.old)) × (output.new ≡ import_output service.now columns.now output.old) }
{
    written_of(import_columns::import_columns(service, columns, output))
}

pub fn hverolda_shelf_start(shelf: &mut [u8]) -> Started
    ensures { (result ≡ started_of (start_of version_two shelf.old)) × (shelf.new ≡ start_shelf version_two shelf.old) }
{
    started_of(shelf::start(shelf))
}

pub fn hverolda_shelf_put(shelf: &mut [u8], input: &[u8]) -> Shelving
    ensures { (result ≡ shelving_of (put_of version_two shelf.old input.now)) × (shelf.new ≡ put_shelf version_two shelf.old input.now) }
{
    shelving_of(shelf::put(shelf, input))
}

// A slice that is handed back cannot cross, so the part is named: `shelf::get` hands back the same. What
// it was refused by is said with it.
pub fn hverolda_shelf_get(shelf: &[u8], slot: usize) -> Got
    ensures { result ≡ got_of (length_answer version_two shelf.now slot) (got_offset version_two shelf.now slot) (got_length version_two shelf.now slot) }
{
    match shelf::measure(shelf, slot) {
        Err(refusal) => got_refused(refusal),
        Ok(length) => {
            let l = shelf_layout::version_two();
            got_at(shelf_layout::start_of(shelf, l, slot), length)
        }
    }
}

pub fn hverolda_shelf_remove(shelf: &mut [u8], slot: usize) -> Written
    ensures { (result ≡ written_of (remove_of version_two shelf.old slot)) × (shelf.new ≡ remove_shelf version_two shelf.old slot) }
{
    written_of(shelf::remove(shelf, slot))
}

pub fn hverolda_shelf_slots(shelf: &[u8]) -> SlotNumbers
    ensures { result ≡ slot_numbers_of (slots_of version_two shelf.now) }
{
    slot_numbers_of(shelf::slots(shelf))
}

pub fn hverolda_report(file: &[u8]) -> MorningFigures
    ensures { result ≡ morning_of (report_of file.now) }
{
    morning_of(report::report(file))
}

pub fn hverolda_piece(file: &[u8]) -> PieceEnd
    ensures { result ≡ piece_end_of file.now }
{
    piece_laid(pieces::first_piece(file), file.len())
}

pub fn hverolda_shelf_sums(shelf: &[u8]) -> SumNumbers
    ensures { result ≡ sum_numbers_of (sums_of version_two shelf.now) }
{
    sum_numbers_of(shelf::sums(shelf))
}

pub fn hverolda_shelf_carry(shelf: &mut [u8]) -> Started
    ensures { (result ≡ started_of (carry_of shelf.old)) × (shelf.new ≡ carry_shelf shelf.old) }
{
    started_of(shelf_carrying::carry(shelf))
}

pub fn hverolda_shelf_carry_back(shelf: &mut [u8]) -> Started
    ensures { (result ≡ started_of (carry_back_of shelf.old)) × (shelf.new ≡ carry_back_shelf shelf.old) }
{
    started_of(shelf_carrying::carry_back(shelf))
}
