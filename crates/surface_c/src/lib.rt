// The surface for programs in C and Rust: each function of `surface`, under the name by which they link it. It promises what that
// function promises. A slice crosses as a pointer and a length; nothing is asked of what it holds.
#![tactic(auto)]

ghost use Rattle.std.specs.Prelude.{◌≡◌};
ghost use Rattle.operations.specs.Judge.{judge as judge_of, normalise as normalise_of, normalise_buffer};
ghost use Rattle.message_structures.specs.Judging.{judge_by_table};
ghost use Rattle.operations.specs.Compare.{compare as compare_of, keep as keep_of};
ghost use Rattle.operations.specs.Locate.{locate as locate_of};
ghost use Rattle.acknowledgements.specs.Lent.{lent_by};
ghost use Rattle.columns.specs.Operations.{exports, export_buffer, imports, import_output};
ghost use Rattle.surface.specs.Verdicts.{verdict_of};
ghost use Rattle.surface.specs.Answered.{written_of, comparison_of, location_of, listing_of, ReadsOut, WritesOut, AcknowledgesOut};
ghost use Rattle.surface.specs.Parts.{kept_of, part_of};
ghost use Rattle.surface.specs.OfParties.{parties_of};
ghost use Rattle.surface.specs.Rules.{rules};
ghost use Rattle.surface.specs.OfShelf.{started_of, shelving_of, got_of, slot_numbers_of, sum_numbers_of};
ghost use Rattle.surface.specs.OfMailbox.{morning_of, piece_end_of};
ghost use Rattle.mailbox_files.specs.Report.{report as report_of};
ghost use Rattle.carrying.specs.Carrying.{carry as carry_of, carry_shelf, carry_back as carry_back_of, carry_back_shelf};
ghost use Rattle.shelves.specs.Layout.{version_two};
ghost use Rattle.shelves.specs.Operations.{start as start_of, start_shelf, put as put_of, put_shelf, got_offset, got_length, length_answer, remove as remove_of, remove_shelf, slots_of, sums_of};

use surface::{
    Comparison, Got, Kept, Listing, Location, MorningFigures, Part, Parties, PieceEnd, Shelving,
    SlotNumbers, Started, SumNumbers, Verdict, Written,
};

#[unsafe(no_mangle)]
pub extern "C" fn hverolda_rules() -> u32
    ensures { result ≡ rules }
{
    surface::hverolda_rules()
}

#[unsafe(no_mangle)]
pub extern "C" fn hverolda_judge(input: &[u8]) -> Verdict
    ensures { result ≡ verdict_of (judge_of input.now) }
{
    surface::hverolda_judge(input)
}

#[unsafe(no_mangle)]
pub extern "C" fn hverolda_judge_by_table(table: &[u8], input: &[u8]) -> Verdict
    ensures { result ≡ verdict_of (judge_by_table table.now input.now) }
{
    surface::hverolda_judge_by_table(table, input)
}

#[unsafe(no_mangle)]
pub extern "C" fn hverolda_normalise(buffer: &mut [u8], input: &[u8]) -> Written
    ensures { (result ≡ written_of (normalise_of buffer.old input.now)) × (buffer.new ≡ normalise_buffer buffer.old input.now) }
{
    surface::hverolda_normalise(buffer, input)
}

#[unsafe(no_mangle)]
pub extern "C" fn hverolda_compare(first: &[u8], second: &[u8]) -> Comparison
    ensures { result ≡ comparison_of (compare_of first.now second.now) }
{
    surface::hverolda_compare(first, second)
}

#[unsafe(no_mangle)]
pub extern "C" fn hverolda_keep(first: &[u8], second: &[u8]) -> Kept
    ensures { result ≡ kept_of (keep_of first.now second.now) }
{
    surface::hverolda_keep(first, second)
}

#[unsafe(no_mangle)]
pub extern "C" fn hverolda_locate_value(
    input: &[u8],
    segment: usize,
    element: usize,
    repeat: usize,
    component: usize,
) -> Location
    ensures { result ≡ location_of (locate_of input.now segment element repeat component) }
{
    surface::hverolda_locate_value(input, segment, element, repeat, component)
}

#[unsafe(no_mangle)]
pub extern "C" fn hverolda_value_part(
    input: &[u8],
    segment: usize,
    element: usize,
    repeat: usize,
    component: usize,
) -> Part
    ensures { result ≡ part_of input.now segment element repeat component }
{
    surface::hverolda_value_part(input, segment, element, repeat, component)
}

#[unsafe(no_mangle)]
pub extern "C" fn hverolda_parties(input: &[u8]) -> Parties
    ensures { result ≡ parties_of input.now }
{
    surface::hverolda_parties(input)
}

#[unsafe(no_mangle)]
pub extern "C" fn hverolda_read(bytes: &mut [u8], table: &mut [u32], input: &[u8]) -> Listing
    ensures { ReadsOut bytes.old table.old input.now result bytes.new table.new }
{
    surface::hverolda_read(bytes, table, input)
}

#[unsafe(no_mangle)]
pub extern "C" fn hverolda_write(
    service: &[u8],
    bytes: &[u8],
    table: &[u32],
    output: &mut [u8],
) -> Written
    ensures { WritesOut service.now bytes.now table.now output.old result output.new }
{
    surface::hverolda_write(service, bytes, table, output)
}

#[unsafe(no_mangle)]
pub extern "C" fn hverolda_acknowledge(
    received: &[u8],
    date: &[u8],
    datetable: &[u32],
    reference: &[u8],
    referencetable: &[u32],
    message: &[u8],
    messagetable: &[u32],
    output: &mut [u8],
) -> Written
    ensures { AcknowledgesOut received.now (lent_by date.now datetable.now reference.now referencetable.now message.now messagetable.now) output.old result output.new }
{
    surface::hverolda_acknowledge(
        received,
        date,
        datetable,
        reference,
        referencetable,
        message,
        messagetable,
        output,
    )
}

#[unsafe(no_mangle)]
pub extern "C" fn hverolda_export(buffer: &mut [u8], input: &[u8]) -> Written
    ensures { (result ≡ written_of (exports buffer.old input.now)) × (buffer.new ≡ export_buffer buffer.old input.now) }
{
    surface::hverolda_export(buffer, input)
}

#[unsafe(no_mangle)]
pub extern "C" fn hverolda_import(service: &[u8], columns: &[u8], output: &mut [u8]) -> Written
    ensures { (result ≡ written_of (imports service.now columns.now output.old)) × (output.new ≡ import_output service.now columns.now output.old) }
{
    surface::hverolda_import(service, columns, output)
}

#[unsafe(no_mangle)]
pub extern "C" fn hverolda_shelf_start(shelf: &mut [u8]) -> Started
    ensures { (result ≡ started_of (start_of version_two shelf.old)) × (shelf.new ≡ start_shelf version_two shelf.old) }
{
    surface::hverolda_shelf_start(shelf)
}

#[unsafe(no_mangle)]
pub extern "C" fn hverolda_shelf_put(shelf: &mut [u8], input: &[u8]) -> Shelving
    ensures { (result ≡ shelving_of (put_of version_two shelf.old input.now)) × (shelf.new ≡ put_shelf version_two shelf.old input.now) }
{
    surface::hverolda_shelf_put(shelf, input)
}

#[unsafe(no_mangle)]
pub extern "C" fn hverolda_shelf_get(shelf: &[u8], slot: usize) -> Got
    ensures { result ≡ got_of (length_answer version_two shelf.now slot) (got_offset version_two shelf.now slot) (got_length version_two shelf.now slot) }
{
    surface::hverolda_shelf_get(shelf, slot)
}

#[unsafe(no_mangle)]
pub extern "C" fn hverolda_shelf_remove(shelf: &mut [u8], slot: usize) -> Written
    ensures { (result ≡ written_of (remove_of version_two shelf.old slot)) × (shelf.new ≡ remove_shelf version_two shelf.old slot) }
{
    surface::hverolda_shelf_remove(shelf, slot)
}

#[unsafe(no_mangle)]
pub extern "C" fn hverolda_shelf_slots(shelf: &[u8]) -> SlotNumbers
    ensures { result ≡ slot_numbers_of (slots_of version_two shelf.now) }
{
    surface::hverolda_shelf_slots(shelf)
}

#[unsafe(no_mangle)]
pub extern "C" fn hverolda_report(file: &[u8]) -> MorningFigures
    ensures { result ≡ morning_of (report_of file.now) }
{
    surface::hverolda_report(file)
}

#[unsafe(no_mangle)]
pub extern "C" fn hverolda_piece(file: &[u8]) -> PieceEnd
    ensures { result ≡ piece_end_of file.now }
{
    surface::hverolda_piece(file)
}

#[unsafe(no_mangle)]
pub extern "C" fn hverolda_shelf_sums(shelf: &[u8]) -> SumNumbers
    ensures { result ≡ sum_numbers_of (sums_of version_two shelf.now) }
{
    surface::hverolda_shelf_sums(shelf)
}

#[unsafe(no_mangle)]
pub extern "C" fn hverolda_shelf_carry(shelf: &mut [u8]) -> Started
    ensures { (result ≡ started_of (carry_of shelf.old)) × (shelf.new ≡ carry_shelf shelf.old) }
{
    surface::hverolda_shelf_carry(shelf)
}

#[unsafe(no_mangle)]
pub extern "C" fn hverolda_shelf_carry_back(shelf: &mut [u8]) -> Started
    ensures { (result ≡ started_of (carry_back_of shelf.old)) × (shelf.new ≡ carry_back_shelf shelf.old) }
{
    surface::hverolda_shelf_carry_back(shelf)
}
