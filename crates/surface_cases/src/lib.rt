// What the surface says across to C, held against the promises of the operations (specs/Says.antt). Each function here is
// a caller of one function of the surface and does nothing else: that its contract follows from the surface's shows that a
// struct's fields, the order of the arguments and the operation itself are those that are meant, also where a contract
// of the surface and its code would be wrong in the same way. No program links it.
#![tactic(auto)]

ghost use Rattle.surface_cases.specs.Says.{SaysJudged, SaysJudgedByTable, SaysNormalised, SaysCompared, SaysKept, SaysLocated, SaysPart, SaysListed, SaysWritten, SaysAcknowledged, SaysExported, SaysImported, SaysStarted, SaysPut, SaysGot, SaysRemoved, SaysCounted, SaysSummed, SaysCarried, SaysCarriedBack, SaysReported};

use surface::{
    Comparison, Got, Kept, Listing, Location, MorningFigures, Part, Shelving, SlotNumbers, Started,
    SumNumbers, Verdict, Written,
};

pub fn judge(input: &[u8]) -> Verdict
    ensures { SaysJudged input.now result }
{
    surface::hverolda_judge(input)
}

pub fn judge_by_table(table: &[u8], input: &[u8]) -> Verdict
    ensures { SaysJudgedByTable table.now input.now result }
{
    surface::hverolda_judge_by_table(table, input)
}

pub fn normalise(buffer: &mut [u8], input: &[u8]) -> Written
    ensures { SaysNormalised buffer.old input.now result buffer.new }
{
    surface::hverolda_normalise(buffer, input)
}

pub fn compare(first: &[u8], second: &[u8]) -> Comparison
    ensures { SaysCompared first.now second.now result }
{
    surface::hverolda_compare(first, second)
}

pub fn keep(first: &[u8], second: &[u8]) -> Kept
    ensures { SaysKept first.now second.now result }
{
    surface::hverolda_keep(first, second)
}

pub fn locate_value(
    input: &[u8],
    segment: usize,
    element: usize,
    repeat: usize,
    component: usize,
) -> Location
    ensures { SaysLocated input.now segment element repeat component result }
{
    surface::hverolda_locate_value(input, segment, element, repeat, component)
}

pub fn value_part(
    input: &[u8],
    segment: usize,
    element: usize,
    repeat: usize,
    component: usize,
) -> Part
    ensures { SaysPart input.now segment element repeat component result }
{
    surface::hverolda_value_part(input, segment, element, repeat, component)
}

pub fn read(bytes: &mut [u8], table: &mut [u32], input: &[u8]) -> Listing
    ensures { SaysListed bytes.old table.old input.now result bytes.new table.new }
{
    surface::hverolda_read(bytes, table, input)
}

pub fn write(service: &[u8], bytes: &[u8], table: &[u32], output: &mut [u8]) -> Written
    ensures { SaysWritten service.now bytes.now table.now output.old result output.new }
{
    surface::hverolda_write(service, bytes, table, output)
}

pub fn acknowledge(
    received: &[u8],
    date: &[u8],
    datetable: &[u32],
    reference: &[u8],
    referencetable: &[u32],
    message: &[u8],
    messagetable: &[u32],
    output: &mut [u8],
) -> Written
    ensures { SaysAcknowledged received.now date.now datetable.now reference.now referencetable.now message.now messagetable.now output.old result output.new }
{
    surface::hverolda_acknowledge(
        received,
        date,
        datetable,
        reference,
        referencetable,
        message,
        messagetable,
        output,
    )
}

pub fn export(buffer: &mut [u8], input: &[u8]) -> Written
    ensures { SaysExported buffer.old input.now result buffer.new }
{
    surface::hverolda_export(buffer, input)
}

pub fn import(service: &[u8], columns: &[u8], output: &mut [u8]) -> Written
    ensures { SaysImported service.now columns.now output.old result output.new }
{
    surface::hverolda_import(service, columns, output)
}

pub fn start(shelf: &mut [u8]) -> Started
    ensures { SaysStarted shelf.old result shelf.new }
{
    surface::hverolda_shelf_start(shelf)
}

pub fn put(shelf: &mut [u8], input: &[u8]) -> Shelving
    ensures { SaysPut shelf.old input.now result shelf.new }
{
    surface::hverolda_shelf_put(shelf, input)
}

pub fn get(shelf: &[u8], slot: usize) -> Got
    ensures { SaysGot shelf.now slot result }
{
    surface::hverolda_shelf_get(shelf, slot)
}

pub fn remove(shelf: &mut [u8], slot: usize) -> Written
    ensures { SaysRemoved shelf.old slot result shelf.new }
{
    surface::hverolda_shelf_remove(shelf, slot)
}

pub fn slots(shelf: &[u8]) -> SlotNumbers
    ensures { SaysCounted shelf.now result }
{
    surface::hverolda_shelf_slots(shelf)
}

pub fn sums(shelf: &[u8]) -> SumNumbers
    ensures { SaysSummed shelf.now result }
{
    surface::hverolda_shelf_sums(shelf)
}

pub fn carry(shelf: &mut [u8]) -> Started
    ensures { SaysCarried shelf.old result shelf.new }
{
    surface::hverolda_shelf_carry(shelf)
}

pub fn carry_back(shelf: &mut [u8]) -> Started
    ensures { SaysCarriedBack shelf.old result shelf.new }
{
    surface::hverolda_shelf_carry_back(shelf)
}

pub fn report(file: &[u8]) -> MorningFigures
    ensures { SaysReported file.now result }
{
    surface::hverolda_report(file)
}
