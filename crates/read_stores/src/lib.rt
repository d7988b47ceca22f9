// The value list of a body in a byte buffer and a table, or how much it takes of both (paper 01, "Operations":
// Read): one walk over the body's tokens puts it into any sink. It promises every byte and every number of
// both at exit: the value bytes of the body's tokens end to end, and the table of these values; what is not
// stored keeps its value. And it promises the numbers of bytes and of table numbers that the tokens take.
#![tactic(auto)]

ghost use Rattle.std.specs.Prelude.{◌≡◌, ◌∷◌, [], ◌+◌, ◌*◌, ◌≤◌, ◌<◌, length};
ghost use Rattle.values.specs.Tokens.{tokens_at};
ghost use Rattle.read_counts.specs.Tally.{values, end, after_byte, byte_numbers, after_separator, separator_numbers, Tallies};
ghost use Rattle.read_stores.specs.Stores.{Room, Stores};
ghost use Rattle.refusals.specs.Limits.{most_bytes};

use characters::Characters;
use plain_runs::past_plain;
use read_counts::{
    ListSink, Listing, Tally, put_held, start_of_list, with_more, with_one_more, with_separator,
};
use scanner::{Lexed, lex};
use storing::Measured;

// Puts a byte of a value, and the records that it lets out.
fn put_value_byte<S: ListSink>(buffer: &mut [u8], table: &mut [u32], l: Listing, b: u8) -> Listing
    requires { (end l < S.room buffer.old) × (values l * 3 ≤ S.room table.old) × (values l ≤ most_bytes) × (end l ≤ most_bytes) }
    ensures { (buffer.new ≡ S.holds buffer.old (end l) (b ∷ [])) × (table.new ≡ S.holds table.old (l.records * 3) (byte_numbers l)) × (result ≡ after_byte l) }
{
    S::set(buffer, l.start + l.size, b);
    with_one_more(put_held::<S>(table, l))
}

// A terminator puts the record of the value that it ends; another separator is held back.
fn put_separator<S: ListSink>(table: &mut [u32], l: Listing, rank: u8) -> Listing
    requires { (l.records * 3 + length (separator_numbers l rank) ≤ S.room table.old) × (values l ≤ most_bytes) × (end l ≤ most_bytes) }
    ensures { (table.new ≡ S.holds table.old (l.records * 3) (separator_numbers l rank)) × (result ≡ after_separator l rank) }
{
    if rank == 0 {
        S::put_record(table, l);
    }
    with_separator(l, rank)
}

// Puts the values of the body that begins at `start`, and returns how much they take. The plain bytes that follow
// one of a value are taken at once. (Export's walk over a body stands by itself, and says why. The
// scanner tells the next place, so that no `for` can count it.)
pub fn put_values<S: ListSink>(
    buffer: &mut [u8],
    table: &mut [u32],
    s: &[u8],
    c: Characters,
    start: usize,
) -> Tally
    requires { (length s.now ≤ most_bytes) × Room S.room buffer.old table.old (tokens_at c s.now start) }
    ensures { Stores S.holds buffer.old table.old (tokens_at c s.now start) buffer.new table.new × Tallies (tokens_at c s.now start) result }
{
    let mut l = start_of_list();
    let mut at = start;
    loop {
        match lex(s, c, at) {
            Lexed::Byte { byte, next, .. } => {
                let begun = put_value_byte::<S>(buffer, table, l, byte);
                at = past_plain(s, c, next);
                S::put_plain(buffer, begun.start + begun.size, s, next, at);
                l = with_more(begun, at - next);
            }
            Lexed::Separator { rank, next } => {
                l = put_separator::<S>(table, l, rank);
                at = next;
            }
            Lexed::Stray { next } => {
                at = next;
            }
            Lexed::End => {
                return Tally {
                    bytes: l.start + l.size,
                    numbers: l.records * 3,
                };
            }
        }
    }
}

// How much the values take, which needs no buffers.
pub fn tally_of(s: &[u8], c: Characters, start: usize) -> Tally
    requires { length s.now ≤ most_bytes }
    ensures { Tallies (tokens_at c s.now start) result }
{
    put_values::<Measured>(&mut [], &mut [], s, c, start)
}
