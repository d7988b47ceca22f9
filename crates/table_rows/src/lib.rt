// The entries of a table (request 2026-08), read where they stand: "eight big-endian bytes an entry". It
// promises the entry that `message_tables` reads there. Whether an entry fits is left to
// `table_soundness`, and what it takes to `table_walk`. (`as` cuts a number to the two bytes that were read: the library
// has no `from` of a `u64` to a `usize`.)
#![tactic(auto)]

ghost use Rattle.std.specs.Prelude.{◌+◌, ◌*◌, ◌≤◌, ◌<◌, ◌≡◌, length, drop};
ghost use Rattle.lists.specs.Lists.{same};
ghost use Rattle.message_tables.specs.Entries.{entry_of, is_group, is_mandatory};
ghost use Rattle.table_rows.specs.Rows.{tag_bytes, entry_in};

use big_endian::get;

// Bytes an entry.
pub const ROW_BYTES: usize = 8;

// A tag of three bytes; zeros are a group's own.
#[derive(Clone, Copy, Default, PartialEq, Eq)]
pub struct Tag {
    pub first: u8,
    pub second: u8,
    pub third: u8,
}

// An entry: its tag, `M` or `C`, the largest number of repeats, and how many entries stand under it. The
// status is a byte and no enum: by the contract of `row_at` it is the byte that stands there, sound or not.
#[derive(Clone, Copy)]
pub struct Row {
    pub tag: Tag,
    pub status: u8,
    pub repeats: usize,
    pub under: usize,
}

// Three zeros.
pub fn no_tag() -> Tag
    ensures { result ≡ record { first = 0; second = 0; third = 0 } }
{
    Tag::default()
}

pub fn same_tag(a: Tag, b: Tag) -> bool
    ensures { result ≡ same (tag_bytes a) (tag_bytes b) }
{
    a == b
}

// The entry of a number, from 0.
pub fn row_at(table: &[u8], number: usize) -> Row
    requires { number * 8 + 8 ≤ length table.now }
    ensures is { entry_in result ≡ entry_of (drop (number * 8) table.now) }
    ensures small { result.under < 65536 }
{
    let at = number * ROW_BYTES;
    let tag = Tag {
        first: table[at],
        second: table[at + 1],
        third: table[at + 2],
    };
    Row {
        tag,
        status: table[at + 3],
        repeats: get(table, at + 4, 2) as usize,
        under: get(table, at + 6, 2) as usize,
    }
}

// "zeros for a group's own"
pub fn is_group(row: Row) -> bool
    ensures { result ≡ is_group (entry_in row) }
{
    same_tag(row.tag, no_tag())
}

pub fn is_mandatory(row: Row) -> bool
    ensures { result ≡ is_mandatory (entry_in row) }
{
    row.status == b'M'
}
