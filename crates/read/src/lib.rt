// Read (paper 01, "Operations"): the value list of an accepted interchange in a lent byte buffer and
// a lent table of three 32-bit numbers a value. It promises, for any bytes, the answer that
// `operations` gives, and every byte of the buffer and every number of the table at exit: what is
// beyond the list, and all of both where something is refused, keeps its values.
#![tactic(auto)]

ghost use Rattle.std.specs.Prelude.{◌≡◌};
ghost use Rattle.std.proofs.Math.Option.{none};
ghost use Rattle.stages.specs.Stages.{refusal_of};
ghost use Rattle.operations.specs.Judge.{figures_of};
ghost use Rattle.contracts.specs.Promises.{Reads};

use answers::{Figures, Listed};
use refusals::{Fault, Refusal};
use refusing::failed;
use storing::Stored;

// Stores the value list of an interchange that was accepted. "Lent buffer too short": the place is the number
// of bytes, or of table numbers, that are needed.
fn store_list(buffer: &mut [u8], table: &mut [u32], s: &[u8], i: Figures) -> Result<Listed, Refusal>
    requires { (refusal_of s.now ≡ none) × (i ≡ figures_of s.now) }
    ensures { Reads buffer.old table.old s.now result buffer.new table.new }
{
    let c = i.characters;
    let start = stage_opening::body_start(s);
    let tally = read_stores::tally_of(s, c, start);
    if buffer.len() < tally.bytes {
        return failed(Fault::BufferShort, tally.bytes);
    }
    if table.len() < tally.numbers {
        return failed(Fault::BufferShort, tally.numbers);
    }
    read_stores::put_values::<Stored>(buffer, table, s, c, start);
    Ok(Listed {
        bytes: tally.bytes,
        numbers: tally.numbers,
    })
}

pub fn read(buffer: &mut [u8], table: &mut [u32], s: &[u8]) -> Result<Listed, Refusal>
    ensures { Reads buffer.old table.old s.now result buffer.new table.new }
{
    let figures = judge::judge(s)?;
    store_list(buffer, table, s, figures)
}
