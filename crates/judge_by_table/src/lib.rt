// The second Judge (request 2026-08), which is lent a table: 21 before all else, Judge's own run of 1 to 12, then
// 22, and 13 as Judge asks it. It promises, for any bytes lent as a table and any input, the answer that
// `message_structures` gives.
#![tactic(auto)]

ghost use Rattle.std.specs.Prelude.{◌≡◌, true};
ghost use Rattle.std.proofs.Math.Option.{none};
ghost use Rattle.refusals.specs.Refusals.{answering};
ghost use Rattle.stages.specs.Stages.{stages_in};
ghost use Rattle.stage_opening.specs.Runs.{found_by};
ghost use Rattle.message_tables.specs.Soundness.{is_sound};
ghost use Rattle.structure_contracts.specs.Promises.{JudgesByTable};

use answers::Figures;
use judge::{judge_length, stages_to_12};
use refusals::Refusal;
use stage_opening::Found;

// 22 and 13, of an input that all others passed.
fn judge_bodies(table: &[u8], s: &[u8], found: Found) -> Result<Figures, Refusal>
    requires { (is_sound table.now ≡ true) × (answering (stages_in s.now 1 12) ≡ none) × (found ≡ found_by 12 s.now) }
    ensures { JudgesByTable table.now s.now result }
{
    stage_structure::check(s, found.characters, table, found.start)?;
    judge_length(s, found)
}

// All but 21, by a sound table.
fn judge_soundly(table: &[u8], s: &[u8]) -> Result<Figures, Refusal>
    requires { is_sound table.now ≡ true }
    ensures { JudgesByTable table.now s.now result }
{
    let found = stages_to_12(s)?;
    judge_bodies(table, s, found)
}

// Judges one interchange by a table: any bytes, any length of either.
pub fn judge_by_table(table: &[u8], s: &[u8]) -> Result<Figures, Refusal>
    ensures { JudgesByTable table.now s.now result }
{
    table_soundness::check(table)?;
    judge_soundly(table, s)
}
