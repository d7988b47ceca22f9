// Judge (paper 01, "Operations"), and the runs of its stages that others go on from. Each run is the
// one before it and one stage more, asked only where nothing was refused; it hands on what it found. Before
// all of them up to 12 are asked in turn, one walk says whether they find nothing.
// They promise, for any bytes, what the definition of the stages answers, and Judge the answer that
// `operations` gives.
#![tactic(auto)]

ghost use Rattle.std.specs.Prelude.{◌≡◌, ◌≤◌, length};
ghost use Rattle.refusals.specs.Refusals.{answering};
ghost use Rattle.stages.specs.Contents.{normal_form};
ghost use Rattle.stages.specs.Stages.{stages_in};
ghost use Rattle.stage_opening.specs.Runs.{progress};
ghost use Rattle.contracts.specs.Promises.{Judges};
ghost use Rattle.judge.specs.Judging.{judged, Passed, Quickly};
ghost use Rattle.refusals.specs.Limits.{most_bytes};

use answers::Figures;
use clean_walk::clean_walk;
use refusals::{Fault, Refusal};
use refusing::failed;
use stage_opening::Found;
use verbatim::is_normal;

// 2, 3 and (4 5 6), of any number of bytes.
pub fn stages_2_to_6(s: &[u8]) -> Result<Found, Refusal>
    ensures { result ≡ progress 2 6 s.now }
{
    let found = stage_opening::opening_of(s)?;
    stage_segments::check(s, found.characters, found.start)?;
    Ok(found)
}

// 1 before them.
pub fn stages_to_6(s: &[u8]) -> Result<Found, Refusal>
    ensures { result ≡ progress 1 6 s.now }
{
    if refusals::MOST_BYTES < s.len() {
        return failed(Fault::TooLong, 0);
    }
    stages_2_to_6(s)
}

// 7 after them, which finds the level.
pub fn stages_to_7(s: &[u8]) -> Result<Found, Refusal>
    ensures { result ≡ progress 1 7 s.now }
{
    let found = stages_to_6(s)?;
    let Some(level) = stage_level::level_of(s, found.characters, found.start) else {
        return failed(Fault::ForeignLevel, found.start);
    };
    Ok(Found { level, ..found })
}

// 8 after them.
pub fn stages_to_8(s: &[u8]) -> Result<Found, Refusal>
    ensures { result ≡ progress 1 8 s.now }
{
    let found = stages_to_7(s)?;
    stage_bytes::in_level(s, found.characters, found.level, found.start)?;
    Ok(found)
}

// 9 after them, which finds the walk.
pub fn stages_to_9(s: &[u8]) -> Result<Found, Refusal>
    ensures { result ≡ progress 1 9 s.now }
{
    let found = stages_to_8(s)?;
    let walk = stage_order::check(s, found.characters, found.start)?;
    Ok(Found { walk, ..found })
}

// (10 11 12) after them, one stage after the other.
fn stages_to_12_in_turn(s: &[u8]) -> Result<Found, Refusal>
    ensures { result ≡ progress 1 12 s.now }
{
    let found = stages_to_9(s)?;
    stage_control::check(s, found.characters, found.start)?;
    Ok(found)
}

// The quick way after 2 and 3: one walk for (4 5 6), 9 and (10 11 12), then the level and the bytes, whose
// refusal is the answer where the walk found nothing. It says what 1 to 12 find, or their refusal; or nothing,
// where one of them may refuse and which is not known.
fn quickly_after(s: &[u8], found: Found) -> Option<Result<Found, Refusal>>
    requires { (length s.now ≤ most_bytes) × (Ok found ≡ progress 2 3 s.now) }
    ensures { Quickly s.now result }
{
    let c = found.characters;
    let start = found.start;
    let walk = clean_walk(s, c, start)?;
    let Some(level) = stage_level::level_of(s, c, start) else {
        return Some(failed(Fault::ForeignLevel, start));
    };
    let passed = Found {
        level,
        walk,
        ..found
    };
    Some(stage_bytes::in_level(s, c, level, start).and(Ok(passed)))
}

// Of a few bytes, in which no interchange has room, nothing is asked twice.
pub fn quickly(s: &[u8]) -> Option<Result<Found, Refusal>>
    ensures { Quickly s.now result }
{
    if s.len() < 32 || refusals::MOST_BYTES < s.len() {
        return None;
    }
    let found = stage_opening::opening_of(s).ok()?;
    quickly_after(s, found)
}

// 1 to 12. Most inputs pass all of them, and the quick way finds that; where it does not tell, the stages are
// asked one after the other.
pub fn stages_to_12(s: &[u8]) -> Result<Found, Refusal>
    ensures { result ≡ progress 1 12 s.now }
{
    quickly(s).unwrap_or_else(|| stages_to_12_in_turn(s))
}

// A length that the normal form does not exceed, of an input that 1 to 12 pass: where it is at most
// 32,000, 13 passes too, and nothing need be measured. A short body has room to double, and then nothing
// need be counted either.
pub fn most_length(s: &[u8], found: Found) -> usize
    requires { Passed s.now found }
    ensures { length (normal_form s.now) ≤ result }
{
    let c = found.characters;
    let start = found.start;
    let repetition = stage_level::normal_repetition(s, c, start);
    let twice = 2 * (s.len() - start) + 9;
    if (twice <= refusals::MOST_BYTES) & !is_normal(c, repetition) {
        return twice;
    }
    length_bound::at_most(s, c, start, repetition) + 9
}

// 13, of an input that all others passed: the length of the normal form.
pub fn judge_length(s: &[u8], found: Found) -> Result<Figures, Refusal>
    requires { Passed s.now found }
    ensures { result ≡ judged s.now (answering (stages_in s.now 13 13)) }
{
    let characters = found.characters;
    let start = found.start;
    let repetition = stage_level::normal_repetition(s, characters, start);
    let length = stage_length::measured(s, characters, start, repetition) + 9;
    if refusals::MOST_BYTES < length {
        return failed(Fault::NormalTooLong, length);
    }
    let walk = found.walk;
    Ok(Figures {
        characters,
        segments: walk.segments,
        messages: walk.messages,
        groups: walk.groups,
        length,
    })
}

// Judges one interchange: any bytes, any length.
pub fn judge(s: &[u8]) -> Result<Figures, Refusal>
    ensures { Judges s.now result }
{
    let found = stages_to_12(s)?;
    judge_length(s, found)
}
