// Locate and its companion (paper 01, "Operations"): where a value of the contents is spelled in the
// input, by segment, element, repeat and component; and that part of the input. They promise, for any
// bytes and any numbers, the answer that `operations` gives.
#![tactic(auto)]

ghost use Rattle.std.specs.Prelude.{◌+◌, ◌≤◌, ◌≡◌, length};
ghost use Rattle.contracts.specs.Promises.{Locates, HandsBack};
ghost use Rattle.locate.specs.Locating.{Inside, part_of};

use elements::segment_at;
use refusals::Refusal;
use trimmed_values::value_at;
use values::Span;

// Where the value is spelled. Segments, elements, repeats and components are numbered from 0; element 0
// is the tag.
pub fn locate(
    s: &[u8],
    segment: usize,
    element: usize,
    repeat: usize,
    component: usize,
) -> Result<Option<Span>, Refusal>
    ensures locates { Locates s.now segment element repeat component result }
    ensures inside { Inside s.now result }
{
    let figures = judge::judge(s)?;
    let c = figures.characters;
    let start = segment_at(s, c, stage_opening::body_start(s), segment);
    Ok(value_at(s, c, start, element, repeat, component))
}

// Which part of the input `run_locate` finds; zero bytes at the input's start where it finds none. (No `Option`: `part` hands back a slice in
// each case, and C an offset and a length.)
pub fn part_of(s: &[u8], segment: usize, element: usize, repeat: usize, component: usize) -> Span
    ensures value { result ≡ part_of s.now segment element repeat component }
    ensures inside { result.offset + result.length ≤ length s.now }
{
    let nothing = Span {
        offset: 0,
        length: 0,
    };
    let found = locate(s, segment, element, repeat, component).unwrap_or(None);
    found.unwrap_or(nothing)
}

// That part of the input, as it is spelled there.
pub fn part<'a>(
    s: &'a [u8],
    segment: usize,
    element: usize,
    repeat: usize,
    component: usize,
) -> &'a [u8]
    ensures { HandsBack s.entry segment element repeat component result }
{
    let part = part_of(s, segment, element, repeat, component);
    let offset = part.offset;
    let end = offset + part.length;
    &s[offset..end]
}
