// Write (paper 01, "Operations"): an interchange from a value list and six service bytes, in a lent
// buffer. It promises, for any slices, the answer and every byte of the buffer that `operations`
// gives: a refused Write leaves its whole output zero.
#![tactic(auto)]

ghost use Rattle.std.specs.Prelude.{◌≡◌, [], ◌∷◌, length};
ghost use Rattle.lists.specs.Lists.{maybe};
ghost use Rattle.characters.specs.Characters.{six_bytes};
ghost use Rattle.stages.specs.Stages.{refusal_of};
ghost use Rattle.answers.specs.Answers.{given, refused, told_stored};
ghost use Rattle.contracts.specs.Promises.{Writes};
ghost use Rattle.write.specs.Writing.{Refuses, cleared, Tries, service_of, size_in};

use characters::Characters;
use refusals::{Fault, Refusal};

// Leaves the whole output zero, "so that no half text is sent".
pub fn refuse(output: &mut [u8], r: Refusal) -> Result<usize, Refusal>
    ensures { Refuses r output.old result output.new }
{
    let n = output.len();
    storing::fill(output, 0, n, 0);
    Err(r)
}

// Hands an answer on, and leaves the whole output zero where it is a refusal. (`or_else` was tried: what its closure leaves in
// the output no proof can tell.)
pub fn cleared(output: &mut [u8], answer: Result<usize, Refusal>) -> Result<usize, Refusal>
    ensures { (result ≡ answer) × (output.new ≡ cleared answer output.old) }
{
    match answer {
        Ok(n) => Ok(n),
        Err(r) => refuse(output, r),
    }
}

// ---- stage by stage

// 2, or the characters that six bytes say in the advice's order.
pub fn check_service(service: &[u8]) -> Result<Characters, Refusal>
    ensures { result ≡ service_of service.now }
{
    if service.len() == 6 {
        let c = characters_of(service);
        if stage_opening::is_usable(c) {
            return Ok(c);
        }
    }
    Err(Refusal {
        fault: Fault::UnusableAdvice,
        place: 0,
    })
}

// 1 and 14, or the length of the text, which is none where it is over 32,000 bytes.
pub fn check_size(length: Option<usize>, room: usize) -> Result<usize, Refusal>
    ensures { result ≡ size_in room length }
{
    let n = length.ok_or(Refusal {
        fault: Fault::TooLong,
        place: 0,
    })?;
    if room < n {
        return Err(Refusal {
            fault: Fault::BufferShort,
            place: n,
        });
    }
    Ok(n)
}

// 3 to 13, as Judge answers for the text, or its length.
pub fn judged_length(text: &[u8]) -> Result<usize, Refusal>
    ensures { told_stored result ≡ maybe (given (length text.now ∷ [])) refused (refusal_of text.now) }
{
    judge::judge(text)?;
    Ok(text.len())
}

// Six bytes in the advice's order.
pub fn characters_of(service: &[u8]) -> Characters
    requires { length service.now ≡ 6 }
    ensures { result ≡ six_bytes service.now }
{
    Characters {
        component: service[0],
        element: service[1],
        mark: service[2],
        release: service[3],
        repetition: service[4],
        terminator: service[5],
    }
}

// One stage after the other: 15, 2, 16, then 1 and 14, then 3 to 13 for the text that is stored.
fn try_write(
    service: &[u8],
    bytes: &[u8],
    table: &[u32],
    output: &mut [u8],
) -> Result<usize, Refusal>
    ensures { Tries service.now bytes.now table.now output.old result output.new }
{
    value_lists::check_list(bytes, table)?;
    let c = check_service(service)?;
    value_lists::check_release(c, bytes, table)?;
    let n = check_size(value_list_text::text_length(c, bytes, table), output.len())?;
    value_list_text::put_text(output, c, bytes, table);
    judged_length(&output[..n])
}

// Writes the interchange that the value list and the service bytes say: any slices.
pub fn write(
    service: &[u8],
    bytes: &[u8],
    table: &[u32],
    output: &mut [u8],
) -> Result<usize, Refusal>
    ensures { Writes service.now bytes.now table.now output.old result output.new }
{
    let tried = try_write(service, bytes, table, output);
    cleared(output, tried)
}
