// Refusals made and numbered (paper 01, "Refusals by number"): what a function with a refusal returns, and the
// paper's number of each, for what programs print and for what crosses to C.
#![tactic(auto)]

ghost use Rattle.std.specs.Prelude.{◌≡◌};
ghost use Rattle.refusals.specs.Refusals.{number};

use refusals::{Fault, Refusal};

// What a function with this refusal returns.
pub fn failed<T>(fault: Fault, place: usize) -> Result<T, Refusal>
    ensures { result ≡ Err (record { fault = fault; place = place }) }
{
    Err(Refusal { fault, place })
}

// The paper's number of a fault: they stand in the order of their numbers, from 1.
pub fn number_of(fault: Fault) -> u8
    ensures { result ≡ number fault }
{
    fault as u8 + 1
}
