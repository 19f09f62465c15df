// The verdict layer: the verdict call.
//
// `verdict` refuses an input by the first of refusals 1 to 8 that is due, and writes nothing then; otherwise it says wait, abort T, abort these others,
// or not yet, with price, rounds and victims as the document defines them, and leaves the flow of the counted rounds in the work list.
// `decide` is its part behind the checks and the search for a ring, for a caller that has a work list of zeros.
#![tactic(auto)]

ghost use Rattle.std.specs.Prelude.{◌≡◌};
ghost use Rattle.verdict.specs.Answers.{outcome_number, not_yet};
ghost use Rattle.verdict.specs.Results.{answer_of};
ghost use Rattle.verdict.specs.Results.Answer.{Decided};
ghost use Rattle.verdict.specs.Called.{Ringed, Called};

use calls::Call;
use reasons::Reason;
use std::fmt;

// What to do, with the document's numbers.
#[derive(Clone, Copy, Debug, PartialEq, Eq)]
pub enum Outcome {
    Wait = 0,
    AbortT = 1,
    AbortOthers = 2,
    NotYet = 3,
}

impl From<Outcome> for u8 {
    ghost from_gives = { λ outcome number. number ≡ outcome_number outcome };

    fn from(outcome: Outcome) -> u8
        ensures { result ≡ outcome_number outcome }
    {
        outcome as u8
    }
}

impl fmt::Display for Outcome {
    ghost use Rattle.std.specs.Prelude.{Some};
    ghost use Rattle.verdict.specs.Words.{outcome_word};

    ghost output = { λ outcome. Some (outcome_word outcome) };

    fn fmt<W: fmt::Write>(&self, f: &mut fmt::Formatter<W>) -> fmt::Result {
        f.write_str(match self {
            Outcome::Wait => "wait",
            Outcome::AbortT => "abort-t",
            Outcome::AbortOthers => "abort-others",
            Outcome::NotYet => "not-yet",
        })
    }
}

// The verdict on an accepted input: victims as a mask, job k as 2^k.
#[derive(Clone, Copy, Debug, PartialEq, Eq)]
pub struct Decision {
    pub outcome: Outcome,
    pub price: u64,
    pub rounds: u32,
    pub victims: u64,
}

impl Decision {
    // Wait: no round, and nobody to abort.
    pub const WAIT: Decision = Decision {
        outcome: Outcome::Wait,
        price: 0,
        rounds: 0,
        victims: 0,
    };

    // Not yet, after so many rounds.
    pub fn not_yet(rounds: u32) -> Decision
        ensures { result ≡ not_yet rounds }
    {
        Decision {
            outcome: Outcome::NotYet,
            price: 0,
            rounds,
            victims: 0,
        }
    }
}

// The verdict where a ring passes through T; x is X.
pub fn decide(call: Call<'_, u64>, x: u64, work: &mut [u64]) -> Decision
    requires { Ringed call.rows.now call.costs.now call.t x work.old }
    ensures { Called call.entry.rows.now call.entry.costs.now call.entry.t call.entry.allowance work.old (Decided result) work.new }
{
    let made = flow::make_rounds(call, x, work);
    let Some(sides) = made.sides else {
        return Decision::not_yet(made.rounds);
    };
    let price = sheet::inflow(work, call.rows.len(), call.t);
    let own = call.costs[call.t];
    if own < price {
        return Decision {
            outcome: Outcome::AbortT,
            price: own,
            rounds: made.rounds,
            victims: 1u64 << call.t,
        };
    }
    let side = x & sides.outs;
    Decision {
        outcome: Outcome::AbortOthers,
        price,
        rounds: made.rounds,
        victims: side ^ (side & sides.ins),
    }
}

// The verdict call.
pub fn verdict(call: Call<'_, u64>, work: &mut [u64]) -> Result<Decision, Reason>
    ensures { Called call.entry.rows.now call.entry.costs.now call.entry.t call.entry.allowance work.old (answer_of result) work.new }
{
    checks::refusal(call, work.len())?;
    sheet::clear(work, call.rows.len());
    let x = graph::on_rings(call.rows, call.t);
    if !graph::ring_through(call.rows, call.t, x) {
        return Ok(Decision::WAIT);
    }
    Ok(decide(call, x, work))
}
