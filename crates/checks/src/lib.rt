// The checks of a verdict call: the first of refusals 1 to 8 that is due.
#![tactic(auto)]

ghost use Rattle.std.specs.Prelude.{◌<◌, ◌≤◌, length};
ghost use Rattle.reasons.specs.Numbers.{refusal_number};
ghost use Rattle.checks.specs.Checks.{Looped, SummedAs};
ghost use Rattle.checks.specs.Refusals.{Due};

use calls::Call;
use reasons::Reason;

// Whether a job waits for itself.
fn waits_for_itself(rows: &[u64]) -> bool
    requires { length rows.now ≤ 64 }
    ensures { Looped rows.now result }
{
    rows.iter().enumerate().any(|(u, row)| (*row >> u) % 2 == 1)
}

const HIGHEST_COST: u64 = 1 << 42;

// The sum of the costs, or none where one of them is 0 or above 2^42.
fn sum_in_range(costs: &[u64]) -> Option<u64>
    requires { length costs.now ≤ 64 }
    ensures { SummedAs costs.now result }
{
    let mut total = 0;
    for &cost in costs {
        if cost == 0 || HIGHEST_COST < cost {
            return None;
        }
        total += cost;
    }
    Some(total)
}

const HIGHEST_SUM: u64 = 1 << 63;

// The first of refusals 1 to 8 that is due to a call with so many places of work.
#[tactic(auto, using(crate::proofs::CheckedLaws::due_crowded))]
pub fn refusal(call: Call<'_, u64>, places: usize) -> Result<(), Reason>
    ensures { Due call.entry.rows.now call.entry.costs.now call.entry.t places (refusal_number result) }
{
    let n = call.rows.len();
    if n == 0 {
        return Err(Reason::BadRows);
    }
    if 64 < n {
        return Err(Reason::BadRows);
    }
    if call.costs.len() != n {
        return Err(Reason::BadCosts);
    }
    if places < n * n {
        return Err(Reason::TooFewPlaces);
    }
    if !graph::rows_known(call.rows) {
        return Err(Reason::StrayJob);
    }
    if waits_for_itself(call.rows) {
        return Err(Reason::WaitsForItself);
    }
    if n <= call.t {
        return Err(Reason::NoSuchJob);
    }
    let Some(sum) = sum_in_range(call.costs) else {
        return Err(Reason::BadCost);
    };
    if HIGHEST_SUM < sum + 1 {
        return Err(Reason::CostsTooHigh);
    }
    Ok(())
}
