// Ticks, operations, and the cost made of them.
//
// Ticks and submitted operations are types of their own and stay apart: `age` is of ticks alone, and only `cost` opens
// both, when the weights turn both into cost.
#![tactic(auto)]

ghost use Rattle.std.specs.Prelude.{◌≡◌};
ghost use Rattle.ticks.specs.Costs.{age_of, cost_of};

// A tick counter in milliseconds, modulo 2^32. Ticks have no order: the counter wraps.
#[derive(Clone, Copy, PartialEq, Eq, Debug)]
pub struct Ticks(pub u32);

// A number of operations submitted.
#[derive(Clone, Copy, PartialEq, Eq, PartialOrd, Ord, Debug)]
pub struct Operations(pub u32);

// The age at the present tick of a run issued at a tick, across a wrap of the counter too.
// A function and no method: age is document 01's word, over two ticks neither of which it belongs to.
#[tactic(auto, unfolding(crate::specs::Costs::age_of))]
pub fn age(present: Ticks, issue: Ticks) -> Ticks
    ensures { result ≡ age_of present issue }
{
    Ticks(present.0.wrapping_sub(issue.0))
}

// The cost of a job: here alone ticks and operations are opened both.
#[tactic(auto, using(crate::proofs::AgeLaws::product_small), unfolding(crate::specs::Costs::cost_of))]
pub fn cost(a: u16, b: u16, operations: Operations, age: Ticks) -> u64
    ensures { result ≡ cost_of a b operations age }
{
    u64::from(a) * u64::from(operations.0) + u64::from(b) * u64::from(age.0)
}
