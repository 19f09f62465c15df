// Rounds against an allowance: the flow layer's written statement is `Flowed`.
// The network is that of the document, over the rows, the costs, T (here t) and the mask x of X; it is never written down.
// Kept during the rounds: the flow, with the masks of the steps that have room, and what the search of the last path has left.
// A round's path is found by a search, or, behind the first rounds, down the levels of a search that has found one of its length.
#![tactic(auto)]

ghost use Rattle.std.specs.Prelude.{◌≡◌, ◌+◌, ◌*◌, length, replicate};
ghost use Rattle.bits.specs.Mask.{has};
ghost use Rattle.network.specs.Arcs.{total};
ghost use Rattle.network.specs.Costs.{cost_at};
ghost use Rattle.flow.specs.Accepted.{Accepted};
ghost use Rattle.flow.specs.Flowed.{Flowed};
ghost use Rattle.flow.specs.Answer.{is_left, ins_of, outs_of};
ghost use Rattle.flow.specs.Inside.{Costed, Beginnable, Begun};
ghost use Rattle.flow.specs.Levels.{Layerable, Layered, Descendable, Lowered};

use bits::Members;
use calls::Call;
use push::Flow;
use search::{Trail, search};
use side::{Sides, sink_side};

// How many rounds were made, and the sink's side where no path is left. Where there is none, the allowance is used up and a path is left.
#[derive(Clone, Copy, Debug, PartialEq, Eq)]
pub struct Made {
    pub rounds: u32,
    pub sides: Option<Sides>,
}

// Gives a flow with no steps the masks of the steps with room before the first round; returns S, the sum of the costs of the jobs of x.
// The flow is lent, so that its lists are made once and not moved.
fn begin(call: Call<'_, u64>, x: u64, flow: &mut Flow<'_>) -> u64
    requires jobs { Beginnable call.rows.now x × Costed call.costs.now x }
    requires none { flow.old.steps ≡ replicate 128 0 }
    ensures value { result ≡ total (length call.entry.costs.now) (has x) (cost_at call.entry.costs.now) }
    ensures begun { Begun call.entry.rows.now call.entry.t x flow.new.steps }
    ensures same_flow { (flow.new.work.now ≡ flow.old.work.now) × (flow.new.thru ≡ flow.old.thru) }
    ensures same_costs { flow.new.costs.now ≡ flow.old.costs.now }
    ensures same_work { flow.new.work.ghost_name ≡ flow.old.work.ghost_name }
{
    let mut sum = 0;
    for u in Members(x) {
        sum += call.costs[u];
        flow.steps[2 * u + 1] = call.rows[u] & x;
        if u != call.t {
            flow.steps[2 * u] = 1 << u;
        }
    }
    sum
}

// The levels of a queue that a search has left, up to place e. They are lent, so that the list is made once and not moved.
fn layer(queue: &[u8; 128], e: usize, levels: &mut [u64; 128])
    requires { Layerable queue.now e levels.old }
    ensures { Layered queue.now e levels.new }
{
    let mut k = 0;
    // a side is the parity of its nodes' numbers, as document 01 numbers them: 2u and 2u + 1
    let mut side = queue[0] % 2;
    let mut met = 0u64;
    for b in &queue[..=e] {
        if b % 2 != side {
            levels[k] = met;
            met = 0;
            k += 1;
            side = 1 - side;
        }
        met |= 1 << (b / 2);
    }
    levels[k] = 1 << (queue[e] / 2);
}

// A further path from T's out-node to its in-node down the levels, lowest nodes first: its length, if one is found. Nodes that lead nowhere leave their level.
// Promised is one direction alone: a length is that of the path of a round. Where none is found a search decides whether a path is left.
fn descend(
    steps: &[u64; 128],
    t: usize,
    levels: &mut [u64; 128],
    trail: &mut Trail,
) -> Option<usize>
    requires { Descendable steps.now (2 * t + 1) (2 * t) levels.old trail.old.queue trail.old.parent }
    ensures { Lowered steps.now (2 * t + 1) (2 * t) levels.new trail.new.queue trail.new.parent result }
{
    let sink = 2 * t;
    let mut a = sink + 1;
    trail.queue[0] = a as u8;
    let mut k = 0;
    let mut side = 0;
    while a != sink {
        let rest = steps[a] & levels[k + 1];
        if rest == 0 {
            if k == 0 {
                return None;
            }
            levels[k] ^= 1 << (a / 2);
            k -= 1;
            a = trail.queue[k] as usize;
        } else {
            a = 2 * rest.trailing_zeros() as usize + side;
            trail.parent[k + 1] = k as u8;
            k += 1;
            trail.queue[k] = a as u8;
        }
        side = 1 - side;
    }
    Some(k)
}

// So many rounds are found by a search each. Few snapshots take more, and for those that do not the levels cost more than they save.
const FEW: u32 = 12;

// The rounds from T's out-node to its in-node, until no path is left or the allowance is used up.
// Behind the first ones the further paths of one length are found down the levels of one search.
pub fn make_rounds(call: Call<'_, u64>, x: u64, work: &mut [u64]) -> Made
    requires { Accepted call.rows.now call.costs.now call.t x work.old }
    ensures { Flowed call.entry.rows.now call.entry.costs.now call.entry.t x call.entry.allowance work.old work.new result.rounds (is_left result.sides) (ins_of result.sides) (outs_of result.sides) }
{
    let mut flow = Flow {
        costs: call.costs,
        wide: 0,
        work,
        thru: [0; 64],
        steps: [0; 128],
    };
    flow.wide = begin(call, x, &mut flow) + 1;
    let mut trail = Trail::new();
    let mut rounds = 0;
    // Both loops make a round in the same way: a function for it would need the invariant of the rounds, which stands in proofs, in its contract.
    'searched: while let Some(e) = search(&flow.steps, 2 * call.t + 1, 2 * call.t, &mut trail) {
        if rounds == call.allowance {
            return Made {
                rounds,
                sides: None,
            };
        }
        flow.round(&trail, e);
        rounds += 1;
        if rounds > FEW {
            let mut levels = [0; 128];
            layer(&trail.queue, e, &mut levels);
            'lowered: while let Some(e) = descend(&flow.steps, call.t, &mut levels, &mut trail) {
                if rounds == call.allowance {
                    return Made {
                        rounds,
                        sides: None,
                    };
                }
                flow.round(&trail, e);
                rounds += 1;
            }
        }
    }
    Made {
        rounds,
        sides: Some(sink_side(&flow.steps, call.t, x)),
    }
}
