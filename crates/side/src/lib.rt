// The sink's side: the jobs from whose in-node and from whose out-node the sink, t's in-node, is still reached along steps with room.
// Steps are given as 128 masks, one a node, as for the search.
#![tactic(auto)]

ghost use Rattle.side.specs.Home.{Sidable, Sided};

use graph::gather;

// The masks of the jobs whose in-node is on the sink's side, and of those whose out-node is.
#[derive(Clone, Copy, Debug, PartialEq, Eq)]
pub struct Sides {
    pub ins: u64,
    pub outs: u64,
}

// The jobs on the sink's side. x has all jobs from whose nodes steps lead: only those that are not yet on it are looked at.
pub fn sink_side(steps: &[u64; 128], t: usize, x: u64) -> Sides
    requires { Sidable steps.now t x }
    ensures { Sided steps.now t result.ins result.outs }
{
    let mut ins = 1u64 << t;
    let mut outs = 0;
    loop {
        outs |= gather(steps, 2, 1, x ^ outs, ins);
        let fresh = gather(steps, 2, 0, x ^ ins, outs);
        if fresh == 0 {
            return Sides { ins, outs };
        }
        ins |= fresh;
    }
}
