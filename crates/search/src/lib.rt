// The search of a round: the path that it takes, or that no path is left.
// Steps between nodes are given as 128 masks, one a node; a mask names jobs, and a step leads from an in-node to an out-node or the other way,
// so that the job says which node is meant. From the nodes of one side all steps lead to the other: the queue is scanned level by level, and while a level is
// scanned the mask of the nodes of the other side that are not met yet stands in one number.
// The trail is lent by the caller, so that it is made once for all rounds.
#![tactic(auto)]

ghost use Rattle.std.specs.Prelude.{◌≡◌, replicate};
ghost use Rattle.search.specs.Sought.{Ready};
ghost use Rattle.search.specs.Searched.{Searched};

use bits::Members;

// What a search leaves: the queue, the nodes in the order in which they are met, and for each place of it the place of the node from which that one was met.
// No heap is a rule of the project: lists of a fixed size, made once for all rounds.
#[derive(Drop)]
pub struct Trail {
    pub queue: [u8; 128],
    pub parent: [u8; 128],
}

impl Trail {
    // A trail before the first search.
    pub fn new() -> Self
        ensures queue { result.queue ≡ replicate 128 0 }
        ensures parent { result.parent ≡ replicate 128 0 }
    {
        Trail {
            queue: [0; 128],
            parent: [0; 128],
        }
    }
}

// The place of t in the queue where t is met from s, or none where no path leads there. The parents lead from there to place 0 along the path that a round takes.
pub fn search(steps: &[u64; 128], s: usize, t: usize, trail: &mut Trail) -> Option<usize>
    requires { Ready s t trail.old.queue trail.old.parent }
    ensures { Searched steps.now s t trail.old.queue trail.old.parent trail.new.queue trail.new.parent result }
{
    let mut free = [u64::MAX; 2];
    free[s % 2] = u64::MAX ^ (1 << (s / 2));
    trail.queue[0] = s as u8;
    let mut met = 1;
    let mut level = 0;
    let mut found = None;
    // a side is the parity of its nodes' numbers, as document 01 numbers them: 2u and 2u + 1
    let mut side = 1 - s % 2;
    // The project's rule: document 01 names this form, a nested scan over node and neighbour that a label leaves when the sink appears.
    'search: while level < met {
        let end = met;
        let mut open = free[side];
        for head in level..end {
            let a = trail.queue[head] as usize;
            let fresh = steps[a] & open;
            open ^= fresh;
            for j in Members(fresh) {
                let b = 2 * j + side;
                trail.queue[met] = b as u8;
                trail.parent[met] = head as u8;
                if b == t {
                    found = Some(met);
                    break 'search;
                }
                met += 1;
            }
        }
        free[side] = open;
        side = 1 - side;
        level = end;
    }
    found
}
