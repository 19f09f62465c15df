// One round's amount and its push, up the parents that the search has left.
// The public method says what it leaves in terms of the lists of the flow; `flow` turns that into rooms and rounds.
#![tactic(auto)]

ghost use Rattle.std.specs.Prelude.{◌≡◌, length};
ghost use Rattle.push.specs.Reading.{reads, Readable};
ghost use Rattle.push.specs.Advance.{Shiftable, Shifted, Advanceable, Advanced};
ghost use Rattle.push.specs.Way.{Measurable, Amount, Pushable, PushedAlong, Roundable, Rounded};

use search::Trail;

// The flow of the rounds so far, in a network of jobs with these costs whose waits have the capacity `wide`.
// The flow on the waits is in the work list, the flow through each job in `thru`, and `steps` has for each node the mask of its steps with room.
#[derive(Drop)]
pub struct Flow<'a> {
    pub costs: &'a [u64],
    pub wide: u64,
    pub work: &'a mut [u64],
    pub thru: [u64; 64],
    pub steps: [u64; 128],
}

impl Flow<'_> {
    // The room of the step from node a to node b. As document 01 numbers nodes, an odd one is an out-node. What `shift` writes in four cases is read here
    // in the same four: a function for the place would have to lend it, in one of two lists, and say which.
    #[tactic(auto, using(crate::proofs::ReadLaws::read_drops, crate::proofs::ReadLaws::read_rises, crate::proofs::ReadLaws::read_along, crate::proofs::ReadLaws::read_against))]
    fn room(&self, a: usize, b: usize) -> u64
        requires { Readable self.now.costs.now self.now.wide self.now.work.now self.now.thru a b }
        ensures { result ≡ reads self.now.costs.now self.now.wide self.now.work.now self.now.thru a b }
    {
        let n = self.costs.len();
        let u = a / 2;
        let v = b / 2;
        if u == v {
            if a % 2 == 1 {
                return self.thru[u];
            }
            return self.costs[u] - self.thru[u];
        }
        if a % 2 == 1 {
            return self.wide - self.work[u * n + v];
        }
        self.work[v * n + u]
    }

    // d more on the arc from node a to node b, or d less on the arc back.
    fn shift(&mut self, a: usize, b: usize, d: u64)
        requires { Shiftable (length self.old.costs.now) self.old.work.now self.old.thru a b d }
        ensures shifted { Shifted (length self.old.costs.now) a b d self.old.work.now self.old.thru self.new.work.now self.new.thru }
        ensures same_steps { self.new.steps ≡ self.old.steps }
        ensures same_network { (self.new.costs.now ≡ self.old.costs.now) × (self.new.wide ≡ self.old.wide) }
        ensures same_work { self.new.work.ghost_name ≡ self.old.work.ghost_name }
    {
        let n = self.costs.len();
        let u = a / 2;
        let v = b / 2;
        if u == v {
            if a % 2 == 1 {
                self.thru[u] -= d;
                return;
            }
            self.thru[u] += d;
            return;
        }
        if a % 2 == 1 {
            self.work[u * n + v] += d;
            return;
        }
        self.work[v * n + u] -= d;
    }

    // d pushed along the step from a to b: where that is all of its room, the step has none left, and the step back has some.
    fn advance(&mut self, a: usize, b: usize, d: u64)
        requires { Advanceable self.old.costs.now self.old.wide self.old.work.now self.old.thru self.old.steps a b d }
        ensures advanced { Advanced self.old.costs.now self.old.wide a b d self.old.work.now self.old.thru self.old.steps self.new.work.now self.new.thru self.new.steps }
        ensures same_network { (self.new.costs.now ≡ self.old.costs.now) × (self.new.wide ≡ self.old.wide) }
        ensures same_work { self.new.work.ghost_name ≡ self.old.work.ghost_name }
    {
        let room = self.room(a, b);
        self.shift(a, b, d);
        if room == d {
            self.steps[a] ^= 1u64 << (b / 2);
        }
        self.steps[b] |= 1u64 << (a / 2);
    }

    // The largest amount that every step of the way from place e up the parents allows.
    #[tactic(auto, using(crate::proofs::WayLaws::amount_start, crate::proofs::WayLaws::amount_more, crate::proofs::WayLaws::amount_end))]
    fn amount(&self, trail: &Trail, e: usize) -> u64
        requires { Measurable self.now.costs.now self.now.wide self.now.work.now self.now.thru trail.now.queue trail.now.parent e }
        ensures { Amount self.now.costs.now self.now.wide self.now.work.now self.now.thru trail.now.queue trail.now.parent e result }
    {
        let mut d = u64::MAX;
        let mut i = e;
        while i != 0 {
            let p = trail.parent[i] as usize;
            let room = self.room(trail.queue[p] as usize, trail.queue[i] as usize);
            d = d.min(room);
            i = p;
        }
        d
    }

    // d pushed along the way from place e up the parents.
    // The loop of `amount` once more: a walk that is lent a closure, or an iterator of its steps, takes more lines than both and a contract of its own.
    #[tactic(auto, using(crate::proofs::WayLaws::push_start, crate::proofs::WayLaws::push_up, crate::proofs::WayLaws::push_end))]
    fn push(&mut self, trail: &Trail, e: usize, d: u64)
        requires { Pushable self.old.costs.now self.old.wide self.old.work.now self.old.thru self.old.steps trail.now.queue trail.now.parent e d }
        ensures pushed { PushedAlong self.old.costs.now self.old.wide self.old.work.now self.old.thru self.old.steps trail.now.queue trail.now.parent e d self.new.work.now self.new.thru self.new.steps }
        ensures same_network { (self.new.costs.now ≡ self.old.costs.now) × (self.new.wide ≡ self.old.wide) }
        ensures same_work { self.new.work.ghost_name ≡ self.old.work.ghost_name }
    {
        let mut i = e;
        while i != 0 {
            let p = trail.parent[i] as usize;
            self.advance(trail.queue[p] as usize, trail.queue[i] as usize, d);
            i = p;
        }
    }

    // One round along the way from place e up the parents: the largest amount that every step of it allows is pushed.
    pub fn round(&mut self, trail: &Trail, e: usize)
        requires { Roundable self.old.costs.now self.old.wide self.old.work.now self.old.thru self.old.steps trail.now.queue trail.now.parent e }
        ensures rounded { Rounded self.old.costs.now self.old.wide self.old.work.now self.old.thru self.old.steps trail.now.queue trail.now.parent e self.new.work.now self.new.thru self.new.steps }
        ensures same_network { (self.new.costs.now ≡ self.old.costs.now) × (self.new.wide ≡ self.old.wide) }
        ensures same_work { self.new.work.ghost_name ≡ self.old.work.ghost_name }
    {
        let d = self.amount(trail, e);
        self.push(trail, e, d);
    }
}
