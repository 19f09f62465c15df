// The graph layer over pool states: `row` gives exactly the jobs that a job waits for in a table of them.
#![tactic(auto)]

ghost use Rattle.std.specs.Prelude.{◌≡◌, ◌<◌};
ghost use Rattle.bits.specs.Mask.{MaskOf};
ghost use Rattle.pools.specs.Pools.{Table, ActiveAt, WaitsFor, state_at};

// `row` answers on any bytes (`WaitsFor`), so a state is a byte: an enum would ask more of its callers.
const ACTIVE: u8 = 1;

pub const WAITING: u8 = 2;

// A pool table: at place j × pools + p the state of job j at pool p.
#[derive(Clone, Copy)]
pub struct PoolTable<'a> {
    pub states: &'a [u8],
    pub jobs: usize,
    pub pools: usize,
    ghost shape: { Table states.now jobs pools },
}

impl PoolTable<'_> {
    // The state of a job at a pool.
    #[tactic(auto, unfolding(crate::specs::Pools::state_at))]
    fn state(self, job: usize, pool: usize) -> u8
        requires in_jobs { job < self.jobs }
        requires in_pools { pool < self.pools }
        ensures { result ≡ state_at self.entry.states.now self.entry.pools job pool }
    {
        self.states[job * self.pools + pool]
    }

    // The jobs that are active at a pool.
    fn active_at(self, pool: usize) -> u64
        requires { pool < self.pools }
        ensures { MaskOf (ActiveAt self.entry.states.now self.entry.jobs self.entry.pools pool) result }
    {
        let mut mask = 0;
        for job in 0..self.jobs {
            if self.state(job, pool) == ACTIVE {
                mask |= 1 << job;
            }
        }
        mask
    }

    // The row of a job: the jobs that it waits for.
    pub fn row(self, job: usize) -> u64
        requires { job < self.jobs }
        ensures { MaskOf (WaitsFor self.entry.states.now self.entry.jobs self.entry.pools job) result }
    {
        let mut mask = 0;
        for pool in 0..self.pools {
            if self.state(job, pool) == WAITING {
                mask |= self.active_at(pool);
            }
        }
        mask
    }
}
