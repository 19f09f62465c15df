// The work list of n jobs: place u × n + v is for the flow on the wait from u to v.
//
// `clear` zeroes it for the rounds, and `inflow` adds up what flows into one job.
#![tactic(auto)]

ghost use Rattle.std.specs.Prelude.{◌≡◌, ◌*◌, ◌≤◌, length};
ghost use Rattle.sheet.specs.Cleared.{Cleared};
ghost use Rattle.sheet.specs.Inflow.{inflow_of, Summable};

// Zeroes the first n × n places.
pub fn clear(work: &mut [u64], n: usize)
    requires { (n ≤ 64) × (n * n ≤ length work.old) }
    ensures { Cleared n work.old work.new }
{
    work[..n * n].fill(0);
}

// What flows into job u of n jobs.
#[tactic(auto, using(crate::proofs::InflowLaws::inflow_laws))]
pub fn inflow(work: &[u64], n: usize, u: usize) -> u64
    requires { Summable work.now n u }
    ensures { result ≡ inflow_of work.now n u }
{
    let mut sum = 0;
    for v in 0..n {
        sum += work[v * n + u];
    }
    sum
}
