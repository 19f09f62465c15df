// The graph layer over rows: whom a job reaches along waits, and the rings through a job.
//
// `rows_known` says whether the rows name only jobs that are there, `reach` gives exactly the jobs that a job reaches along waits,
// `gather` exactly those of a set of jobs whose masks name a marked job, `on_rings` exactly the document's X,
// and `ring_through` whether a ring passes through a job.
#![tactic(auto)]

ghost use Rattle.std.specs.Prelude.{◌<◌, ◌≤◌, length};
ghost use Rattle.bits.specs.Mask.{MaskOf};
ghost use Rattle.walks.specs.Walk.{Reaches};
ghost use Rattle.graph.specs.Waits.{waits, Jobs, Known};
ghost use Rattle.graph.specs.Rings.{InX, RingThrough};
ghost use Rattle.graph.specs.Hits.{Gatherable, Hits};

use bits::Members;

// Whether no row names a job past the end of the list.
pub fn rows_known(rows: &[u64]) -> bool
    requires { length rows.now ≤ 64 }
    ensures { Known rows.now result }
{
    let end = 1u128 << rows.len();
    rows.iter().all(|row| u128::from(*row) < end)
}

// The jobs that `from` reaches by no or more waits.
pub fn reach(rows: &[u64], from: usize) -> u64
    requires { Jobs rows.now × (from < length rows.now) }
    ensures { MaskOf (Reaches (waits rows.now) (length rows.now) from) result }
{
    let mut seen = 1u64 << from;
    let mut done = 0u64;
    while seen != done {
        let u = (seen ^ done).trailing_zeros() as usize;
        done |= 1u64 << u;
        seen |= rows[u];
    }
    seen
}

// Those of the jobs whose mask names a marked job. The mask of job u is at place k × u + first.
pub fn gather(masks: &[u64], k: usize, first: usize, jobs: u64, marked: u64) -> u64
    requires { Gatherable masks.now k first jobs }
    ensures { MaskOf (Hits masks.now k first jobs marked) result }
{
    let mut hits = 0;
    for u in Members(jobs) {
        if masks[k * u + first] & marked != 0 {
            hits |= 1u64 << u;
        }
    }
    hits
}

// The document's X: t with all jobs that lie on a ring through it. Of the jobs that t reaches, those that wait for one of x are added until there are none.
pub fn on_rings(rows: &[u64], t: usize) -> u64
    requires { Jobs rows.now × (t < length rows.now) }
    ensures { MaskOf (InX (waits rows.now) (length rows.now) t) result }
{
    let away = reach(rows, t);
    let mut x = 1u64 << t;
    loop {
        let fresh = gather(rows, 1, 0, away ^ x, x);
        if fresh == 0 {
            return x;
        }
        x |= fresh;
    }
}

// Whether a ring passes through t, where x is X.
pub fn ring_through(rows: &[u64], t: usize, x: u64) -> bool
    requires t_in_bounds { t < length rows.now }
    requires mask_of { MaskOf (InX (waits rows.now) (length rows.now) t) x }
    ensures { RingThrough (waits rows.now) (length rows.now) t result }
{
    rows[t] & x != 0
}
