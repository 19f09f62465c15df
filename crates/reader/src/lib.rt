// The reader of snapshot text.
//
// `read` takes the text and two lent lists. Where nothing refuses the text it gives n, T and the allowance, and fills
// the first n places of each list: the row of each job, by the rule of `pools` on the pool states, and its cost.
// Where something does, it gives the refusal with its line and writes nothing.
#![tactic(auto)]

ghost use Rattle.std.specs.Prelude.{◌≡◌, ◌+◌, ◌*◌, ◌^◌, ◌≤◌, ◌<◌, ℕ, length, take};
ghost use Rattle.frames.specs.Kinds.{job_digits};
ghost use Rattle.frames.specs.Fields.{header_at};
ghost use Rattle.refusals.specs.Places.{job_place};
ghost use Rattle.refusals.specs.Refused.{Unrefused};
ghost use Rattle.reader.specs.Snapshots.{frame_states, states_of, RowOf, job_cost, CostOf, Filled, IsRead};
ghost use Rattle.reader.specs.Results.{read_as};

use cursor::Reader;
use frames::{Header, Job};
use pools::PoolTable;
use refusals::Refused;

// What a text that is taken says: n, T and the allowance.
#[derive(Clone, Copy, Debug, PartialEq, Eq)]
pub struct Snapshot {
    pub n: usize,
    pub t: usize,
    pub allowance: u32,
}

// A text that nothing refuses, with its header.
#[derive(Clone, Copy)]
struct Taken<'a> {
    h: Header,
    text: &'a [u8],
    ghost unrefused: { Unrefused text.now },
    ghost header: { h ≡ header_at text.now 0 },
}

impl<'a> Taken<'a> {
    // The frame of job j.
    fn frame(self, j: usize) -> Reader<'a>
        requires { j < self.h.n }
        ensures text { result.text ≡ self.entry.text }
        ensures place { result.at ≡ job_place self.entry.h self.entry.text.now j }
        ensures inside { result.at + job_digits self.entry.h.s < 2 ^ 64 }
    {
        Reader::new(self.text, refusals::job_place(self.h, j))
    }

    // Copies the pool states of every job to the front of a table.
    fn put_states(self, table: &mut [u8])
        requires { self.h.n * self.h.s ≤ length table.old }
        ensures { take (self.entry.h.n * self.entry.h.s) table.new ≡ states_of self.entry.h self.entry.text.now self.entry.h.n }
    {
        let s = self.h.s;
        for j in 0..self.h.n {
            put_frame_states(self.frame(j), &mut table[j * s..j * s + s]);
        }
    }

    // Fills the rows of the jobs.
    fn fill_rows(self, rows: &mut [u64])
        requires { self.h.n ≤ length rows.old }
        ensures { Filled (RowOf self.entry.h self.entry.text.now) self.entry.h.n rows.old rows.new }
    {
        // No heap is a rule of the project: a table for 64 jobs at 16 pools.
        let mut states = [0; 1024];
        self.put_states(&mut states);
        let table = PoolTable {
            states: &states[..self.h.n * self.h.s],
            jobs: self.h.n,
            pools: self.h.s,
        };
        fill(rows, self.h.n, |j| table.row(j));
    }

    // The cost of job j.
    #[tactic(auto, unfolding(crate::specs::Snapshots::job_cost, crate::specs::Snapshots::frame_cost))]
    fn cost(self, j: usize) -> u64
        requires { j < self.h.n }
        ensures { result ≡ job_cost self.entry.h self.entry.text.now j }
    {
        let frame = self.frame(j);
        let job = Job::read(frame.text, frame.at);
        let age = ticks::age(self.h.present, job.issue);
        ticks::cost(self.h.a, self.h.b, job.operations, age)
    }

    // Fills the costs of the jobs.
    fn fill_costs(self, costs: &mut [u64])
        requires { self.h.n ≤ length costs.old }
        ensures { Filled (CostOf self.entry.h self.entry.text.now) self.entry.h.n costs.old costs.new }
    {
        fill(costs, self.h.n, |j| self.cost(j));
    }
}

// Copies the pool states of a job frame.
fn put_frame_states(frame: Reader, states: &mut [u8])
    requires { frame.at + job_digits (length states.old) < 2 ^ 64 }
    ensures { states.new ≡ frame_states frame.entry.text.now frame.entry.at (length states.old) }
{
    for (p, state) in states.iter_mut().enumerate() {
        *state = faults::state(frame, p);
    }
}

// Fills the first n places of a list, each with the value at its place.
fn fill<F: Fn(usize) -> u64>(list: &mut [u64], n: usize, value: F)
    requires room { n ≤ length list.old }
    requires callable { (j : ℕ) → j < n → F.pre value j }
    ensures { Filled (F.post value) n list.old list.new }
{
    for (j, place) in list[..n].iter_mut().enumerate() {
        *place = value(j);
    }
}

// Reads a snapshot: its first refusal, or its n, T and allowance with the rows and costs of its jobs.
#[tactic(auto, using(crate::proofs::ReadLaws::read_asks))]
pub fn read(text: &[u8], rows: &mut [u64], costs: &mut [u64]) -> Result<Snapshot, Refused>
    ensures { IsRead text.now rows.old costs.old rows.new costs.new (read_as result) }
{
    refusals::first_refusal(text, rows.len(), costs.len())?;
    let h = Header::read(text, 0);
    let taken = Taken { h, text };
    taken.fill_rows(rows);
    taken.fill_costs(costs);
    Ok(Snapshot {
        n: h.n,
        t: h.t,
        allowance: h.allowance,
    })
}
