// The verdict call on lists of bytes whose shape is checked: the numbers are read, the call is made, and its answer is written.
//
// `call` leaves the answer frame at the front of the answer bytes and the flows at the front of the work bytes, or gives one of refusals 4 to 8
// and writes nothing. Its lists of numbers are for so many jobs; that of the flows is made only where there is a ring.
#![tactic(auto)]

ghost use Rattle.std.specs.Prelude.{◌≡◌, ◌++◌, ◌*◌, ◌≤◌, length, drop};
ghost use Rattle.reasons.specs.Numbers.{refusal_number};
ghost use Rattle.codec.specs.Frame.{answer_bytes};
ghost use Rattle.verdict.specs.Called.{Ringed};
ghost use Rattle.framed.specs.Framed.{frame_of};
ghost use Rattle.bytewise.specs.Faults.{Sized};
ghost use Rattle.bytewise.specs.Entered.{Entered};
ghost use Rattle.relay.specs.Inside.{Lent, Started, Opened};

use calls::Call;
use reasons::Reason;
use verdict::Decision;

// Writes the answer frame of a decision.
fn give(d: Decision, answer: &mut [u8])
    requires { 22 ≤ length answer.old }
    ensures { answer.new ≡ answer_bytes (frame_of d) ++ drop 22 answer.old }
{
    codec::put_answer(framed::answer_frame(d), answer);
}

// Reads the lists, and answers the call where it is refused or has no ring through T; otherwise gives X.
// Work and answer are lent apart, as C lends them. The parts of a verdict call are called one by one, so that flows are made only where there is a ring.
fn start(
    call: Call<'_, u8>,
    rows: &mut [u64],
    costs: &mut [u64],
    work: &mut [u8],
    answer: &mut [u8],
) -> Result<Option<u64>, Reason>
    requires { Lent call.rows.now call.costs.now rows.old costs.old work.old answer.old }
    ensures { Started call.entry.rows.now call.entry.costs.now call.entry.t call.entry.allowance work.old answer.old rows.new costs.new result work.new answer.new }
{
    let t = call.t;
    let n = rows.len();
    lists::read_lists(call.rows, call.costs, rows, costs);
    checks::refusal(
        Call {
            rows,
            costs,
            t,
            allowance: call.allowance,
        },
        n * n,
    )?;
    let x = graph::on_rings(rows, t);
    if !graph::ring_through(rows, t, x) {
        lists::write_zeros(n * n, work);
        give(Decision::WAIT, answer);
        return Ok(None);
    }
    Ok(Some(x))
}

// Makes the rounds of a call with a ring through T on flows that are 0, and writes its answer.
fn open(call: Call<'_, u64>, x: u64, flows: &mut [u64], work: &mut [u8], answer: &mut [u8])
    requires ringed { Ringed call.rows.now call.costs.now call.t x flows.old }
    requires room { 8 * length flows.old ≤ length work.old }
    requires places { 22 ≤ length answer.old }
    ensures { Opened call.entry.rows.now call.entry.costs.now call.entry.t call.entry.allowance flows.old work.old answer.old work.new answer.new }
{
    let d = verdict::decide(call, x, flows);
    lists::write_numbers(flows, work);
    give(d, answer);
}

// The call with n jobs, at most JOBS, with PLACES flows. Not inlined, so that a call takes the stack of its own size alone.
#[inline(never)]
pub fn call<const JOBS: usize, const PLACES: usize>(
    call: Call<'_, u8>,
    n: usize,
    work: &mut [u8],
    answer: &mut [u8],
) -> Result<(), Reason>
    requires places { (JOBS * JOBS ≤ PLACES) × (PLACES ≤ 4096) }
    requires sized { Sized call.rows.now call.costs.now (length work.old) (length answer.old) n JOBS }
    ensures { Entered call.entry.rows.now call.entry.costs.now call.entry.t call.entry.allowance work.old answer.old (refusal_number result) work.new answer.new }
{
    // No heap is a rule of the project: lists of a fixed size, of which the first places are lent.
    let mut rows = [0u64; JOBS];
    let mut costs = [0u64; JOBS];
    let Some(x) = start(call, &mut rows[..n], &mut costs[..n], work, answer)? else {
        return Ok(());
    };
    let mut flows = [0u64; PLACES];
    let numbers = Call {
        rows: &rows[..n],
        costs: &costs[..n],
        t: call.t,
        allowance: call.allowance,
    };
    open(numbers, x, &mut flows[..n * n], work, answer);
    Ok(())
}
