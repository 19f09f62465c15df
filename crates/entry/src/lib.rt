// The C entry: the verdict call on lists of bytes, and the text function.
//
// `pasagumdil_verdict` returns the number of the refusal that is due, and writes nothing then; otherwise it returns 0, with the answer frame at the front of
// the answer bytes and the flows at the front of the work bytes. `pasagumdil_answer` is `reply` for C. Neither has a `requires`: every call is answered.
#![tactic(auto)]

ghost use Rattle.std.specs.Prelude.{IfOk, IfErr, length};
ghost use Rattle.reasons.specs.Numbers.{reason_number, refusal_number};
ghost use Rattle.reply.specs.Replied.{Replied};
ghost use Rattle.bytewise.specs.Faults.{Sized};
ghost use Rattle.bytewise.specs.Entered.{Entered};

use calls::Call;
use reasons::Reason;

const ANSWER_BYTES: usize = 22;

// The byte checks: how many jobs there are, or the first of refusals 1 to 3 that is due.
#[tactic(auto, using(crate::proofs::ByteLaws::byte_refusals))]
fn job_count(call: Call<'_, u8>, work: &[u8], answer: &[u8]) -> Result<usize, Reason>
    ensures counted { IfOk result (λ n. Sized call.entry.rows.now call.entry.costs.now (length work.now) (length answer.now) n 64) }
    ensures refused { IfErr result (λ reason. Entered call.entry.rows.now call.entry.costs.now call.entry.t call.entry.allowance work.now answer.now (reason_number reason) work.now answer.now) }
{
    let bytes = call.rows.len();
    let n = bytes / 8;
    if bytes % 8 != 0 || n == 0 || 64 < n {
        return Err(Reason::BadRows);
    }
    if call.costs.len() != bytes {
        return Err(Reason::BadCosts);
    }
    if answer.len() < ANSWER_BYTES || work.len() / 8 < n * n {
        return Err(Reason::TooFewPlaces);
    }
    Ok(n)
}

// The verdict call on lists of bytes, by the call of the size that n asks for.
fn verdict(call: Call<'_, u8>, work: &mut [u8], answer: &mut [u8]) -> Result<(), Reason>
    ensures { Entered call.entry.rows.now call.entry.costs.now call.entry.t call.entry.allowance work.old answer.old (refusal_number result) work.new answer.new }
{
    let n = job_count(call, work, answer)?;
    match n {
        1..=8 => relay::call::<8, 64>(call, n, work, answer),
        9..=16 => relay::call::<16, 256>(call, n, work, answer),
        17..=32 => relay::call::<32, 1024>(call, n, work, answer),
        33..=48 => relay::call::<48, 2304>(call, n, work, answer),
        _ => relay::call::<64, 4096>(call, n, work, answer),
    }
}

// For C: the verdict call on lists of bytes. Returns the number of the refusal, or 0: what the header for C promises.
#[unsafe(no_mangle)]
pub extern "C" fn pasagumdil_verdict(
    rows: &[u8],
    costs: &[u8],
    t: u64,
    allowance: u32,
    work: &mut [u8],
    answer: &mut [u8],
) -> u8
    ensures { Entered rows.now costs.now t allowance work.old answer.old result work.new answer.new }
{
    let call = Call {
        rows,
        costs,
        t: t as usize,
        allowance,
    };
    match verdict(call, work, answer) {
        Ok(()) => 0,
        Err(reason) => reason.into(),
    }
}

// For C: the line that answers a text. Returns its length, or 0 where the lent list has fewer than 45 places.
#[unsafe(no_mangle)]
pub extern "C" fn pasagumdil_answer(text: &[u8], line: &mut [u8]) -> usize
    ensures { Replied text.now line.old result line.new }
{
    reply::reply(text, line).unwrap_or(0)
}
