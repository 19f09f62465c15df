// Text in, line out: the program's whole work, on slices.
//
// `reply` takes any text and writes the line that answers it, an answer or a refusal, at the front of a lent list of 45 places or more;
// it gives how long the line is, and leaves the rest of the list as it was. A shorter list gets none and nothing written.
#![tactic(auto)]

ghost use Rattle.std.specs.Prelude.{◌<◌, ◌↔◌, IsNone, length};
ghost use Rattle.graph.specs.Waits.{waits};
ghost use Rattle.network.specs.Costs.{cost_at};
ghost use Rattle.checks.specs.Refusals.{Faultless};
ghost use Rattle.verdict.specs.Answers.{Verdict};
ghost use Rattle.reply.specs.Replied.{Replied};
ghost use Rattle.reply.specs.Results.{written_as};

use calls::Call;
use frames::Answer;
use verdict::Decision;

// The verdict on jobs without faults. No refusal is met while nobody changes the text; where somebody does, nothing is decided: "not yet".
fn decide(call: Call<'_, u64>) -> Answer
    requires { Faultless call.rows.now call.costs.now call.t 4096 }
    ensures { Verdict (waits call.entry.rows.now) (length call.entry.rows.now) call.entry.t (cost_at call.entry.costs.now) call.entry.allowance result.outcome result.price result.rounds result.victims }
{
    let mut work = [0u64; 4096];
    let decision = verdict::verdict(call, &mut work).unwrap_or(Decision::not_yet(0));
    framed::answer_frame(decision)
}

// The line that answers a text.
#[tactic(auto, using(crate::proofs::LineLaws::reply_short))]
pub fn reply(text: &[u8], line: &mut [u8]) -> Option<usize>
    ensures replied { Replied text.now line.old (written_as result) line.new }
    ensures short { IsNone result ↔ (length line.old < 45) }
{
    if line.len() < 45 {
        return None;
    }
    // No heap is a rule of the project: lists for 64 jobs, of which the first n places are lent.
    let mut rows = [0u64; 64];
    let mut costs = [0u64; 64];
    let snapshot = match reader::read(text, &mut rows, &mut costs) {
        Ok(snapshot) => snapshot,
        Err(refused) => {
            lines::write_refusal(refused.into(), line);
            return Some(9);
        }
    };
    let n = snapshot.n;
    let call = Call {
        rows: &rows[..n],
        costs: &costs[..n],
        t: snapshot.t,
        allowance: snapshot.allowance,
    };
    lines::write_answer(decide(call), line);
    Some(45)
}
