// The rounds of each call of its standard input, made by the flow layer alone, a line each; nothing where a call is refused.
// A line is R C W T A r1 .. rR c1 .. cC: how many rows, costs and work places, the job T, the allowance, the rows and the costs.
// R and C are 80 at most, W 6,400; each work place is 5A5A5A5A5A5A5A5A before the call.
// Numbers are read in capital hexadecimal digits, single spaces between, and written in small ones, jobs in decimal digits.
// The text has 65,536 bytes at most. A line of more numbers or work places ends the program.
//
//   rounds ROUNDS left yes u>v:FLOW ..    how many rounds, whether a path is left, yes or no, and each flow above 0
#![tactic(auto)]

ghost use Rattle.std.specs.Prelude.{◌<◌, length};
ghost use Rattle.bits.specs.Mask.{MaskOf};
ghost use Rattle.graph.specs.Waits.{waits};
ghost use Rattle.graph.specs.Rings.{InX};
ghost use Rattle.flow.specs.Answer.{is_left, ins_of, outs_of};
ghost use Rattle.flow.specs.Flowed.{Flowed};
ghost use Rattle.checks.specs.Refusals.{Faultless};

use calls::Call;
use cases::{Case, PAINT, PLACES, answer_lines, yes_or_no};
use flow::Made;
use std::io::Stdout;

// The rounds of a call without faults, where x is X.
fn rounds_of(call: Call<'_, u64>, x: u64, work: &mut [u64]) -> Made
    requires faultless { Faultless call.rows.now call.costs.now call.t (length work.old) }
    requires x { MaskOf (InX (waits call.rows.now) (length call.rows.now) call.t) x }
    ensures { Flowed call.entry.rows.now call.entry.costs.now call.entry.t x call.entry.allowance work.old work.new result.rounds (is_left result.sides) (ins_of result.sides) (outs_of result.sides) }
{
    sheet::clear(work, call.rows.len());
    flow::make_rounds(call, x, work)
}

// Writes the flows above 0 of n jobs. A write that fails is let go, here and below.
fn print_flows(out: &Stdout, flows: &[u64], n: usize)
    requires { 0 < n }
{
    for (i, &flow) in flows.iter().enumerate() {
        if flow != 0 {
            let _written = print!(out; " {}>{}:{flow:x}", i / n, i % n);
        }
    }
}

// Makes the rounds of a call and writes what they came to; nothing where the call is refused.
fn print_rounds(out: &Stdout, case: &Case) {
    let call = case.call();
    if checks::refusal(call, case.places()).is_err() {
        return;
    }
    let x = graph::on_rings(call.rows, call.t);
    // No heap is a rule of the project: a list of the largest size, of which the first places are lent.
    let mut work = [PAINT; PLACES];
    let made = rounds_of(call, x, &mut work[..case.places()]);
    let _written = print!(out;
        "rounds {:x} left {}",
        made.rounds,
        yes_or_no(made.sides.is_none())
    );
    let n = call.rows.len();
    print_flows(out, &work[..n * n], n);
    let _written = println!(out; "");
}

fn main(rt: HostRuntime) {
    let out = rt.stdout();
    answer_lines(&mut rt.stdin(), |case: Case| print_rounds(&out, &case));
}
