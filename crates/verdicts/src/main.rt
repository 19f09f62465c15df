// The answer to each verdict call of its standard input, a line each, with a digest of the work places after the call.
// A line is R C W T A r1 .. rR c1 .. cC: how many rows, costs and work places, the job T, the allowance, the rows and the costs.
// R and C are 80 at most, W 6,400; each work place is 5A5A5A5A5A5A5A5A before the call.
// Numbers are read in capital hexadecimal digits, single spaces between, and written in small ones.
// The text has 65,536 bytes at most. A line of more numbers or work places ends the program.
//
//   OUTCOME PRICE ROUNDS VICTIMS DIGEST    the outcome is wait, abort-t, abort-others or not-yet
//   refused K DIGEST
#![tactic(auto)]

ghost use Rattle.std.specs.Prelude.{◌≡◌};
ghost use Rattle.std.specs.List.{fold};
ghost use Rattle.verdicts.specs.Digest.{stirred};

use cases::{Case, PAINT, PLACES, answer_lines};
use std::io::Stdout;
use verdict::{Decision, verdict};

// The digest d with one more place in it: joined by exclusive or with the place, multiplied by 100000001B3 in hexadecimal digits modulo 2^64,
// and joined with itself shifted down by 29.
fn stir(d: u64, place: u64) -> u64
    ensures { result ≡ stirred d place }
{
    let product = (d ^ place).wrapping_mul(0x100_0000_01B3);
    product ^ (product >> 29)
}

// The digest of a list, from CBF29CE484222325 on.
fn digest(list: &[u64]) -> u64
    ensures { result ≡ fold stirred 14695981039346656037 list.now }
{
    list.iter()
        .fold(0xCBF2_9CE4_8422_2325, |d, place| stir(d, *place))
}

// Makes a call and writes its answer and the digest. A write that fails is let go.
fn print_verdict(out: &Stdout, case: &Case) {
    // No heap is a rule of the project: a list of the largest size, of which the first places are lent.
    let mut work = [PAINT; PLACES];
    let work = &mut work[..case.places()];
    let _written = match verdict(case.call(), work) {
        Ok(
            Decision {
                outcome,
                price,
                rounds,
                victims,
            },
        ) => print!(out; "{outcome} {price:x} {rounds:x} {victims:x}"),
        Err(reason) => print!(out; "refused {:x}", u8::from(reason)),
    };
    let _written = println!(out; " {:016x}", digest(work));
}

fn main(rt: HostRuntime) {
    let out = rt.stdout();
    answer_lines(&mut rt.stdin(), |case: Case| print_verdict(&out, &case));
}
