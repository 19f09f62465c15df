// What the graph layer says of each line of its standard input, a line each.
// A line is R T r1 .. rR: how many rows, the job T, and the rows, 64 at most.
// Numbers are read in capital hexadecimal digits, single spaces between, and written in small ones.
// The text has 65,536 bytes at most. A line of more rows ends the program.
//
//   reach MASK x MASK ring yes    whom T reaches, X, and whether a ring passes through T: yes or no
//   refused K                     1 where there is no row, 4 where a row names a job that is not there, 6 where T is no job
#![tactic(auto)]

ghost use Rattle.std.specs.Prelude.{◌≤◌, length, take};
ghost use Rattle.graphs.specs.Questions.{QuestionAt, NoRoom};

use cases::{Line, Numbers, answer_lines, yes_or_no};
use reasons::Reason;
use std::io::Stdout;
use words::Words;

// The rows on a line, and the job that is asked about.
#[derive(Drop)]
struct Question {
    rows: Numbers<64>,
    t: usize,
}

impl Line for Question {
    ghost line_at = { λ text at question next. QuestionAt text at (take question.rows.count question.rows.list) question.t next };

    ghost no_room = { NoRoom };

    fn read(words: &mut Words<'_>) -> Option<Question> {
        let mut opening = [0u64; 2];
        words.fill(&mut opening);
        let [rows, t] = opening;
        let rows = Numbers::read(words, rows as usize)?;
        Some(Question {
            rows,
            t: t as usize,
        })
    }
}

// Whom the job reaches, X, and whether a ring passes through the job.
#[derive(Clone, Copy)]
struct Answer {
    reach: u64,
    x: u64,
    ring: bool,
}

// What the graph layer says of job t.
fn ask(rows: &[u64], t: usize) -> Result<Answer, Reason>
    requires { length rows.now ≤ 64 }
{
    if rows.is_empty() {
        return Err(Reason::BadRows);
    }
    if !graph::rows_known(rows) {
        return Err(Reason::StrayJob);
    }
    if t >= rows.len() {
        return Err(Reason::NoSuchJob);
    }
    let reach = graph::reach(rows, t);
    let x = graph::on_rings(rows, t);
    let ring = graph::ring_through(rows, t, x);
    Ok(Answer { reach, x, ring })
}

// Answers a question. A write that fails is let go.
fn print_answer(out: &Stdout, question: &Question) {
    let _written = match ask(question.rows.as_slice(), question.t) {
        Ok(Answer { reach, x, ring }) => {
            println!(out; "reach {reach:x} x {x:x} ring {}", yes_or_no(ring))
        }
        Err(reason) => println!(out; "refused {:x}", u8::from(reason)),
    };
}

fn main(rt: HostRuntime) {
    let out = rt.stdout();
    answer_lines(
        &mut rt.stdin(),
        |question: Question| print_answer(&out, &question),
    );
}
