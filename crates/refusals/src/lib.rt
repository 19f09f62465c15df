// The first refusal of a text, with its line.
//
// `first_refusal` gives the reason and the line by the reader's rule: 3, then 9, both with line 0; then line by line 10,
// 11, the fields from left to right, 17; then a further line; then 18.
#![tactic(auto)]

ghost use Rattle.std.specs.Prelude.{◌≡◌, ◌+◌, ◌*◌, ◌≤◌, ◌||◌, ltb, length};
ghost use Rattle.reasons.specs.Numbers.{reason_number, refusal_number};
ghost use Rattle.cursor.specs.Order.{◌when◌, ◌then◌};
ghost use Rattle.frames.specs.Kinds.{header_digits, job_digits};
ghost use Rattle.frames.specs.Records.{refused, no_refusal};
ghost use Rattle.frames.specs.Fields.{header_at};
ghost use Rattle.faults.specs.HeaderFault.{header_fault};
ghost use Rattle.refusals.specs.Results.{refused_as};
ghost use Rattle.refusals.specs.Refused.{on_line, jobs_refusal, refusal_of};

use cursor::Reader;
use frames::{Header, Job, Refusal};
use reasons::Reason;

// Why a text is refused, and the line where.
#[derive(Clone, Copy, Debug, PartialEq, Eq)]
pub struct Refused {
    pub reason: Reason,
    pub line: u16,
}

impl From<Refused> for Refusal {
    ghost from_gives = { λ r refusal. refusal ≡ refused (reason_number r.reason) r.line };

    fn from(r: Refused) -> Refusal
        ensures { result ≡ refused (reason_number r.reason) r.line }
    {
        Refusal::new(r.reason.into(), r.line)
    }
}

// A refusal at a line, where there is one.
#[tactic(auto, using(crate::proofs::PassLaws::pass_steps))]
fn on_line(line: u16, fault: Result<(), Reason>) -> Result<(), Refused>
    ensures { refused_as result ≡ on_line line (refusal_number fault) no_refusal }
{
    fault.map_err(|reason| Refused { reason, line })
}

// Where the frame of job j starts, behind the header and j job frames.
pub fn job_place(h: Header, j: usize) -> usize
    requires { (h.s ≤ 16) × (j ≤ 64) }
    ensures { result ≡ header_digits + 1 + j * (job_digits h.s + 1) }
{
    Header::DIGITS + 1 + j * (Job::digits(h.s) + 1)
}

// The line of job j.
fn job_line(j: usize) -> u16
    requires { j ≤ 64 }
    ensures { result ≡ j + 2 }
{
    (j + 2) as u16
}

// The first refusal behind a header that nothing refuses: of the job frames, of a further line, of T.
#[tactic(auto, using(crate::proofs::PassLaws::job_steps))]
fn jobs_refusal(h: Header, text: &[u8]) -> Result<(), Refused>
    requires passed { header_fault text.now 0 ≡ 0 }
    requires header { h ≡ header_at text.now 0 }
    ensures { refused_as result ≡ jobs_refusal h text.now h.n 0 }
{
    for j in 0..h.n {
        let line = Reader::new(text, job_place(h, j));
        on_line(job_line(j), faults::job_fault(h, j, line))?;
    }
    let behind = Reader::new(text, job_place(h, h.n));
    on_line(job_line(h.n), behind.further())?;
    if faults::waits_in(Reader::new(text, job_place(h, h.t)), h.s) == 0 {
        return Err(Refused {
            reason: Reason::TWaitsNowhere,
            line: job_line(h.t),
        });
    }
    Ok(())
}

// Refuses lists with too few places, and a text that is too long.
#[tactic(auto, using(crate::proofs::PassLaws::pass_steps))]
fn size_fault(text: &[u8], rows: usize, costs: usize) -> Result<(), Reason>
    ensures { refusal_number result ≡ (3 when (ltb rows 64 || ltb costs 64) then 9 when ltb 4096 (length text.now)) }
{
    if rows < 64 || costs < 64 {
        return Err(Reason::TooFewPlaces);
    }
    if text.len() > 4096 {
        return Err(Reason::TextTooLong);
    }
    Ok(())
}

// The first refusal of a text that is read into lists with so many places.
#[tactic(auto, using(crate::proofs::PassLaws::pass_steps))]
pub fn first_refusal(text: &[u8], rows: usize, costs: usize) -> Result<(), Refused>
    ensures { refused_as result ≡ refusal_of rows costs text.now }
{
    on_line(0, size_fault(text, rows, costs))?;
    on_line(1, faults::header_fault(Reader::new(text, 0)))?;
    jobs_refusal(Header::read(text, 0), text)
}
