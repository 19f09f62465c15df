// Faults: what refuses the line of a header or of a job frame.
//
// `header_fault` and `job_fault` give the first refusal of one line, in the order of the document: 10, 11, then the fields
// from left to right, then 17.
#![tactic(auto)]

ghost use Rattle.std.specs.Prelude.{◌≡◌, ◌+◌, ◌*◌, ◌^◌, ◌<◌};
ghost use Rattle.reasons.specs.Numbers.{refusal_number};
ghost use Rattle.frames.specs.Kinds.{header_digits, job_digits};
ghost use Rattle.frames.specs.Fields.{state_byte};
ghost use Rattle.faults.specs.HeaderFault.{in_range, header_fault};
ghost use Rattle.faults.specs.JobFault.{age_fault, operations_fault, fields_fault, state_above, waits_in, job_fault};

use cursor::Reader;
use frames::{Header, Job};
use pools::WAITING;
use reasons::Reason;
use ticks::{Operations, Ticks};

// Whether every field of a header is in range.
#[tactic(auto, unfolding(crate::specs::HeaderFault::in_range))]
fn in_range(h: Header) -> bool
    ensures { result ≡ in_range h }
{
    (1..=1000).contains(&h.a)
        && h.b <= 1000
        && (1..=64).contains(&h.n)
        && (1..=16).contains(&h.s)
        && h.t < h.n
}

// Refuses the line, where it is no header with its fields in range.
#[tactic(auto, using(crate::proofs::FaultLaws::fault_steps))]
pub fn header_fault(line: Reader) -> Result<(), Reason>
    requires { line.at + header_digits < 2 ^ 64 }
    ensures { refusal_number result ≡ header_fault line.entry.text.now line.entry.at }
{
    line.frame(Header::KIND, Header::DIGITS)?;
    if !in_range(Header::read(line.text, line.at)) {
        return Err(Reason::BadHeader);
    }
    Ok(())
}

// Refuses ticks where a clock went back.
#[tactic(auto, using(crate::proofs::FaultLaws::fault_steps))]
fn age_fault(present: Ticks, issue: Ticks) -> Result<(), Reason>
    ensures { refusal_number result ≡ age_fault present issue }
{
    if ticks::age(present, issue).0 >= 1 << 31 {
        return Err(Reason::ClockWentBack);
    }
    Ok(())
}

// Refuses a number of operations that is out of range.
#[tactic(auto, using(crate::proofs::FaultLaws::fault_steps))]
fn operations_fault(operations: Operations) -> Result<(), Reason>
    ensures { refusal_number result ≡ operations_fault operations }
{
    if !(1..=1 << 20).contains(&operations.0) {
        return Err(Reason::BadOperations);
    }
    Ok(())
}

// Refuses the fields of a job frame, where they are not those of the job due.
#[tactic(auto, using(crate::proofs::FaultLaws::fault_steps))]
fn fields_fault(h: Header, due: usize, job: Job) -> Result<(), Reason>
    ensures { refusal_number result ≡ fields_fault h due job }
{
    if job.number != due {
        return Err(Reason::NotTheNextJob);
    }
    age_fault(h.present, job.issue)?;
    operations_fault(job.operations)
}

// The state of pool p in the job frame at the reader's place.
#[tactic(auto, unfolding(frames::specs::Fields::state_byte))]
pub fn state(frame: Reader, p: usize) -> u8
    requires { frame.at + job_digits (p + 1) < 2 ^ 64 }
    ensures { result ≡ state_byte frame.entry.text.now frame.entry.at p }
{
    digits::byte_at(frame.text, frame.at + 20 + 2 * p)
}

// Whether one of the first s pool states of the job frame is above 02, that of a job that waits.
fn state_above(frame: Reader, s: usize) -> bool
    requires { frame.at + job_digits s < 2 ^ 64 }
    ensures { result ≡ state_above frame.entry.text.now frame.entry.at s }
{
    (0..s).any(|p| state(frame, p) > WAITING)
}

// At how many of the first s pools the job of the frame waits.
#[tactic(auto, using(crate::proofs::StateLaws::state_steps))]
pub fn waits_in(frame: Reader, s: usize) -> usize
    requires { frame.at + job_digits s < 2 ^ 64 }
    ensures { result ≡ waits_in frame.entry.text.now frame.entry.at s }
{
    let mut waits = 0;
    for p in 0..s {
        if state(frame, p) == WAITING {
            waits += 1;
        }
    }
    waits
}

// Refuses the line, where it is not the frame of the job due with its fields and states in range, from 10, 11 and 13 to 17.
#[tactic(auto, using(crate::proofs::FaultLaws::fault_steps))]
pub fn job_fault(h: Header, due: usize, line: Reader) -> Result<(), Reason>
    requires { line.at + job_digits h.s < 2 ^ 64 }
    ensures { refusal_number result ≡ job_fault h line.entry.text.now due line.entry.at }
{
    line.frame(Job::KIND, Job::digits(h.s))?;
    fields_fault(h, due, Job::read(line.text, line.at))?;
    if state_above(line, h.s) {
        return Err(Reason::BadState);
    }
    if waits_in(line, h.s) > 1 {
        return Err(Reason::WaitsTwice);
    }
    Ok(())
}
