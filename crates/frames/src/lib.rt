// Frames: what a line says.
//
// Each frame type owns its kind byte and its digit count, as document 01 asks, and is made by its constructor: a header and a job frame out of
// the digits at a place of a text, an answer and a refusal out of their fields.
#![tactic(auto)]

ghost use Rattle.std.specs.Prelude.{◌≡◌, ◌+◌, ◌*◌, ◌^◌, ◌<◌};
ghost use Rattle.frames.specs.Kinds.{header_digits, job_digits};
ghost use Rattle.frames.specs.Records.{answered, refused};
ghost use Rattle.frames.specs.Fields.{header_at, job_at};

use ticks::{Operations, Ticks};

// The header frame: "01, present tick, a, b, n, pools s, T, allowance".
#[derive(Clone, Copy, PartialEq, Eq, Debug)]
pub struct Header {
    pub present: Ticks,
    pub a: u16,
    pub b: u16,
    pub n: usize,
    pub s: usize,
    pub t: usize,
    pub allowance: u32,
}

// A job frame up to its pool states: "02, job number, issue tick, N".
#[derive(Clone, Copy, PartialEq, Eq, Debug)]
pub struct Job {
    pub number: usize,
    pub issue: Ticks,
    pub operations: Operations,
}

// The answer frame: "03, outcome, price, rounds, victims".
// `lines::write_answer` takes any outcome, so it is a byte: an enum would ask more of its callers.
#[derive(Clone, Copy, PartialEq, Eq, Debug)]
pub struct Answer {
    pub outcome: u8,
    pub price: u64,
    pub rounds: u32,
    pub victims: u64,
}

// The refusal frame: "0F, number, line".
// `lines::write_refusal` takes any number, so it is a byte: an enum would ask more of its callers.
#[derive(Clone, Copy, PartialEq, Eq, Debug)]
pub struct Refusal {
    pub number: u8,
    pub line: u16,
}

impl Header {
    pub const KIND: u8 = 1;

    pub const DIGITS: usize = 32;

    // The header that the digits at a place spell.
    #[tactic(auto, unfolding(crate::specs::Fields::header_at))]
    pub fn read(text: &[u8], at: usize) -> Self
        requires { at + header_digits < 2 ^ 64 }
        ensures { result ≡ header_at text.now at }
    {
        Self {
            present: Ticks(digits::number::<4>(text, at + 2) as u32),
            a: digits::number::<2>(text, at + 10) as u16,
            b: digits::number::<2>(text, at + 14) as u16,
            n: digits::byte_at(text, at + 18) as usize,
            s: digits::byte_at(text, at + 20) as usize,
            t: digits::byte_at(text, at + 22) as usize,
            allowance: digits::number::<4>(text, at + 24) as u32,
        }
    }
}

impl Job {
    pub const KIND: u8 = 2;

    // How many digits a job frame has at s pools.
    pub fn digits(s: usize) -> usize
        requires { job_digits s < 2 ^ 64 }
        ensures { result ≡ job_digits s }
    {
        20 + 2 * s
    }

    // The job frame that the digits at a place spell.
    #[tactic(auto, unfolding(crate::specs::Fields::job_at))]
    pub fn read(text: &[u8], at: usize) -> Self
        requires { at + job_digits 0 < 2 ^ 64 }
        ensures { result ≡ job_at text.now at }
    {
        Self {
            number: digits::byte_at(text, at + 2) as usize,
            issue: Ticks(digits::number::<4>(text, at + 4) as u32),
            operations: Operations(digits::number::<4>(text, at + 12) as u32),
        }
    }
}

impl Answer {
    pub const KIND: u8 = 3;

    pub const DIGITS: usize = 44;

    // The answer with these fields.
    // Document 01 asks for a constructor of each frame type; the theorem answer_new_unique is of this one.
    pub fn new(outcome: u8, price: u64, rounds: u32, victims: u64) -> Self
        ensures { result ≡ answered outcome price rounds victims }
    {
        Self {
            outcome,
            price,
            rounds,
            victims,
        }
    }
}

impl Refusal {
    pub const KIND: u8 = 15;

    pub const DIGITS: usize = 8;

    // Refusal `number` at `line`.
    // Document 01 asks for a constructor of each frame type; the theorem refusal_new_unique is of this one.
    pub fn new(number: u8, line: u16) -> Self
        ensures { result ≡ refused number line }
    {
        Self { number, line }
    }
}
