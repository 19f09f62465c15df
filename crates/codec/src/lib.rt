// Numbers and answers as bytes, most significant first.
//
// `number_at` reads a number of 8 bytes, `put_number` writes one of so many, `put_answer` writes the 22 bytes of an answer frame.
// A function that writes leaves every byte that it does not write as it was.
#![tactic(auto)]

ghost use Rattle.std.specs.Prelude.{◌≡◌, ◌++◌, ◌+◌, ◌≤◌, length, take, drop};
ghost use Rattle.codec.specs.Bytes.{number_at, bytes_of};
ghost use Rattle.codec.specs.Frame.{answer_bytes};

use frames::Answer;

// The number of the 8 bytes at a place.
pub fn number_at(bytes: &[u8], at: usize) -> u64
    requires { at + 8 ≤ length bytes.now }
    ensures { result ≡ number_at bytes.now at 8 }
{
    u64::from_be_bytes(bytes[at..at + 8].try_into().unwrap())
}

// Writes the last k bytes of a number at a place. A number has 8: what is written in front of those is 0.
pub fn put_number(bytes: &mut [u8], at: usize, k: usize, x: u64)
    requires { at + k ≤ length bytes.old }
    ensures { bytes.new ≡ take at bytes.old ++ bytes_of k x ++ drop (at + k) bytes.old }
{
    let own = k.min(8);
    let end = at + k;
    bytes[at..end - own].fill(0);
    bytes[end - own..end].copy_from_slice(&x.to_be_bytes()[8 - own..]);
}

// Writes the 22 bytes of an answer frame at the front of a list.
pub fn put_answer(a: Answer, bytes: &mut [u8])
    requires { 22 ≤ length bytes.old }
    ensures { bytes.new ≡ answer_bytes a ++ drop 22 bytes.old }
{
    bytes[0] = Answer::KIND;
    bytes[1] = a.outcome;
    put_number(bytes, 2, 8, a.price);
    put_number(bytes, 10, 4, u64::from(a.rounds));
    put_number(bytes, 14, 8, a.victims);
}
