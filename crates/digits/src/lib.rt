// Digits of hexadecimal text by their places: what they are worth, the bytes and numbers that they spell, digits written.
//
// Every function that reads a text is total on it: behind its end stands 0, and a byte that is no digit is worth 0.
#![tactic(auto)]

ghost use Rattle.std.specs.Prelude.{
  ◌≡◌,
  ◌+◌,
  ◌*◌,
  ◌^◌,
  ◌≤◌,
  ◌<◌,
  ◌++◌,
  if◌then◌else◌,
  get_or,
  length,
  take,
  drop,
};
ghost use Rattle.digits.specs.Digits.{is_digit, digit, byte_at, number};
ghost use Rattle.digits.specs.Spell.{spelt, spell};

// What a byte is worth as a digit, 0-9 or A-F; None where it is none.
#[tactic(auto, using(std::proofs::lemmas::Bool::Decides::nat_tests), unfolding(crate::specs::Digits::is_digit, crate::specs::Digits::digit))]
pub fn digit(c: u8) -> Option<u8>
    ensures { result ≡ (if is_digit c then Some (digit c) else None) }
{
    match c {
        b'0'..=b'9' => Some(c - b'0'),
        b'A'..=b'F' => Some(c - b'A' + 10),
        _ => None,
    }
}

// What the byte at a place of the text is worth, 0 behind its end.
#[tactic(auto, using(std::proofs::lemmas::Bool::Decides::nat_tests), unfolding(crate::specs::Digits::is_digit, crate::specs::Digits::digit))]
fn digit_at(text: &[u8], at: usize) -> u8
    ensures value { result ≡ digit (get_or text.now at 0) }
    ensures bound { result < 16 }
{
    text.get(at).and_then(|c| digit(*c)).unwrap_or(0)
}

// The byte that is spelt at a place.
#[tactic(auto, unfolding(crate::specs::Digits::byte_at))]
pub fn byte_at(text: &[u8], at: usize) -> u8
    requires { at + 2 < 2 ^ 64 }
    ensures { result ≡ byte_at text.now at }
{
    digit_at(text, at) * 16 + digit_at(text, at + 1)
}

// The number of so many bytes at a place.
#[tactic(auto, using(crate::proofs::DigitLaws::read_none))]
pub fn number<const BYTES: usize>(text: &[u8], at: usize) -> u64
    requires bytes { BYTES ≤ 8 }
    requires place { at + 2 * BYTES < 2 ^ 64 }
    ensures value { result ≡ number text.now at BYTES }
    ensures bound { result < 256 ^ BYTES }
{
    let mut value = 0;
    for k in 0..BYTES {
        value = value * 256 + u64::from(byte_at(text, at + 2 * k));
    }
    value
}

// The digit worth d.
#[tactic(auto, using(std::proofs::lemmas::Bool::Decides::nat_tests), unfolding(crate::specs::Spell::spelt))]
fn digit_of(d: u8) -> u8
    requires { d < 16 }
    ensures { result ≡ spelt d }
{
    if d < 10 { b'0' + d } else { b'A' + d - 10 }
}

// Writes the last k digits of x, from a place on.
pub fn put_digits(out: &mut [u8], at: usize, k: usize, x: u64)
    requires { at + k ≤ length out.old }
    ensures { out.new ≡ take at out.old ++ spell k x ++ drop (at + k) out.old }
{
    let mut rest = x;
    for i in (0..k).rev() {
        out[at + i] = digit_of((rest % 16) as u8);
        rest /= 16;
    }
}
