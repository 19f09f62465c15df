// The line at a place of a text: how long it is, and which line may be read at all (`bad_line`, refusal 10).
#![tactic(auto)]

ghost use Rattle.std.specs.Prelude.{◌≡◌, ◌==◌, ◌≤◌, length};
ghost use Rattle.std.specs.List.{position, list_all};
ghost use Rattle.digits.specs.Digits.{is_digit};
ghost use Rattle.text.specs.Line.{line_at, bad_line};

// Where the first line feed of a text stands.
fn feed(text: &[u8]) -> Option<usize>
    ensures { result ≡ position (λ c. c == 10) text.now }
{
    text.iter().position(|c| *c == b'\n')
}

// How many bytes the line at a place has, its line feed not counted.
pub fn line_length(text: &[u8], at: usize) -> usize
    requires { at ≤ length text.now }
    ensures { result ≡ length (line_at text.now at) }
{
    let rest = &text[at..];
    feed(rest).unwrap_or(rest.len())
}

// Whether each byte of a line is a digit.
fn all_digits(line: &[u8]) -> bool
    ensures { result ≡ list_all is_digit line.now }
{
    line.iter().all(|c| digits::digit(*c).is_some())
}

// Refusal 10 of the line at a place, which has so many bytes.
#[tactic(auto, using(crate::proofs::LineLaws::line_fits, crate::proofs::LineLaws::bad_odd, crate::proofs::LineLaws::bad_torn, crate::proofs::LineLaws::bad_is))]
pub fn bad_line(text: &[u8], at: usize, bytes: usize) -> bool
    requires { (at ≤ length text.now) × (bytes ≡ length (line_at text.now at)) }
    ensures { result ≡ bad_line text.now at }
{
    let end = at + bytes;
    bytes % 2 == 1 || end == text.len() || !all_digits(&text[at..end])
}
