// The lines that are written: an answer or a refusal, as digits and a line feed.
//
// Each function writes its line at the front of a lent list and leaves the rest of the list as it was.
#![tactic(auto)]

ghost use Rattle.std.specs.Prelude.{◌≡◌, ◌++◌, ◌+◌, ◌≤◌, length, drop};
ghost use Rattle.std.specs.List.{flat_map, sum_by};
ghost use Rattle.digits.specs.Spell.{spell};
ghost use Rattle.frames.specs.Kinds.{answer_digits, refusal_digits};
ghost use Rattle.lines.specs.Lines.{answer_line, refusal_line};

use frames::{Answer, Refusal};

// A field of a frame: how many digits it has, and its number.
#[derive(Clone, Copy)]
struct Field(usize, u64);

// Writes fields one behind another at the front of a list.
fn write_fields(fields: &[Field], out: &mut [u8])
    requires { sum_by (λ f. f.0) fields.now ≤ length out.old }
    ensures { let spelt = flat_map (λ f. spell f.0 f.1) fields.now in out.new ≡ spelt ++ drop (length spelt) out.old }
{
    let mut at = 0;
    for &Field(width, number) in fields {
        digits::put_digits(out, at, width, number);
        at += width;
    }
}

// Writes the answer line at the front of a list.
pub fn write_answer(a: Answer, out: &mut [u8])
    requires { answer_digits + 1 ≤ length out.old }
    ensures { out.new ≡ answer_line a ++ drop (answer_digits + 1) out.old }
{
    let fields = [
        Field(2, u64::from(Answer::KIND)),
        Field(2, u64::from(a.outcome)),
        Field(16, a.price),
        Field(8, u64::from(a.rounds)),
        Field(16, a.victims),
    ];
    write_fields(&fields, out);
    out[Answer::DIGITS] = b'\n';
}

// Writes the refusal line at the front of a list.
pub fn write_refusal(r: Refusal, out: &mut [u8])
    requires { refusal_digits + 1 ≤ length out.old }
    ensures { out.new ≡ refusal_line r ++ drop (refusal_digits + 1) out.old }
{
    let fields = [
        Field(2, u64::from(Refusal::KIND)),
        Field(2, u64::from(r.number)),
        Field(4, u64::from(r.line)),
    ];
    write_fields(&fields, out);
    out[Refusal::DIGITS] = b'\n';
}
