// One line of a text: the frame that is due there, or none.
//
// First on text and number side by side (`frame_fault`, `further_fault`), then by the reader, which carries the lent
// text together with its place in it. Every line that a caller has read is read by the reader.
#![tactic(auto)]

ghost use Rattle.std.specs.Prelude.{◌≡◌};
ghost use Rattle.reasons.specs.Numbers.{refusal_number};
ghost use Rattle.cursor.specs.Frame.{frame_fault, further_fault};

use reasons::Reason;

// Refuses the line at a place, where it is not the frame of this kind and this many digits.
// Text and place stand side by side here as in `further_fault`: document 01 asks for the reader over functions on slice and number.
#[tactic(auto, using(crate::proofs::FrameLaws::frame_ways))]
fn frame_fault(text: &[u8], at: usize, kind: u8, due: usize) -> Result<(), Reason>
    ensures { refusal_number result ≡ frame_fault text.now at kind due }
{
    if text.len() <= at {
        return Err(Reason::WrongFrame);
    }
    let digits = text::line_length(text, at);
    if text::bad_line(text, at, digits) {
        return Err(Reason::BadLine);
    }
    if digits != due || digits::byte_at(text, at) != kind {
        return Err(Reason::WrongFrame);
    }
    Ok(())
}

// Refuses a line at a place.
#[tactic(auto, using(crate::proofs::FrameLaws::further_ways))]
fn further_fault(text: &[u8], at: usize) -> Result<(), Reason>
    ensures { refusal_number result ≡ further_fault text.now at }
{
    if text.len() <= at {
        return Ok(());
    }
    let digits = text::line_length(text, at);
    if text::bad_line(text, at, digits) {
        return Err(Reason::BadLine);
    }
    Err(Reason::WrongFrame)
}

// The frame reader: the lent text together with its place in it.
#[derive(Clone, Copy)]
pub struct Reader<'a> {
    pub text: &'a [u8],
    pub at: usize,
}

impl<'a> Reader<'a> {
    // A reader at a place of a text.
    pub fn new(text: &'a [u8], at: usize) -> Self
        ensures { (result.text ≡ text.entry) × (result.at ≡ at) }
    {
        Self { text, at }
    }

    // Refuses the line at the reader's place, where it is not the frame of this kind and this many digits.
    pub fn frame(self, kind: u8, due: usize) -> Result<(), Reason>
        ensures { refusal_number result ≡ frame_fault self.entry.text.now self.entry.at kind due }
    {
        frame_fault(self.text, self.at, kind, due)
    }

    // Refuses a line at the reader's place.
    pub fn further(self) -> Result<(), Reason>
        ensures { refusal_number result ≡ further_fault self.entry.text.now self.entry.at }
    {
        further_fault(self.text, self.at)
    }
}
