// The answer frame of a verdict.
#![tactic(auto)]

ghost use Rattle.std.specs.Prelude.{◌≡◌};
ghost use Rattle.framed.specs.Framed.{frame_of};

use frames::Answer;
use verdict::Decision;

// The frame that says a verdict. A function, since a `From` stands in the crate of one of its types, and neither names the other's.
pub fn answer_frame(d: Decision) -> Answer
    ensures { result ≡ frame_of d }
{
    Answer::new(d.outcome.into(), d.price, d.rounds, d.victims)
}
