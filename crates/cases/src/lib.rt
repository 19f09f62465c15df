// What the programs that run cases share: their text, which has 65,536 bytes at most, read line by line, and the line of a verdict call.
//
// `Numbers` is a list of numbers on a line, `Line` a line that a program reads, `Case` that of a verdict call,
// and `answer_lines` passes each line of a text on to the program.
// Numbers are read in capital hexadecimal digits, single spaces between. A line of more numbers than there is room for ends the program.
#![tactic(auto)]

ghost use Rattle.std.specs.Prelude.{◌≡◌, ◌<◌, ◌≤◌, ◌↔◌, IsSome, IfSome, IfNone, if◌then◌else◌, List, ℕ, codes, length, take};
ghost use Rattle.std.specs.Io.KnownBytes.{Consumes};
ghost use Rattle.words.specs.Words.{words_at, words_end};
ghost use Rattle.cases.specs.declared.TheConstants.{PLACES};
ghost use Rattle.cases.specs.Lines.{Answered};

use calls::Call;
use input::read_full;
use std::io::Read;
use words::Words;

// How many work places a verdict call has at most.
pub const PLACES: usize = 6400;

// What each work place holds before a call.
pub const PAINT: u64 = 0x5A5A_5A5A_5A5A_5A5A;

// The numbers of a list on a line, SIZE at most. No heap is a rule of the project: a list of a fixed size and how many places of it are filled.
#[derive(Drop)]
pub struct Numbers<const SIZE: usize> {
    list: [u64; SIZE],
    count: usize,
    ghost few: { count ≤ SIZE },
}

impl<const SIZE: usize> Numbers<SIZE> {
    // Reads so many numbers, where there is room for them.
    pub fn read(words: &mut Words<'_>, count: usize) -> Option<Numbers<SIZE>>
        ensures text { words.new.text.now ≡ words.old.text.now }
        ensures room { IsSome result ↔ (count ≤ SIZE) }
        ensures numbers { IfSome result (λ numbers. take numbers.count numbers.list ≡ words_at words.old.text.now words.old.at count) }
        ensures place { IfSome result (λ numbers. words.new.at ≡ words_end words.old.text.now words.old.at count) }
        ensures kept { IfNone result (words.new.at ≡ words.old.at) }
        ensures onward { words.old.at ≤ words.new.at }
    {
        if count > SIZE {
            return None;
        }
        let mut list = [0u64; SIZE];
        words.fill(&mut list[..count]);
        Some(Numbers { list, count })
    }

    // The numbers.
    pub fn as_slice(&self) -> &[u64]
        ensures numbers { result.now ≡ take self.now.count self.now.list }
        ensures few { length result.now ≤ SIZE }
    {
        &self.list[..self.count]
    }
}

// A line that a program reads.
pub trait Line: Drop {
    // What stands on the line at a place of a text, and where the next one starts.
    ghost line_at: { List ℕ → ℕ → Self → ℕ → Type 0 };

    // That there is no room for the numbers of the line at a place.
    ghost no_room: { List ℕ → ℕ → Type 0 };

    // Reads the line at the place, where there is room for its numbers.
    fn read(words: &mut Words<'_>) -> Option<Self>
        requires { words.old.at < length words.old.text.now }
        ensures text { words.new.text.now ≡ words.old.text.now }
        ensures forward { words.old.at < words.new.at }
        ensures line { IfSome result (λ line. line_at words.old.text.now words.old.at line words.new.at) }
        ensures full { IfNone result (no_room words.old.text.now words.old.at) };
}

// Answers each line from a place of a text on, up to one that there is no room for.
fn answer_all<L: Line, F: FnMut(L)>(mut words: Words<'_>, mut answer: F)
    requires { F.IsAlwaysCallable answer }
    ensures { Answered L.line_at L.no_room (λ f line f'. F.step f line tt f') words.entry.text.now words.entry.at answer }
{
    while words.has_more() {
        let Some(line) = L::read(&mut words) else {
            return;
        };
        answer(line);
    }
}

// Reads a text and answers each of its lines, up to one that there is no room for.
pub fn answer_lines<R: Read, L: Line, F: FnMut(L)>(reader: &mut R, answer: F)
    requires { F.IsAlwaysCallable answer }
    ensures { (text : List ℕ) × Consumes (R.remaining reader.old) (R.remaining reader.new) text × Answered L.line_at L.no_room (λ f line f'. F.step f line tt f') text 0 answer }
{
    // No heap is a rule of the project: a list of a fixed size.
    let mut text = [0u8; 65536];
    let count = read_full(reader, &mut text);
    answer_all(Words::new(&text[..count], 0), answer)
}

// The line R C W T A r1 .. rR c1 .. cC of a verdict call: how many rows, costs and work places, the job T, the allowance, the rows and the costs.
#[derive(Drop)]
pub struct Case {
    rows: Numbers<80>,
    costs: Numbers<80>,
    t: usize,
    allowance: u32,
    places: usize,
    ghost few_places: { places ≤ PLACES },
}

impl Case {
    // What the call asks.
    pub fn call(&self) -> Call<'_, u64>
        ensures rows { result.rows.now ≡ take self.now.rows.count self.now.rows.list }
        ensures costs { result.costs.now ≡ take self.now.costs.count self.now.costs.list }
        ensures t { result.t ≡ self.now.t }
        ensures allowance { result.allowance ≡ self.now.allowance }
    {
        Call {
            rows: self.rows.as_slice(),
            costs: self.costs.as_slice(),
            t: self.t,
            allowance: self.allowance,
        }
    }

    // How many work places it has.
    pub fn places(&self) -> usize
        ensures places { result ≡ self.now.places }
        ensures few { result ≤ PLACES }
    {
        self.places
    }
}

impl Line for Case {
    ghost use Rattle.cases.specs.Cases.{CaseAt, NoRoom};

    ghost line_at = { λ text at case next. CaseAt text at (take case.rows.count case.rows.list) (take case.costs.count case.costs.list) case.places case.t case.allowance next };

    ghost no_room = { NoRoom };

    fn read(words: &mut Words<'_>) -> Option<Case> {
        let mut opening = [0u64; 5];
        words.fill(&mut opening);
        let [rows, costs, places, t, allowance] = opening;
        if places > PLACES as u64 {
            return None;
        }
        let rows = Numbers::read(words, rows as usize)?;
        let costs = Numbers::read(words, costs as usize)?;
        Some(Case {
            rows,
            costs,
            t: t as usize,
            allowance: (allowance % 4294967296) as u32,
            places: places as usize,
        })
    }
}

// The word for a bool.
pub fn yes_or_no(yes: bool) -> &'static str
    ensures { result.now ≡ (if yes then codes "yes" else codes "no") }
{
    if yes { "yes" } else { "no" }
}
