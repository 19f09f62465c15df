// Numbers of a text in capital hexadecimal digits, as many digits as there are, and one byte that is no digit behind each.
//
// `Words` is a text and the place of its next number: `word` reads that number, `fill` fills a list with the next ones.
// A number counts modulo 2^64, and is 0 where no digit stands, as at the end of the text.
#![tactic(auto)]

ghost use Rattle.std.specs.Prelude.{◌≡◌, ◌<◌, ◌≤◌, ◌↔◌, IsTrue, length};
ghost use Rattle.words.specs.Words.{word_at, words_at, words_end};

use digits::digit;

// A text, and the place of its next number.
#[derive(Drop)]
pub struct Words<'a> {
    pub text: &'a [u8],
    pub at: usize,
    ghost inside: { at ≤ length text.now },
}

impl<'a> Words<'a> {
    // The numbers of a text from a place on.
    pub fn new(text: &'a [u8], at: usize) -> Words<'a>
        requires { at ≤ length text.now }
        ensures text { result.text.now ≡ text.entry.now }
        ensures place { result.at ≡ at }
    {
        Words { text, at }
    }

    // Whether there is text left.
    pub fn has_more(&self) -> bool
        ensures { IsTrue result ↔ (self.now.at < length self.now.text.now) }
    {
        self.at < self.text.len()
    }

    // The next number.
    pub fn word(&mut self) -> u64
        ensures text { self.new.text.now ≡ self.old.text.now }
        ensures value { result ≡ (word_at self.old.text.now self.old.at).value }
        ensures place { self.new.at ≡ (word_at self.old.text.now self.old.at).next }
        ensures forward { self.old.at < length self.old.text.now → self.old.at < self.new.at }
        ensures onward { self.old.at ≤ self.new.at }
    {
        let mut value = 0u64;
        for &c in &self.text[self.at..] {
            self.at += 1;
            let Some(d) = digit(c) else {
                break;
            };
            value = value.wrapping_mul(16).wrapping_add(u64::from(d));
        }
        value
    }

    // Fills a list with the next numbers.
    pub fn fill(&mut self, list: &mut [u64])
        ensures text { self.new.text.now ≡ self.old.text.now }
        ensures place { self.new.at ≡ words_end self.old.text.now self.old.at (length list.old) }
        ensures forward { 0 < length list.old → self.old.at < length self.old.text.now → self.old.at < self.new.at }
        ensures onward { self.old.at ≤ self.new.at }
        ensures list_after { list.new ≡ words_at self.old.text.now self.old.at (length list.old) }
    {
        for slot in list {
            *slot = self.word();
        }
    }
}
