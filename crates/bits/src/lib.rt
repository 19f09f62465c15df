// Masks and their digits: the laws that every layer cites, and the numbers that a mask holds, one by one.
#![tactic(auto)]

ghost use Rattle.std.specs.Iterator.{at_most};
ghost use Rattle.bits.specs.Members.{Turn};

// The numbers that a mask holds, lowest first.
#[derive(Drop)]
pub struct Members(pub u64);

impl Iterator for Members {
    type Item = usize;

    ghost next_gives = { λ s r t. Turn s.0 r t.0 };

    ghost remaining = { λ s. at_most s.0 };

    #[inline]
    fn next(&mut self) -> Option<usize> {
        if self.0 == 0 {
            return None;
        }
        let k = self.0.trailing_zeros() as usize;
        self.0 &= self.0 - 1;
        Some(k)
    }
}
