// Bytes from a reader into a list, however they come in pieces.
#![tactic(auto)]

ghost use Rattle.std.specs.Prelude.{◌≤◌, length, take};
ghost use Rattle.std.specs.Io.KnownBytes.{Consumes};

use std::io::Read;

// Fills a list from its front on, until it is full or no more bytes come, and gives how many came. A failed read counts as the end.
pub fn read_full<R: Read>(reader: &mut R, list: &mut [u8]) -> usize
    ensures bound { result ≤ length list.new }
    ensures bytes { Consumes (R.remaining reader.old) (R.remaining reader.new) (take result list.new) }
{
    let mut done = 0;
    while done < list.len() {
        match reader.read(&mut list[done..]) {
            Ok(0) => return done,
            Ok(n) => done += n,
            Err(_) => return done,
        }
    }
    done
}
