// Lists of numbers as bytes, 8 a number, most significant first: how the C entry takes its lists and gives the flows back.
//
// `read_lists` fills two lists of numbers out of bytes, `write_numbers` writes one out, and `write_zeros` a list of zeros;
// what is behind the written bytes stays as it was.
#![tactic(auto)]

ghost use Rattle.std.specs.Prelude.{◌≡◌, ◌++◌, ◌*◌, ◌≤◌, length, drop, replicate};
ghost use Rattle.lists.specs.Numbers.{numbers, all_bytes, Readable};

use codec::{number_at, put_number};

// Fills a list with the first numbers of a list of bytes.
#[tactic(auto, using(crate::proofs::ReadLaws::read_turn), unfolding(crate::specs::Numbers::numbers))]
fn read_numbers(bytes: &[u8], list: &mut [u64])
    requires { 8 * length list.old ≤ length bytes.now }
    ensures { list.new ≡ numbers (length list.old) bytes.now }
{
    for (i, number) in list.iter_mut().enumerate() {
        *number = number_at(bytes, 8 * i);
    }
}

// Fills two lists of one length with the first numbers of two lists of bytes.
pub fn read_lists(rows: &[u8], costs: &[u8], row_list: &mut [u64], cost_list: &mut [u64])
    requires { Readable rows.now costs.now row_list.old cost_list.old }
    ensures row_list_after { row_list.new ≡ numbers (length row_list.old) rows.now }
    ensures cost_list_after { cost_list.new ≡ numbers (length cost_list.old) costs.now }
{
    read_numbers(rows, row_list);
    read_numbers(costs, cost_list);
}

// Writes the bytes of so many zeros at the front of a list of bytes.
pub fn write_zeros(count: usize, bytes: &mut [u8])
    requires { 8 * count ≤ length bytes.old }
    ensures { bytes.new ≡ all_bytes (replicate count 0) ++ drop (8 * count) bytes.old }
{
    bytes[..8 * count].fill(0);
}

// Writes the bytes of a list of numbers at the front of a list of bytes.
#[tactic(auto, using(crate::proofs::WriteLaws::write_turn), unfolding(crate::specs::Numbers::all_bytes))]
pub fn write_numbers(list: &[u64], bytes: &mut [u8])
    requires { 8 * length list.now ≤ length bytes.old }
    ensures { bytes.new ≡ all_bytes list.now ++ drop (8 * length list.now) bytes.old }
{
    for (i, &number) in list.iter().enumerate() {
        put_number(bytes, 8 * i, 8, number);
    }
}
