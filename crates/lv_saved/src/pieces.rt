//! Pieces of the bytes: numbers into a buffer, one after another.
ghost use Rattle.std.specs.Prelude.{◌≡◌, ◌+◌, ◌*◌, ◌%◌, ◌^◌, ◌≤◌, ◌++◌, drop, length};
ghost use Rattle.std.specs.List.{slice_range};
ghost use Rattle.lv_saved.specs.Saved.{IsPiece, numbers_by, with_checksum};
ghost use Rattle.lv_shards.specs.Bytes.{sealed_by, spelled};

use crate::among::{HEAD, Head, number_or_checksum};

// Puts the bytes of `count` numbers, from the number `first` on, at the start of a buffer.
fn fill(head: &Head, elements: &[i64], times: &[i64], first: usize, count: usize, into: &mut [u8])
    requires few { length elements.now + length times.now ≤ 2 ^ 60 }
    requires inside { first + count ≤ 11 + length elements.now + length times.now }
    requires room { 8 * count ≤ length into.old }
    ensures { into.new ≡ spelled (slice_range (with_checksum (numbers_by head.now elements.now times.now)) first (first + count)) ++ drop (8 * count) into.old }
{
    for k in 0..count {
        let number = number_or_checksum(head, elements, times, first + k);
        into[8 * k..8 * k + 8].copy_from_slice(&number.to_le_bytes());
    }
}

/// Writes the bytes from a place on, as many as fit into a buffer in whole numbers, and returns how many these are. O(1) for each number, and O(n)
/// more in the piece that has the checksum.
pub fn write_piece(
    head: &Head,
    elements: &[i64],
    times: &[i64],
    from: u64,
    into: &mut [u8],
) -> usize
    requires few { length elements.now + length times.now ≤ 2 ^ 60 }
    requires whole { from % 8 ≡ 0 }
    ensures { IsPiece (sealed_by (spelled (numbers_by head.now elements.now times.now))) from into.old result into.new }
{
    let all = HEAD + elements.len() + times.len() + 1;
    let first = (from / 8).min(all as u64) as usize;
    let count = (into.len() / 8).min(all - first);
    fill(head, elements, times, first, count, into);
    8 * count
}
