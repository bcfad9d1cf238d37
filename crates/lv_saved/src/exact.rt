//! Whether bytes are exactly those of a head, elements and times.
ghost use Rattle.std.specs.Prelude.{◌≡◌, ◌↔◌, ◌+◌, ◌*◌, ◌^◌, ◌≤◌, IsTrue, length};
ghost use Rattle.std.specs.Int.{w64, to_le_bytes};
ghost use Rattle.std.specs.List.{slice_range};
ghost use Rattle.lv_saved.specs.Saved.{numbers_by};
ghost use Rattle.lv_shards.specs.Bytes.{sealed_by, spelled};

use crate::among::{HEAD, Head, number_or_checksum};

// Whether the bytes at a place are those of a number.
fn has_number(bytes: &[u8], j: usize, number: u64) -> bool
    requires { 8 * j + 8 ≤ length bytes.now }
    ensures { IsTrue result ↔ slice_range bytes.now (8 * j) (8 * j + 8) ≡ to_le_bytes w64 number }
{
    bytes[8 * j..8 * j + 8] == number.to_le_bytes()[..]
}

/// Whether the bytes are those of these numbers and of their checksum. O(n).
pub fn are_bytes_of(head: &Head, elements: &[i64], times: &[i64], bytes: &[u8]) -> bool
    requires { length elements.now + length times.now ≤ 2 ^ 60 }
    ensures { IsTrue result ↔ bytes.now ≡ sealed_by (spelled (numbers_by head.now elements.now times.now)) }
{
    let all = HEAD + elements.len() + times.len() + 1;
    if bytes.len() != 8 * all {
        return false;
    }
    for j in 0..all {
        let number = number_or_checksum(head, elements, times, j);
        if !has_number(bytes, j, number) {
            return false;
        }
    }
    true
}
