//! The numbers by which a series is written: those of its head, its elements, and times if there are any.
ghost use Rattle.std.specs.Prelude.{◌≡◌, ◌+◌, ◌<◌, ◌≤◌, ◌^◌, length, slice_index};
ghost use Rattle.lv_saved.specs.Saved.{numbers_by, with_checksum};
ghost use Rattle.lv_shards.specs.Bytes.{checksum_of, spelled};

use lv_shards::{CHECKSUM_OF_NONE, checksum_more};

/// How many numbers there are before the elements.
pub const HEAD: usize = 10;

/// The numbers before the elements.
pub type Head = [u64; HEAD];

/// The number at a place, without the checksum.
#[inline(always)]
pub fn number_among(head: &Head, elements: &[i64], times: &[i64], j: usize) -> u64
    requires { j < 10 + length elements.now + length times.now }
    ensures { result ≡ slice_index (numbers_by head.now elements.now times.now) j }
{
    if j < HEAD {
        return head[j];
    }
    let k = j - HEAD;
    if k < elements.len() {
        return elements[k].cast_unsigned();
    }
    times[k - elements.len()].cast_unsigned()
}

/// The checksum of the bytes of all numbers. O(n).
pub fn checksum_among(head: &Head, elements: &[i64], times: &[i64]) -> u64
    requires { length elements.now + length times.now ≤ 2 ^ 60 }
    ensures { result ≡ checksum_of (spelled (numbers_by head.now elements.now times.now)) }
{
    let mut hash = CHECKSUM_OF_NONE;
    for j in 0..HEAD + elements.len() + times.len() {
        let number = number_among(head, elements, times, j);
        hash = checksum_more(hash, &number.to_le_bytes());
    }
    hash
}

/// The number at a place; the checksum comes after the others.
#[inline(always)]
pub fn number_or_checksum(head: &Head, elements: &[i64], times: &[i64], j: usize) -> u64
    requires few { length elements.now + length times.now ≤ 2 ^ 60 }
    requires inside { j ≤ 10 + length elements.now + length times.now }
    ensures { result ≡ slice_index (with_checksum (numbers_by head.now elements.now times.now)) j }
{
    if j < HEAD + elements.len() + times.len() {
        number_among(head, elements, times, j)
    } else {
        checksum_among(head, elements, times)
    }
}
