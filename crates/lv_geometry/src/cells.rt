//! The place of an index in the buckets, and how many cells a number of buckets hold.
ghost use Rattle.std.specs.Prelude.{◌≡◌, ◌+◌, ◌*◌, ◌^◌, ◌<◌, ◌≤◌};
ghost use Rattle.lv_geometry.specs.Cells.{capacity_of, index_of, IsCell, IsPlaceOf, AreFewest};

use crate::places::Place;

/// The place of index `i`, in constant time: the bucket is found by counting bits.
pub fn place(i: u32) -> Place
    requires { i < 1048568 }
    ensures highest_bit { IsPlaceOf i result }
    ensures cell { IsCell result }
    ensures bucket { result.bucket ≤ 16 }
    ensures back { index_of result ≡ i }
    ensures only { (other : Place) → IsCell other → index_of other ≡ i → other ≡ result }
{
    let position = i + 8;
    let highest = position.ilog2();
    Place {
        bucket: highest - 3,
        cell: position - (1 << highest),
    }
}

/// The index that is stored at a place. It is the inverse of `place`.
pub fn index(place: Place) -> u32
    requires bucket { place.bucket ≤ 16 }
    requires cell { IsCell place }
    ensures value { result ≡ index_of place }
    ensures highest_bit { IsPlaceOf result place }
    ensures bound { result < 1048568 }
{
    capacity(place.bucket) + place.cell
}

/// How many cells `k` open buckets hold.
pub fn capacity(k: u32) -> u32
    requires { k ≤ 17 }
    ensures value { result ≡ capacity_of k }
    ensures bound { result ≤ 1048568 }
{
    8 * ((1 << k) - 1)
}

/// The least number of buckets that hold `n` cells.
pub fn buckets_for(n: u32) -> u32
    requires { n ≤ 1048568 }
    ensures fewest { AreFewest n result }
    ensures bound { result ≤ 17 }
{
    if n == 0 {
        return 0;
    }
    place(n - 1).bucket + 1
}
