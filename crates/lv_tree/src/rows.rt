//! Rows of sums before each group of leaves.
ghost use Rattle.std.specs.Prelude.{◌≡◌, ℕ, ◌+◌, ◌-◌, ◌*◌, ◌/◌, ◌%◌, ◌^◌, ◌<◌, ◌≤◌, List, length, take, map, slice_index, slice_set, if◌then◌else◌, IfSome};
ghost use Rattle.lv_tree.specs.Rows.{AreAdded, AreAsLong, AreSums, HaveRoom, IsAdded, row_of, sum_between};

use std::alloc::Global;

// A number if it is wanted, else 0: it takes no branch.
#[inline(always)]
fn where_wanted(is_wanted: bool, number: u64) -> u64
    ensures { result ≡ (if is_wanted then number else 0) }
{
    if is_wanted { number } else { 0 }
}

// Adds a number to those behind a place among its eight. It goes over all eight, since how many are behind can't be foreseen.
#[inline(always)]
fn add_behind(row: &mut Vec<u64>, place: usize, more: u64)
    requires { place / 8 * 8 + 8 ≤ length row.old.items }
    ensures { IsAdded place more row.old.items row.new.items }
{
    let first = place / 8 * 8;
    for k in first..first + 8 {
        row[k] = row[k].wrapping_add(where_wanted(place < k, more));
    }
}

// Adds a number in each row to those behind the group of a leaf.
pub fn add_in(rows: &mut Vec<Vec<u64>>, leaf: usize, more: u64)
    requires { HaveRoom leaf (map (λ r. r.items) rows.old.items) }
    ensures { AreAdded leaf more (map (λ r. r.items) rows.old.items) (map (λ r. r.items) rows.new.items) }
{
    let mut place = leaf;
    for l in 0..rows.len() {
        add_behind(&mut rows[l], place, more);
        place /= 8;
    }
}

// Puts a number at a place.
fn put(row: &mut Vec<u64>, place: usize, number: u64)
    requires { place < length row.old.items }
    ensures { row.new.items ≡ slice_set row.old.items place number }
{
    row[place] = number;
}

// Takes in the last leaf: if it is the last one of a group, the group behind that gets its number.
pub fn take_in(rows: &mut Vec<Vec<u64>>, leaves: &Vec<u64>)
    requires some { 0 < length leaves.now.items }
    requires room { HaveRoom (length leaves.now.items) (map (λ r. r.items) rows.old.items) }
    requires sums { AreSums (take (length leaves.now.items - 1) leaves.now.items) (map (λ r. r.items) rows.old.items) }
    ensures sums { AreSums leaves.now.items (map (λ r. r.items) rows.new.items) }
    ensures long { AreAsLong (map (λ r. r.items) rows.old.items) (map (λ r. r.items) rows.new.items) }
{
    let mut place = leaves.len() - 1;
    let mut sum = leaves[place];
    for l in 0..rows.len() {
        sum = rows[l][place].wrapping_add(sum);
        if place % 8 < 7 {
            put(&mut rows[l], place + 1, sum);
            return;
        }
        put(&mut rows[l], place + 1, 0);
        place /= 8;
    }
}

// The sum of the leaves before a place: a number a row.
pub fn sum_before(rows: &Vec<Vec<u64>>, end: usize) -> u64
    requires { HaveRoom end (map (λ r. r.items) rows.now.items) }
    ensures { (leaves : List ℕ) → end ≤ length leaves → AreSums leaves (map (λ r. r.items) rows.now.items) → result ≡ sum_between leaves 0 end }
{
    let mut place = end;
    let mut sum = 0u64;
    for l in 0..rows.len() {
        sum = rows[l][place].wrapping_add(sum);
        place /= 8;
    }
    sum
}

// The numbers of a row, or none if the row is missing.
fn numbers(rows: &Vec<Vec<u64>>, l: usize) -> &[u64]
    ensures { result.now ≡ row_of (map (λ r. r.items) rows.now.items) l }
{
    if l < rows.len() {
        return rows[l].as_slice();
    }
    &[]
}

// A copy of some numbers, with 0 behind them up to a size.
fn longer(alloc: Global, numbers: &[u64], size: usize) -> Option<Vec<u64>>
    ensures size { IfSome result (λ more. size ≤ length more.items) }
    ensures same { IfSome result (λ more. (m : ℕ) → slice_index more.items m ≡ slice_index numbers.now m) }
{
    let mut more = Vec::with_capacity(alloc, size).ok()?;
    more.extend_from_slice(numbers).ok()?;
    more.resize(size.max(numbers.len()), 0).ok()?;
    Some(more)
}

// A copy of some rows, with room for so many leaves.
pub fn larger_rows(rows: &Vec<Vec<u64>>, room: usize) -> Option<Vec<Vec<u64>>>
    requires few { room ≤ 2 ^ 62 }
    ensures room { IfSome result (λ more. HaveRoom room (map (λ r. r.items) more.items)) }
    ensures same { IfSome result (λ more. (l m : ℕ) → l < length more.items → slice_index (row_of (map (λ r. r.items) more.items) l) m ≡ slice_index (row_of (map (λ r. r.items) rows.now.items) l) m) }
{
    let alloc = *rows.allocator();
    let mut more = Vec::new(alloc);
    let mut groups = room;
    'up: while groups > 0 {
        let row = longer(alloc, numbers(rows, more.len()), groups / 8 * 8 + 8)?;
        let Ok(()) = more.push(row) else {
            return None;
        };
        groups /= 8;
    }
    Some(more)
}
