//! The array in which a series' elements are.
ghost use Rattle.std.specs.Prelude.{◌≡◌, ◌+◌, ◌^◌, ◌<◌, ◌≤◌, ◌++◌, ◌∷◌, [], true, false, length, drop, slice_set};

/// How many elements there may be in memory.
pub const MOST: usize = 1 << 59;

/// How many elements more than twice those that are kept there may be room for.
const SPARE: usize = 64;

/// Adds an element at the end. If there is no memory, nothing has changed, and the result is false.
#[inline(always)]
pub fn add_element(elements: &mut Vec<i64>, x: i64) -> bool
    requires { length elements.old.items ≤ 2 ^ 59 }
    ensures added { result ≡ true → elements.new.items ≡ elements.old.items ++ x ∷ [] }
    ensures few { length elements.new.items ≤ 2 ^ 59 }
    ensures same { result ≡ false → elements.new.items ≡ elements.old.items }
{
    elements.len() < MOST && elements.push(x).is_ok()
}

/// Overwrites the element at a place.
#[inline(always)]
pub fn set_element(elements: &mut Vec<i64>, at: usize, x: i64)
    requires { at < length elements.old.items }
    ensures { elements.new.items ≡ slice_set elements.old.items at x }
{
    elements[at] = x;
}

// Removes elements at the front: the others move there.
fn remove_front(elements: &mut Vec<i64>, count: usize)
    requires { count ≤ length elements.old.items }
    ensures { elements.new.items ≡ drop count elements.old.items }
{
    let left = elements.len() - count;
    elements.as_mut_slice().copy_within(count.., 0);
    elements.truncate(left);
}

/// Whether the memory of an array is more than twice what its elements need, if `gone` of them are not kept any more.
#[inline(always)]
pub fn is_wide(elements: &Vec<i64>, gone: usize) -> bool
    requires { gone ≤ length elements.now.items }
{
    let kept = elements.len() - gone;
    elements.capacity() > kept.saturating_mul(2).saturating_add(SPARE)
}

// Gives memory back until there is room for half as many elements again as there are.
fn shrink(elements: &mut Vec<i64>)
    ensures { elements.new.items ≡ elements.old.items }
{
    let wanted = elements.len() + elements.len() / 2;
    elements.shrink_to(wanted);
}

/// Removes elements at the front, and gives memory back if `wide` says that there is too much of it.
pub fn remove_and_shrink(elements: &mut Vec<i64>, count: usize, wide: bool)
    requires { count ≤ length elements.old.items }
    ensures { elements.new.items ≡ drop count elements.old.items }
{
    remove_front(elements, count);
    if wide {
        shrink(elements);
    }
}
