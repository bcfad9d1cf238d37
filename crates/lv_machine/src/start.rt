//! The words of a vector with no updates.
ghost use Rattle.std.specs.Prelude.{◌≡◌, ◌*◌, [], ◌∷◌, replicate, IfOk};
ghost use Rattle.lv_machine.specs.History.{descriptor_of};

use std::alloc::{AllocError, Global};

/// The descriptor before the first update.
#[tactic(auto, unfolding(crate::specs::History::descriptor_of, crate::specs::Words::descriptor))]
pub fn first_descriptor() -> u64
    ensures { result ≡ descriptor_of [] }
{
    0x0fff_0000
}

/// The words for this many elements: the descriptor, and a zero for each cell, part and mark.
pub fn first_words(alloc: Global, capacity: u32) -> Result<Vec<u64>, AllocError>
    ensures { IfOk result (λ words. words.items ≡ descriptor_of [] ∷ replicate (2 * capacity) 0) }
{
    let mut words = vec![in alloc; 0u64; 1 + 2 * capacity as usize]?;
    words[0] = first_descriptor();
    Ok(words)
}
