//! The step of a call on one word, and what it finds there.
ghost use Rattle.std.specs.Prelude.{◌≡◌, ◌<◌, ◌/◌, max, length, slice_index, slice_set, if◌then◌else◌, nat_eq};
ghost use Rattle.lv_machine.specs.Calls.{place_of, sees, sees_next};
ghost use Rattle.lv_machine.specs.Layout.{cell_place, mark_place, part_place};
ghost use Rattle.lv_machine.specs.declared.moves.Move.TheVariants.{Exchange};
ghost use Rattle.lv_machine.specs.Moves.{completing, moved};
ghost use Rattle.lv_machine.specs.Words.{edit_of, index_of, part_word};
ghost use Rattle.lv_machine.specs.Ready.{CanMove, CanPack};

use crate::packing::{
    cell_place_of, edit_in, index_in, look_after, mark_place_of, pack_cell, pack_part,
    part_place_of, value_in,
};
use crate::tasks::{Parts, Task};
use lv_edits::Edit;

/// Does the next step of a call, on one word, and returns the word that it found.
pub fn take_step<S: Copy>(words: &mut [u64], look: &mut u64, task: &Task<S>) -> u64
    requires { CanMove (length words.old) look.old task.now }
    ensures found { result ≡ slice_index words.old (place_of look.old task.now) }
    ensures words { words.new ≡ (sees_next words.old look.old task.now).words }
    ensures look { look.new ≡ (sees_next words.old look.old task.now).looks 0 }
{
    match *task {
        Task::Look(_) => load(words, look),
        Task::CompleteCell(_) => complete_cell(words, *look),
        Task::CompleteMark(_) => complete_mark(words, *look),
        Task::ReadBefore { index, .. } => words[cell_place_of(index)],
        Task::Exchange { edit, .. } => exchange(words, look, edit),
        Task::ReadCell(index) => words[cell_place_of(index)],
        Task::SumCell(walk) => words[cell_place_of(walk.at)],
        Task::SumMark(walk) => words[mark_place_of(walk.at / 8)],
        Task::SumPart { walk, parts } => words[part_place_of(walk.at / 8, parts.number)],
        Task::KeepMark(block) => words[mark_place_of(block)],
        Task::KeepCell(keep) => words[cell_place_of(keep.at)],
        Task::KeepPart { block, parts } => install(words, block, parts),
    }
}

// Loads the descriptor, which becomes the look.
fn load(words: &[u64], look: &mut u64) -> u64
    requires { 0 < length words.now }
    ensures found { result ≡ slice_index words.now 0 }
    ensures look { look.new ≡ slice_index words.now 0 }
{
    *look = words[0];
    words[0]
}

// Completes the cell of the look's pending write.
fn complete_cell(words: &mut [u64], look: u64) -> u64
    requires { cell_place (index_of look) < length words.old }
    ensures found { result ≡ slice_index words.old (cell_place (index_of look)) }
    ensures raised { words.new ≡ slice_set words.old (cell_place (index_of look)) (max (slice_index words.old (cell_place (index_of look))) (completing look)) }
{
    raise(
        words,
        cell_place_of(index_in(look)),
        pack_cell(edit_in(look), value_in(look)),
    )
}

// Completes the mark of that cell's block.
fn complete_mark(words: &mut [u64], look: u64) -> u64
    requires { mark_place (index_of look / 8) < length words.old }
    ensures found { result ≡ slice_index words.old (mark_place (index_of look / 8)) }
    ensures raised { words.new ≡ slice_set words.old (mark_place (index_of look / 8)) (max (slice_index words.old (mark_place (index_of look / 8))) (edit_of look)) }
{
    raise(
        words,
        mark_place_of(index_in(look) / 8),
        u64::from(edit_in(look)),
    )
}

// Raises a part of a block.
fn install(words: &mut [u64], block: u32, parts: Parts) -> u64
    requires few { parts.number < 4 }
    requires place { part_place block parts.number < length words.old }
    ensures found { result ≡ slice_index words.old (part_place block parts.number) }
    ensures raised { words.new ≡ slice_set words.old (part_place block parts.number) (max (slice_index words.old (part_place block parts.number)) (part_word parts.version (slice_index parts.values parts.number))) }
{
    let value = parts.values[parts.number as usize];
    raise(
        words,
        part_place_of(block, parts.number),
        pack_part(parts.version, value),
    )
}

// Raises the word at a place to at least another one, and returns what was there.
fn raise(words: &mut [u64], place: usize, word: u64) -> u64
    requires { place < length words.old }
    ensures found { result ≡ slice_index words.old place }
    ensures raised { words.new ≡ slice_set words.old place (max (slice_index words.old place) word) }
{
    let found = words[place];
    words[place] = found.max(word);
    found
}

// Makes an update, if the descriptor is the look. What is there afterwards is the look.
fn exchange(words: &mut [u64], look: &mut u64, edit: Edit) -> u64
    requires words { 0 < length words.old }
    requires edit { CanPack look.old edit }
    ensures found { result ≡ slice_index words.old 0 }
    ensures words { words.new ≡ (moved (sees words.old look.old) (Exchange 0 edit)).words }
    ensures look { look.new ≡ (moved (sees words.old look.old) (Exchange 0 edit)).looks 0 }
{
    let found = words[0];
    if found == *look {
        let next = look_after(*look, edit);
        words[0] = next;
        *look = next;
    } else {
        *look = found;
    }
    found
}
