//! How words are read and made, and their places.
#![tactic(auto, unfolding(crate::specs::Layout::place, crate::specs::Words::bits_of, crate::specs::Words::cell_version, crate::specs::Words::cell_word, crate::specs::Words::descriptor, crate::specs::Words::edit_of, crate::specs::Words::index_of, crate::specs::Words::part_value, crate::specs::Words::part_version, crate::specs::Words::part_word, crate::specs::Words::signed, crate::specs::Words::size_of, crate::specs::Words::value_of))]

ghost use Rattle.std.specs.Prelude.{◌≡◌, ◌+◌, ◌*◌, ◌<◌};
ghost use Rattle.lv_machine.specs.Layout.{cell_place, mark_place, part_place};
ghost use Rattle.lv_bodies.specs.Parts.{IsShort};
ghost use Rattle.lv_machine.specs.Calls.{is_short};
ghost use Rattle.lv_machine.specs.Ready.{CanPack};
ghost use Rattle.lv_machine.specs.Words.{bits_of, cell_version, cell_word, descriptor, descriptor_after, edit_of, index_of, part_value, part_version, part_word, signed, size_of, value_of};

use lv_edits::Edit;

// The index of a descriptor that has no write pending.
const NO_INDEX: u32 = 4095;

/// The number of the last update, of a descriptor.
#[inline(always)]
pub fn edit_in(word: u64) -> u32
    ensures value { result ≡ edit_of word }
    ensures bound { result < 16777216 }
{
    (word >> 40) as u32
}

/// How many elements there are, of a descriptor.
#[inline(always)]
pub fn size_in(word: u64) -> u32
    ensures value { result ≡ size_of word }
    ensures bound { result < 4096 }
{
    ((word >> 28) % 4096) as u32
}

/// The index of the pending write of a descriptor, or 4095 if there is none.
#[inline(always)]
pub fn index_in(word: u64) -> u32
    ensures value { result ≡ index_of word }
    ensures bound { result < 4096 }
{
    ((word >> 16) % 4096) as u32
}

/// The lowest 16 bits: the value of a cell, or of the pending write of a descriptor.
#[inline(always)]
pub fn value_in(word: u64) -> u16
    ensures { result ≡ value_of word }
{
    (word % 65536) as u16
}

/// The number of the update that wrote a cell.
#[inline(always)]
pub fn version_in(cell: u64) -> u64
    ensures { result ≡ cell_version cell }
{
    cell >> 16
}

/// The version of a part.
#[inline(always)]
pub fn part_version_in(part: u64) -> u64
    ensures { result ≡ part_version part }
{
    part >> 32
}

/// The 32 bits of a part.
#[inline(always)]
pub fn part_value_in(part: u64) -> u32
    ensures { result ≡ part_value part }
{
    (part % (1 << 32)) as u32
}

/// A descriptor.
#[inline(always)]
pub fn pack(edit: u32, size: u32, index: u32, value: u16) -> u64
    requires edit { edit < 16777216 }
    requires size { size < 4096 }
    requires index { index < 4096 }
    ensures { result ≡ descriptor edit size index value }
{
    u64::from(edit) * (1 << 40)
        + u64::from(size) * (1 << 28)
        + u64::from(index) * (1 << 16)
        + u64::from(value)
}

/// A cell that an update wrote.
#[inline(always)]
pub fn pack_cell(version: u32, value: u16) -> u64
    ensures { result ≡ cell_word version value }
{
    u64::from(version) * (1 << 16) + u64::from(value)
}

/// A part of a block's aggregate.
#[inline(always)]
pub fn pack_part(version: u32, value: u32) -> u64
    ensures { result ≡ part_word version value }
{
    u64::from(version) * (1 << 32) + u64::from(value)
}

// The place of a word of a block.
#[inline(always)]
fn place_in(block: u32, offset: u32) -> usize
    requires { offset < 16 }
    ensures { result ≡ 1 + 16 * block + offset }
{
    1 + 16 * block as usize + offset as usize
}

/// The place of a cell.
#[inline(always)]
pub fn cell_place_of(index: u32) -> usize
    ensures { result ≡ cell_place index }
{
    place_in(index / 8, index % 8)
}

/// The place of a block's mark.
#[inline(always)]
pub fn mark_place_of(block: u32) -> usize
    ensures { result ≡ mark_place block }
{
    place_in(block, 8)
}

/// The place of a part of a block's aggregate.
#[inline(always)]
pub fn part_place_of(block: u32, number: u32) -> usize
    requires { number < 4 }
    ensures { result ≡ part_place block number }
{
    place_in(block, 9 + number)
}

/// Whether an element fits 16 bits.
#[inline(always)]
pub fn fits_short(x: i64) -> bool
    ensures { result ≡ is_short x }
{
    x >= -32768 && x <= 32767
}

/// The element that 16 bits represent.
#[inline(always)]
pub fn element(bits: u16) -> i64
    ensures value { result ≡ signed bits }
    ensures short { IsShort result }
{
    i64::from(bits.cast_signed())
}

// The 16 bits of an element.
#[inline(always)]
fn bits_in(x: i64) -> u16
    requires { IsShort x }
    ensures { result ≡ bits_of x }
{
    (x.cast_unsigned() % 65536) as u16
}

/// The descriptor after an update of another descriptor. The lock-free form has no reserve, no swap and no truncate.
#[inline(always)]
pub fn look_after(look: u64, edit: Edit) -> u64
    requires { CanPack look edit }
    ensures { result ≡ descriptor_after look edit }
{
    let number = edit_in(look) + 1;
    let size = size_in(look);
    match edit {
        Edit::Push(x) => pack(number, size + 1, size, bits_in(x)),
        Edit::Pop => pack(number, size.saturating_sub(1), NO_INDEX, 0),
        Edit::Write { index, value } => pack(number, size, index, bits_in(value)),
        Edit::Reserve(_) | Edit::Swap { .. } | Edit::Truncate(_) => look,
    }
}
