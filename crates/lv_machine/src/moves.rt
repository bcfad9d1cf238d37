//! The atomic steps, each with the actor that makes it.
use lv_edits::Edit;

/// One atomic step on one word, by the actor with a number. No value of this type is made: definitions and clauses name steps by it.
pub enum Move {
    /// Loads the descriptor. The look becomes what was loaded.
    Look(u32),
    /// Compare-and-swap of the descriptor from the look to the next one, for an update. What is there then becomes the look.
    Exchange {
        actor: u32,
        edit: Edit,
    },
    /// Raises the cell of the look's pending write to that write.
    HelpCell(u32),
    /// Raises the mark of that cell's block to the number of the write.
    HelpMark(u32),
    /// Raises a part of a block to a word.
    Install {
        actor: u32,
        block: u32,
        part: u32,
        word: u64,
    },
    /// Loads a cell, a mark or a part. The split and the join of a seat count as this step, too.
    Read(u32),
}
