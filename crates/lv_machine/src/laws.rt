//! Laws of all reachable states, as functions that do nothing.
ghost use Rattle.std.specs.Prelude.{◌≡◌, List, length, take};
ghost use Rattle.lv_machine.specs.declared.entries.Entry.{Entry};
ghost use Rattle.lv_machine.specs.History.{edits_of, Ends};
ghost use Rattle.lv_machine.specs.Moves.{DescriptorsTellEdits, ReachableShows};

/// The words of every state that allowed steps reach show its history: the descriptor, each cell and mark, and each part.
pub fn reachable_words_show_history()
    ensures { ReachableShows }
{}

/// The update between two successive descriptors is determined by these descriptors.
pub fn descriptors_tell_the_edit()
    ensures { DescriptorsTellEdits }
{}

/// The updates of an earlier history are the first of those of a later one.
pub fn earlier_edits_come_first()
    ensures { (k : List Entry) (h : List Entry) → Ends k h → edits_of k ≡ take (length k) (edits_of h) }
{}
