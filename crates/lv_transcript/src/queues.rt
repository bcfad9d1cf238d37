//! Answers that are taken one after the other, from several lists at once.
ghost use Rattle.std.specs.Prelude.{◌≡◌, [], ◌∷◌, ◌++◌, List, MatchOption, length};
ghost use Rattle.lv_transcript.specs.declared.claimed.Claimed.{Claimed};
ghost use Rattle.lv_transcript.specs.LeastFirst.{BeginsAt, FindsLeast};
ghost use Rattle.lv_transcript.specs.Joined.{in_a_row, joined};
ghost use Rattle.lv_transcript.specs.Transcript.{AreInOrder};

use crate::claimed::Claimed;
use std::marker::Model;

/// Answers in rising order of their edits, which are taken one after the other.
#[derive(Drop)]
pub struct Queue {
    answers: Vec<Claimed>,
    // How many of them were taken.
    taken: usize,
}

impl Model for Queue {
    ghost use Rattle.std.specs.Prelude.{List, drop};
    ghost use Rattle.lv_transcript.specs.declared.claimed.Claimed.{Claimed};
    ghost use Rattle.lv_transcript.specs.Transcript.{AreInOrder};

    ghost Value = { List Claimed };

    ghost view = { λ q. drop q.taken q.answers.items };

    ghost invariant = { λ q. AreInOrder q.answers.items };
}

impl Queue {
    /// All of some answers. Takes no memory.
    pub fn new(answers: Vec<Claimed>) -> Queue
        requires order { AreInOrder answers.items }
        ensures { result ≡ answers.items }
    {
        Queue { answers, taken: 0 }
    }

    // The edit of the first answer, which none is below.
    fn first_edit(&self) -> Option<u32>
        ensures { MatchOption result (self.now ≡ []) (λ edit. BeginsAt edit self.now) }
    {
        match self.answers.as_slice().get(self.taken) {
            Some(answer) => Some(answer.edit),
            None => None,
        }
    }

    // Takes the first answer.
    fn take_first(&mut self) -> Option<Claimed>
        ensures { MatchOption result (self.old ≡ []) (λ answer. self.old ≡ answer ∷ self.new) }
    {
        match self.answers.as_slice().get(self.taken) {
            Some(answer) => {
                self.taken += 1;
                Some(*answer)
            }
            None => None,
        }
    }
}

/// Takes the answer with the least version. If several queues have one, it is that of the first of them.
pub(crate) fn take_least(queues: &mut Vec<Queue>) -> Option<Claimed>
    ensures { MatchOption result (in_a_row queues.old.items ≡ []) (λ answer. joined queues.old.items ≡ answer ∷ joined queues.new.items) }
{
    match least(queues.as_slice()) {
        Some((index, _)) => queues[index].take_first(),
        None => None,
    }
}

// The index of the queue whose first answer has the least version, and that version.
fn least(queues: &[Queue]) -> Option<(usize, u32)>
    ensures { FindsLeast queues.now result }
{
    let mut found = None;
    for (index, queue) in queues.iter().enumerate() {
        found = lesser(found, index, queue);
    }
    found
}

// The queue with the least version among those before and one queue more, given that among those before.
fn lesser(found: Option<(usize, u32)>, index: usize, queue: &Queue) -> Option<(usize, u32)>
    ensures { (lists : List (List Claimed)) → length lists ≡ index → FindsLeast lists found → FindsLeast (lists ++ queue.now ∷ []) result }
{
    let Some(edit) = queue.first_edit() else {
        return found;
    };
    let Some((_, least)) = found else {
        return Some((index, edit));
    };
    if least <= edit {
        return found;
    }
    Some((index, edit))
}
