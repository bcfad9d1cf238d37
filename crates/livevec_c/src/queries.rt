//! A set of standing queries.
ghost use Rattle.std.specs.Prelude.{◌≡◌, ◌<◌, [], None, IfErr, IfSome, OnErr, OnOk};
ghost use Rattle.lv_edits.specs.Verdict.{IsRefusal};
ghost use Rattle.livevec_c.specs.Queried.{ForgetsAt, Tells, TellsUnless, first_refused, found_at};
ghost use Rattle.livevec_c.specs.Queries.{place_of, question_refusal, with_question};

use crate::queries_notes::{Note, Noted, not_noted, note_all};
use crate::results::{BAD_KIND, SHORT_BUFFER};
use crate::set_queries::SetQuery;
use crate::targets::Target;
use lv_bodies::{Kind, Name};
use lv_geometry::Refusal;
use lv_standing::QuerySet;
use std::alloc::Global;
use std::marker::Model;

// How many queries a set has at most.
const MOST: usize = 64;

// The number for a name that no question has, as the library has it.
const NO_SUCH_NAME: u32 = 11;

/// Queries by name, in the order in which they were named, and the answer of each that was reported last. Before the first report of a question,
/// its answer of no elements counts as reported. Contracts don't see answers that weren't reported.
#[derive(Drop)]
pub struct Queries {
    set: QuerySet<SetQuery>,
}

impl Model for Queries {
    ghost use Rattle.std.specs.Prelude.{◌≡◌};
    ghost use Rattle.livevec_c.specs.Queries.{QueriesState};

    ghost Value = { QueriesState };

    ghost view = { λ s. record { questions = s.set.queries; told = s.set.told } };

    ghost invariant = { λ s. s.set.most ≡ 64 };
}

impl Queries {
    /// A set without questions. Takes no memory.
    pub fn new(alloc: Global) -> Queries
        ensures { result ≡ record { questions = []; told = [] } }
    {
        Queries {
            set: QuerySet::new(alloc, MOST),
        }
    }

    /// Registers a question. Refused with `BadRange`, `NameTaken`, `TooMany`, then `NoMemory`, and nothing has changed then.
    pub fn watch(&mut self, question: &SetQuery) -> Result<(), Refusal>
        ensures ok { OnOk result ((question_refusal self.old.questions question.now ≡ None) × (self.new ≡ with_question self.old question.now)) }
        ensures err { IfErr result (λ refusal. IsRefusal (question_refusal self.old.questions question.now) refusal) }
        ensures unchanged { OnErr result (self.new ≡ self.old) }
    {
        self.set.watch(question, question.untold())
    }

    /// Forgets the question of a name; the others keep their order.
    pub fn unwatch(&mut self, name: &Name) -> u32
        ensures { ForgetsAt (place_of self.old.questions name.now) result self.old self.new }
    {
        match self.set.place(name) {
            None => NO_SUCH_NAME,
            Some(place) => {
                self.set.forget(place);
                0
            }
        }
    }

    /// The question of a name.
    pub fn find(&self, name: &Name) -> Result<SetQuery, u32>
        ensures { result ≡ found_at (place_of self.now.questions name.now) self.now.questions }
    {
        match self.set.place(name) {
            None => Err(NO_SUCH_NAME),
            Some(place) => Ok(self.set.queries()[place]),
        }
    }

    /// Its questions, in the order in which they were named.
    pub fn questions(&self) -> &[SetQuery]
        ensures { result.now ≡ self.now.questions }
    {
        self.set.queries()
    }

    // The first question, if there is one, that may not be asked of something that is of one kind or of all six, and has times or not.
    fn first_refused(&self, only: Option<Kind>, timed: bool) -> Option<usize>
        ensures place { result ≡ first_refused only timed self.now.questions }
        ensures few { IfSome result (λ place. place < 64) }
    {
        let mut questions = self.set.queries().iter();
        questions.position(|q| !q.may_be_asked(only, timed))
    }

    // Reports each question, in order, for whose answer a note is due, if there is room for all notes.
    fn tell<A: Target>(&mut self, asked: &mut A, notes: &mut [Note]) -> Noted
        ensures told { Tells self.old self.new (A.seen asked.old) notes.old notes.new result }
        ensures same { asked.new ≡ asked.old }
    {
        self.set.ask(asked);
        let (questions, told, answers) = (self.set.queries(), self.set.told(), self.set.answers());
        let count = note_all(asked, questions, told, answers, &mut []);
        if notes.len() < count {
            return not_noted(SHORT_BUFFER, count as u32);
        }
        note_all(asked, questions, told, answers, notes);
        self.set.mark_told();
        let edit = asked.edits();
        Noted {
            refusal: 0,
            detail: 0,
            edit,
            count: count as u32,
        }
    }

    /// Reports each question for whose answer a note is due, if all questions may be asked: of something that is of one kind or of all six, and has
    /// times or not.
    pub fn tell_asked<A: Target>(
        &mut self,
        asked: &mut A,
        only: Option<Kind>,
        timed: bool,
        notes: &mut [Note],
    ) -> Noted
        ensures told { TellsUnless (first_refused only timed self.old.questions) self.old self.new (A.seen asked.old) notes.old notes.new result }
        ensures same { asked.new ≡ asked.old }
    {
        match self.first_refused(only, timed) {
            Some(place) => not_noted(BAD_KIND, place as u32),
            None => self.tell(asked, notes),
        }
    }
}
