//! Sessions on a hub: lines that are read, and replies that are written.
ghost use Rattle.std.specs.Prelude.{◌≡◌, ◌+◌, ◌≤◌, ◌++◌, ℕ, All, List, [], Ok, Err, MatchResult, OnOk, OnErr, IfOk, IfErr, vec_len, vec_capacity};
ghost use mathlib.Core.List.{IsPrefix};
ghost use Rattle.lv_edits.specs.declared.edit.Edit.{Edit};
ghost use Rattle.lv_lines.specs.Replies.{LinesServed};
ghost use Rattle.lv_transcript.specs.declared.claimed.Claimed.{Claimed};
ghost use Rattle.lv_transcript.specs.Transcript.{AreInOrder, IsTrueAnswer};
ghost use Rattle.std.specs.List.Sorted.{IsPermutation};
ghost use Rattle.lv_hub.specs.Counting.{ShareState};
ghost use Rattle.lv_hub.specs.PlainSession.{PlainSessionStep, seen_by};
ghost use Rattle.lv_hub.specs.Replying.{TellsLine};
ghost use Rattle.lv_hub.specs.Session.{KeepTies, HeldSession, SessionState, SessionStep, most_listed, session_at};

use crate::replying::{SessionPlace, answer_line, make_room};
use crate::session_logs::SessionLog;
use crate::shares::Share;
use lv_bodies::Six;
use lv_history::WithBody;
use lv_script::{Claimed, Fault, LineHandler, MOST_READ, ReplyBuffer, read_line, serve_lines};
use std::alloc::AllocError;
use std::io::{Read, Write};
use std::marker::{Brand, Model, PhantomData};
use std::mem;
use std::sync::Wait;

/// Answers the lines of a session on a hub: pushes, pops, writes, reserves, swaps, truncates, reductions and scans, as a script does. Every other
/// line that isn't empty is bad. Replies have the numbering of the place. If the place lists reductions, the session lists each one that was
/// answered, in order, up to the place's maximum. A reduction that finds no room in the list is refused with `NoMemory`. What the session does is
/// recorded by the log before a reply to it is sent. If that fails, the fault is `WriteFault`, and nothing more is sent.
///
/// The share counts the updates that were accepted, and sees the hub's updates up to each answer. Ends with the faults of a script. Updates that
/// were accepted before a fault stay, and stay counted.
pub fn run_session<N: WithBody<Six>, T: Wait, L: SessionLog<N>, R: Read, W: Write>(
    place: SessionPlace<'_, N, T>,
    log: &L,
    share: &mut Share<N>,
    reader: &mut R,
    writer: &mut W,
) -> Result<Vec<Claimed>, Fault>
    ensures lines_served { (last : SessionState)
        × LinesServed (SessionStep N.limits N.numbers N.lists) (session_at share.old []) last
        (R.remaining reader.old) (R.remaining reader.new) (W.contents writer.old) (W.contents writer.new) result
        × (share.new.count ≡ last.count)
        × (share.new.seen ≡ last.seen)
        × IfOk result (λ answers. answers.items ≡ last.answers) }
    // Line by line the replies are those of the reference model, each after some updates of the hub.
    ensures plain { LinesServed (PlainSessionStep N.limits N.numbers) (seen_by share.old) (seen_by share.new)
        (R.remaining reader.old) (R.remaining reader.new) (W.contents writer.old) (W.contents writer.new) result }
    // All updates that it has seen are recorded, and all entries up to its last answer.
    ensures recorded { OnOk result ((entry : ℕ) × L.has_recorded log.now share.new.seen entry) }
    ensures parts { share.new.parts ≡ share.old.parts }
    ensures more { share.old.count ≤ share.new.count }
    ensures seen { IsPrefix share.old.seen share.new.seen }
    // Each reduction is true of the updates that were seen.
    ensures all_true { IfOk result (λ answers. All (IsTrueAnswer share.new.seen) answers.items) }
    ensures order { IfOk result (λ answers. AreInOrder answers.items) }
    ensures few { IfOk result (λ answers. vec_len answers ≤ most_listed place.entry.keeps) }
{
    let Share {
        token,
        prefix,
        parts,
        count,
    } = share;
    let none = token.empty();
    let lent = Share {
        token: mem::replace(token, none),
        prefix: prefix.again(),
        parts: *parts,
        count: *count,
    };
    let (back, answers, ended) = hold::<Brand, N, T, L, R, W>(place, log, lent, reader, writer);
    *token = back.token;
    *prefix = back.prefix;
    *count = back.count;
    listed(answers, ended)
}

// The reductions that were answered, if the session came to its end.
fn listed(answers: Vec<Claimed>, ended: Result<(), Fault>) -> Result<Vec<Claimed>, Fault>
    ensures { MatchResult ended (λ _. result ≡ Ok answers) (λ fault. result ≡ Err fault) }
{
    ended?;
    Ok(answers)
}

/// What a share holds when it is lent to a session, how many reductions the session lists at most, and which updates and how many entries its log
/// has recorded.
pub trait SessionStart {
    ghost holding: { ShareState };

    ghost most: { ℕ };

    ghost recorded: { List Edit → ℕ → Type 0 };
}

impl SessionStart for Brand {
    ghost holding = { record { parts = 0; count = 0; seen = [] } };

    ghost most = { 0 };

    ghost recorded = { λ edits entries. Unit {0} };
}

// Runs a session with a share, and returns the share with the reductions that were answered.
fn hold<K: SessionStart, N: WithBody<Six>, T: Wait, L: SessionLog<N>, R: Read, W: Write>(
    place: SessionPlace<'_, N, T>,
    log: &L,
    share: Share<N>,
    reader: &mut R,
    writer: &mut W,
) -> (Share<N>, Vec<Claimed>, Result<(), Fault>)
    requires lent { share ≡ K.holding }
    requires most { most_listed place.keeps ≡ K.most }
    requires log { (edits : List Edit) (entries : ℕ) → L.has_recorded log.now edits entries → K.recorded edits entries }
    ensures recorded { OnOk result.2 ((entry : ℕ) × K.recorded result.0.seen entry) }
    ensures lines_served { LinesServed (TellsLine N.limits N.numbers N.lists) (session_at share []) (session_at result.0 result.1.items)
        (R.remaining reader.old) (R.remaining reader.new) (W.contents writer.old) (W.contents writer.new) result.2 }
    ensures parts { result.0.parts ≡ share.parts }
    ensures more { share.count ≤ result.0.count }
    ensures few { vec_len result.1 ≤ most_listed place.entry.keeps }
{
    let alloc = place.alloc;
    let mut session: Session<'_, N, T, L, K> = Session {
        place,
        log,
        share,
        answers: Vec::new(alloc),
        entry: 0,
        of: PhantomData,
    };
    let ended = serve_lines(MOST_READ, alloc, &mut session, reader, writer);
    let Session { share, answers, .. } = session;
    (share, answers, ended)
}

// The line handler of a session.
#[derive(Drop)]
struct Session<'a, N: WithBody<Six>, T: Wait, L: SessionLog<N>, K: SessionStart> {
    place: SessionPlace<'a, N, T>,
    log: &'a L,
    share: Share<N>,
    answers: Vec<Claimed>,
    // Up to which entry the log must have the hub's entries before replies are sent. If answers are recorded, it is the last entry that this
    // session was given.
    entry: u64,
    of: PhantomData<K>,
}

impl<'a, N: WithBody<Six>, T: Wait, L: SessionLog<N>, K: SessionStart> Model
    for Session<'a, N, T, L, K> {
    ghost use Rattle.std.specs.Prelude.{◌≡◌, ◌≤◌, ℕ, All, List, vec_len};
    ghost use Rattle.lv_edits.specs.declared.edit.Edit.{Edit};
    ghost use Rattle.lv_transcript.specs.Transcript.{IsTrueAnswer};
    ghost use Rattle.lv_hub.specs.Session.{HeldSession, most_listed, session_at};

    ghost Value = { HeldSession };

    ghost view = { λ s. record { session = session_at s.share s.answers.items; entry = s.entry } };

    ghost invariant = { λ s. (s.share.parts ≡ K.holding.parts) × (K.holding.count ≤ s.share.count) × All (IsTrueAnswer s.share.seen) s.answers.items × (most_listed s.place.keeps ≡ K.most) × (vec_len s.answers ≤ K.most) × ((edits : List Edit) (entries : ℕ) → L.has_recorded s.log.now edits entries → K.recorded edits entries) };
}

impl<'a, N: WithBody<Six>, T: Wait, L: SessionLog<N>, K: SessionStart, W: Write> LineHandler<W>
    for Session<'a, N, T, L, K> {
    ghost State = { HeldSession };

    ghost state = { λ s. s };

    ghost step = { λ old number line reply new. TellsLine N.limits N.numbers N.lists old.session number line reply new.session };

    ghost may_send = { λ s. K.recorded s.session.seen s.entry };

    fn handle(
        &mut self,
        number: u32,
        line: &[u8],
        buffer: &mut ReplyBuffer<'_, W>,
    ) -> Result<(), Fault> {
        make_room(&self.place, self.log, &self.share, self.entry, buffer)?;
        answer_line(
            &self.place,
            self.log,
            &mut self.share,
            &mut self.answers,
            &mut self.entry,
            number,
            read_line(line),
            buffer,
        )
    }

    // Everything that replies may report is recorded before they are sent.
    fn before_send(&self) -> Result<(), Fault> {
        let (place, log) = (&self.place, self.log);
        log.record(place.rt, place.hub, &self.share, self.entry)
    }
}

/// Sorts the reductions of several sessions by their versions, for a transcript. Those at one version keep their order. If there is no memory for
/// sorting, the list is unchanged.
pub fn in_order(answers: &mut Vec<Claimed>) -> Result<(), AllocError>
    ensures order { OnOk result (AreInOrder answers.new.items) }
    ensures same { IsPermutation answers.old.items answers.new.items }
    ensures stable { KeepTies answers.old.items answers.new.items }
    ensures unmoved { OnErr result (answers.new.items ≡ answers.old.items) }
{
    answers.sort_by_key(|reduction: &Claimed| reduction.edit)
}
