//! How a line of a session is answered.
ghost use Rattle.std.specs.Prelude.{◌≡◌, ◌⊎◌, ◌≤◌, ◌^◌, ◌++◌, ◌∷◌, [], ℕ, All, List, OnOk, IfErr, IfOk, length, true, vec_len};
ghost use Rattle.lv_geometry.specs.declared.refusals.Refusal.{Refusal};
ghost use Rattle.lv_bodies.specs.Long.{CanFoldLong};
ghost use Rattle.lv_bodies.specs.Plain.{plain_value};
ghost use Rattle.lv_lines.specs.Output.{HasRoom, KeepsRoom, Puts, PutsFront, SamePlaces};
ghost use Rattle.lv_lines.specs.Texts.{scan_text};
ghost use Rattle.lv_script.specs.PlainScript.{scan_by};
ghost use Rattle.lv_transcript.specs.declared.claimed.Claimed.{Claimed};
ghost use Rattle.lv_transcript.specs.Transcript.{IsTrueAnswer};
ghost use Rattle.lv_hub.specs.Counting.{Counts, having_seen};
ghost use Rattle.lv_history.specs.Numbering.{told_number};
ghost use Rattle.lv_hub.specs.Renewing.{IsOfOneVector};
ghost use Rattle.lv_hub.specs.Replying.{SessionCommandAnswer, SessionLineAnswer, TellsEdit, TellsReduction, TellsScan};
ghost use Rattle.lv_hub.specs.Session.{are_listed, listed_if, most_listed, session_at};
ghost use Rattle.lv_hub.specs.Told.{EditTold, ValueTold};

use crate::hubs::Hub;
use crate::kept_answers::KeptAnswers;
use crate::session_logs::SessionLog;
use crate::shares::Share;
use lv_bodies::{Kind, Six};
use lv_edits::{Edit, Receipt};
use lv_geometry::Refusal;
use lv_history::{WithBody, told_number};
use lv_script::{
    Asked, Claimed, Command, Fault, LINE, Line, ReplyBuffer, Slice, put_answer, put_bad,
    put_receipt_at, put_refusal, put_running_scan,
};
use lv_standing::Answered;
use lv_transcript::LogHeading;
use std::alloc::Global;
use std::io::Write;
use std::sync::Wait;

/// Where a session runs: a hub, the runtime handle that waits for its lock, the allocator, the numbering of its replies, and what is recorded of
/// its answers.
#[derive(Drop)]
pub struct SessionPlace<'a, N: WithBody<Six>, T> {
    pub rt: &'a T,
    pub hub: &'a Hub<Six, N>,
    pub alloc: Global,
    pub numbers: LogHeading,
    pub keeps: KeptAnswers,
    ghost told_by: { numbers ≡ N.numbers },
    ghost low: { numbers.base ≤ 2 ^ 62 },
    ghost lists: { are_listed keeps ≡ N.lists },
    // Only the sessions of a hub of one vector list their reductions, since these have the vector's numbers.
    ghost one: { N.lists ≡ true → IsOfOneVector N.limits },
}

/// Answers a line of a session, on a hub. The share counts what is accepted, and `answers` lists the reductions, which stay true. Before the
/// reply and all earlier ones are sent, the log must have the hub's entries up to `entry`.
pub fn answer_line<N: WithBody<Six>, T: Wait, L: SessionLog<N>, W: Write>(
    place: &SessionPlace<'_, N, T>,
    log: &L,
    share: &mut Share<N>,
    answers: &mut Vec<Claimed>,
    entry: &mut u64,
    number: u32,
    line: Line<Command>,
    buffer: &mut ReplyBuffer<'_, W>,
) -> Result<(), Fault>
    requires room { HasRoom buffer.old.held.now LINE }
    requires all_true { All (IsTrueAnswer share.old.seen) answers.old.items }
    ensures places { SamePlaces buffer.old buffer.new }
    ensures sent { (buffer.new.writer.now ≡ buffer.old.writer.now) ⊎ L.has_recorded log.now share.new.seen entry.new }
    ensures ok { OnOk result ((reply : List ℕ)
        × SessionLineAnswer N.limits N.numbers N.lists (session_at share.old answers.old.items) number line reply (session_at share.new answers.new.items)
        × Puts W.contents buffer.old buffer.new reply) }
    ensures fault { IfErr result (λ fault. (fault ≡ Fault.WriteFault) × (reply : List ℕ)
        × SessionLineAnswer N.limits N.numbers N.lists (session_at share.old answers.old.items) number line reply (session_at share.new answers.new.items)
        × PutsFront W.contents buffer.old buffer.new reply) }
    ensures parts { share.new.parts ≡ share.old.parts }
    ensures more { share.old.count ≤ share.new.count }
    ensures all_true { All (IsTrueAnswer share.new.seen) answers.new.items }
    ensures few { vec_len answers.old ≤ most_listed place.now.keeps → vec_len answers.new ≤ most_listed place.now.keeps }
{
    match line {
        Line::Nothing => {}
        Line::Bad => put_bad(buffer.held, number),
        Line::Do(command) => {
            return answer(place, log, share, answers, entry, number, command, buffer);
        }
    }
    Ok(())
}

/// Makes room for the reply to a line. If there is none, what is buffered is sent, once everything that it reports is recorded.
pub(crate) fn make_room<N: WithBody<Six>, T: Wait, L: SessionLog<N>, W: Write>(
    place: &SessionPlace<'_, N, T>,
    log: &L,
    share: &Share<N>,
    entry: u64,
    buffer: &mut ReplyBuffer<'_, W>,
) -> Result<(), Fault>
    ensures places { SamePlaces buffer.old buffer.new }
    ensures sent { (buffer.new.writer.now ≡ buffer.old.writer.now) ⊎ L.has_recorded log.now share.now.seen entry }
    ensures ok { OnOk result (Puts W.contents buffer.old buffer.new []) }
    ensures room { OnOk result (HasRoom buffer.new.held.now LINE) }
    ensures fault { IfErr result (λ fault. (fault ≡ Fault.WriteFault) × PutsFront W.contents buffer.old buffer.new []) }
{
    if buffer.held.capacity() - buffer.held.len() < LINE {
        log.record(place.rt, place.hub, share, entry)?;
        return buffer.make_room(LINE);
    }
    Ok(())
}

// Answers a command, which is bad unless it is an update, a reduction or a scan. Only the reply to a scan may be longer than the buffer.
// Everything that a reply reports is recorded before it is sent.
fn answer<N: WithBody<Six>, T: Wait, L: SessionLog<N>, W: Write>(
    place: &SessionPlace<'_, N, T>,
    log: &L,
    share: &mut Share<N>,
    answers: &mut Vec<Claimed>,
    entry: &mut u64,
    number: u32,
    command: Command,
    buffer: &mut ReplyBuffer<'_, W>,
) -> Result<(), Fault>
    requires { HasRoom buffer.old.held.now LINE }
    ensures places { SamePlaces buffer.old buffer.new }
    ensures sent { (buffer.new.writer.now ≡ buffer.old.writer.now) ⊎ L.has_recorded log.now share.new.seen entry.new }
    ensures ok { OnOk result ((reply : List ℕ)
        × SessionCommandAnswer N.limits N.numbers N.lists (session_at share.old answers.old.items) number command reply (session_at share.new answers.new.items)
        × Puts W.contents buffer.old buffer.new reply) }
    ensures fault { IfErr result (λ fault. (fault ≡ Fault.WriteFault) × (reply : List ℕ)
        × SessionCommandAnswer N.limits N.numbers N.lists (session_at share.old answers.old.items) number command reply (session_at share.new answers.new.items)
        × PutsFront W.contents buffer.old buffer.new reply) }
    ensures parts { share.new.parts ≡ share.old.parts }
    ensures more { share.old.count ≤ share.new.count }
    ensures few { vec_len answers.old ≤ most_listed place.now.keeps → vec_len answers.new ≤ most_listed place.now.keeps }
{
    match command {
        Command::Edit(edit) => {
            put_edit(place, log, share, edit, buffer.held);
            Ok(())
        }
        Command::Reduce { kind, lo, hi } => {
            put_reduction(place, log, share, answers, entry, kind, lo, hi, buffer.held);
            Ok(())
        }
        Command::Scan {
            inclusive,
            kind,
            lo,
            hi,
        } => put_scanned(
            place,
            log,
            share,
            *entry,
            &Asked {
                inclusive,
                kind,
                lo,
                hi,
            },
            buffer,
        ),
        _ => {
            put_bad(buffer.held, number);
            Ok(())
        }
    }
}

// Makes an update, and puts its receipt or its refusal.
fn put_edit<N: WithBody<Six>, T: Wait, L: SessionLog<N>>(
    place: &SessionPlace<'_, N, T>,
    log: &L,
    share: &mut Share<N>,
    edit: Edit,
    held: &mut Vec<u8>,
)
    requires { HasRoom held.old LINE }
    ensures answer { (reply : List ℕ)
        × ((answers : List Claimed) → TellsEdit N.limits N.numbers N.lists (session_at share.old answers) edit reply (session_at share.new answers))
        × (held.new.items ≡ held.old.items ++ reply) }
    ensures parts { share.new.parts ≡ share.old.parts }
    ensures more { share.old.count ≤ share.new.count }
    ensures room { KeepsRoom held.old held.new }
{
    match edit_with_place(place, log, share, edit) {
        Ok(receipt) => put_receipt_at(held, last_number(place, share), receipt),
        Err(refusal) => put_refusal(held, refusal),
    }
}

// The number of the last update that a share has seen, in the session's numbering.
#[inline(always)]
fn last_number<N: WithBody<Six>, T: Wait>(place: &SessionPlace<'_, N, T>, share: &Share<N>) -> u64
    ensures { result ≡ told_number N.numbers (length share.now.seen) }
{
    told_number(place.numbers, share.seen())
}

// Makes an update once the log has room for it. Until then it has the log record what came. If that fails, no reply is sent any more.
fn edit_with_place<N: WithBody<Six>, T: Wait, L: SessionLog<N>>(
    place: &SessionPlace<'_, N, T>,
    log: &L,
    share: &mut Share<N>,
    edit: Edit,
) -> Result<Receipt, Refusal>
    ensures told { EditTold N.limits share.old.seen share.new.seen edit result }
    ensures counts { Counts (having_seen share.old share.new.seen) result share.new }
{
    for _ in 0..u64::MAX {
        if let Some(answer) = place.hub.try_edit(place.rt, share, edit) {
            return answer;
        }
        if log.make_place(place.rt, place.hub).is_err() {
            break;
        }
    }
    place.hub.edit(place.rt, share, edit)
}

// Reduces a range, and lists the answer if answers are listed.
fn put_reduction<N: WithBody<Six>, T: Wait, L: SessionLog<N>>(
    place: &SessionPlace<'_, N, T>,
    log: &L,
    share: &mut Share<N>,
    answers: &mut Vec<Claimed>,
    entry: &mut u64,
    kind: Kind,
    lo: u32,
    hi: u32,
    held: &mut Vec<u8>,
)
    requires { HasRoom held.old LINE }
    ensures answer { (reply : List ℕ)
        × TellsReduction N.limits N.numbers N.lists (session_at share.old answers.old.items) kind lo hi reply (session_at share.new answers.new.items)
        × (held.new.items ≡ held.old.items ++ reply) }
    ensures share { share.new ≡ having_seen share.old share.new.seen }
    ensures room { KeepsRoom held.old held.new }
    ensures few { vec_len answers.old ≤ most_listed place.now.keeps → vec_len answers.new ≤ most_listed place.now.keeps }
{
    let is_kept = make_place(answers, place.keeps);
    match value_with_place(place, log, share, entry, is_kept, kind, lo, hi) {
        Ok(Answered { edit, value }) => {
            let reduction = Claimed {
                edit,
                kind,
                lo,
                hi,
                value,
            };
            match list(answers, place.keeps, reduction) {
                Ok(()) => put_answer(held, last_number(place, share), kind, value),
                Err(refusal) => put_refusal(held, refusal),
            }
        }
        Err(refusal) => put_refusal(held, refusal),
    }
}

// Whether the next reduction is recorded. If reductions are listed, it first makes room for one more, provided that fewer than the maximum are.
fn make_place(answers: &mut Vec<Claimed>, keeps: KeptAnswers) -> bool
    ensures items { answers.new.items ≡ answers.old.items }
    ensures len { vec_len answers.new ≡ vec_len answers.old }
{
    match keeps {
        KeptAnswers::Listed(most) => answers.len() < most && answers.reserve(1).is_ok(),
        KeptAnswers::Logged => true,
        KeptAnswers::Nothing => false,
    }
}

// The value of a kind over a range. If it is to be recorded, it is computed once the log has room for the answer, and `entry` becomes its number
// among the log's entries. Until then it has the log record what came. If that fails, no reply is sent any more.
fn value_with_place<N: WithBody<Six>, T: Wait, L: SessionLog<N>>(
    place: &SessionPlace<'_, N, T>,
    log: &L,
    share: &mut Share<N>,
    entry: &mut u64,
    is_kept: bool,
    kind: Kind,
    lo: u32,
    hi: u32,
) -> Result<Answered, Refusal>
    ensures told { ValueTold N.limits share.old.seen share.new.seen kind lo hi result }
    ensures number { IsOfOneVector N.limits → IfOk result (λ answered. answered.edit ≡ length share.new.seen) }
    ensures share { share.new ≡ having_seen share.old share.new.seen }
{
    if !is_kept {
        return place.hub.value(place.rt, share, kind, lo, hi);
    }
    for _ in 0..u64::MAX {
        let asked = place.hub.try_value(place.rt, share, entry, kind, lo, hi);
        if let Some(answer) = asked {
            return answer;
        }
        if log.make_place(place.rt, place.hub).is_err() {
            break;
        }
    }
    place.hub.value(place.rt, share, kind, lo, hi)
}

// Appends a reduction to the list, if reductions are listed. It must find memory, and fewer than the maximum may be listed.
fn list(answers: &mut Vec<Claimed>, keeps: KeptAnswers, reduction: Claimed) -> Result<(), Refusal>
    ensures listed { OnOk result (answers.new.items ≡ listed_if (are_listed keeps) answers.old.items reduction) }
    ensures unchanged { IfErr result (λ refusal. (are_listed keeps ≡ true) × (refusal ≡ Refusal.NoMemory) × (answers.new.items ≡ answers.old.items)) }
    ensures few { vec_len answers.old ≤ most_listed keeps → vec_len answers.new ≤ most_listed keeps }
{
    match keeps {
        KeptAnswers::Listed(most) => list_within(answers, most, reduction),
        KeptAnswers::Logged => Ok(()),
        KeptAnswers::Nothing => Ok(()),
    }
}

// Appends a reduction to the list, if it finds memory and fewer than `most` are listed.
fn list_within(answers: &mut Vec<Claimed>, most: usize, reduction: Claimed) -> Result<(), Refusal>
    ensures listed { OnOk result (answers.new.items ≡ answers.old.items ++ reduction ∷ []) }
    ensures unchanged { IfErr result (λ refusal. (refusal ≡ Refusal.NoMemory) × (answers.new.items ≡ answers.old.items)) }
    ensures few { vec_len answers.old ≤ most → vec_len answers.new ≤ most }
{
    if most <= answers.len() {
        return Err(Refusal::NoMemory);
    }
    match answers.push(reduction) {
        Ok(()) => Ok(()),
        Err(_) => Err(Refusal::NoMemory),
    }
}

// Scans a range, and puts the values. The range is copied under the lock, and each value is put as it is computed.
fn put_scanned<N: WithBody<Six>, T: Wait, L: SessionLog<N>, W: Write>(
    place: &SessionPlace<'_, N, T>,
    log: &L,
    share: &mut Share<N>,
    entry: u64,
    asked: &Asked,
    buffer: &mut ReplyBuffer<'_, W>,
) -> Result<(), Fault>
    requires { HasRoom buffer.old.held.now LINE }
    ensures places { SamePlaces buffer.old buffer.new }
    ensures sent { (buffer.new.writer.now ≡ buffer.old.writer.now) ⊎ L.has_recorded log.now share.new.seen entry }
    ensures ok { OnOk result ((reply : List ℕ)
        × ((answers : List Claimed) → TellsScan N.limits N.numbers N.lists (session_at share.old answers) asked.now.inclusive asked.now.kind asked.now.lo asked.now.hi reply (session_at share.new answers))
        × Puts W.contents buffer.old buffer.new reply) }
    ensures fault { IfErr result (λ fault. (fault ≡ Fault.WriteFault) × (reply : List ℕ)
        × ((answers : List Claimed) → TellsScan N.limits N.numbers N.lists (session_at share.old answers) asked.now.inclusive asked.now.kind asked.now.lo asked.now.hi reply (session_at share.new answers))
        × PutsFront W.contents buffer.old buffer.new reply) }
    ensures share { share.new ≡ having_seen share.old share.new.seen }
{
    let copied = place
        .hub
        .copy_range(place.rt, place.alloc, share, asked.lo, asked.hi);
    match copied {
        Ok(stretch) => put_recorded_scan(
            place,
            log,
            share,
            entry,
            buffer,
            last_number(place, share),
            asked,
            stretch.elements(),
        ),
        Err(refusal) => {
            put_refusal(buffer.held, refusal);
            Ok(())
        }
    }
}

// Puts the values of a scan of elements at an edit number. Everything is recorded before, since the buffer is sent on the way.
fn put_recorded_scan<N: WithBody<Six>, T: Wait, L: SessionLog<N>, W: Write>(
    place: &SessionPlace<'_, N, T>,
    log: &L,
    share: &Share<N>,
    entry: u64,
    buffer: &mut ReplyBuffer<'_, W>,
    number: u64,
    asked: &Asked,
    elements: &[i64],
) -> Result<(), Fault>
    requires can { CanFoldLong elements.now }
    requires room { HasRoom buffer.old.held.now LINE }
    ensures places { SamePlaces buffer.old buffer.new }
    ensures sent { (buffer.new.writer.now ≡ buffer.old.writer.now) ⊎ L.has_recorded log.now share.now.seen entry }
    ensures ok { OnOk result (Puts W.contents buffer.old buffer.new
        (scan_text number asked.now.inclusive asked.now.kind (scan_by (plain_value asked.now.kind) asked.now.inclusive elements.now))) }
    ensures fault { IfErr result (λ fault. (fault ≡ Fault.WriteFault) × PutsFront W.contents buffer.old buffer.new
        (scan_text number asked.now.inclusive asked.now.kind (scan_by (plain_value asked.now.kind) asked.now.inclusive elements.now))) }
{
    log.record(place.rt, place.hub, share, entry)?;
    put_running_scan(
        buffer,
        number,
        asked.inclusive,
        asked.kind,
        &Slice { elements },
    )
}
