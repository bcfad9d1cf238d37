//! The replies to commands of a script, and in particular to updates and reads.
ghost use Rattle.std.specs.Prelude.{◌≡◌, ◌+◌, ◌<◌, ◌≤◌, ◌++◌, List, ℕ, length, OnOk, IfErr};
ghost use Rattle.lv_bodies.specs.Six.{SixSummary, six_operations};
ghost use Rattle.lv_bodies.specs.declared.sixes.Six.{Six};
ghost use Rattle.lv_edits.specs.Capacity.{capacity_after};
ghost use Rattle.lv_edits.specs.History.{list_of};
ghost use Rattle.lv_edits.specs.Verdict.{element_at};
ghost use Rattle.lv_edits.specs.Ranges.{range_refusal};
ghost use Rattle.lv_refresh.specs.Carried.{Carried};
ghost use Rattle.lv_live.specs.Kept.{IsWorld};
ghost use Rattle.lv_live.specs.State.{SameLive, recorded};
ghost use Rattle.lv_live.specs.Step.{Costs};
ghost use Rattle.lv_live.specs.declared.events.Event.TheVariants as event;
ghost use Rattle.lv_lines.specs.Output.{HasRoom, KeepsRoom, Puts, PutsFront, SamePlaces};
ghost use Rattle.lv_lines.specs.Texts.{capacity_text, element_text, size_text};
ghost use Rattle.lv_script.specs.Script.{CommandAnswer, TellsEdit, TellsEvent, reduced_text};
ghost use Rattle.lv_script.specs.Scripted.{state_of};

use crate::job_answers::{put_claim, put_delivery, put_forget};
use crate::query_answers::{put_named_answer, put_unwatch, put_watch};
use crate::refresh_replies::put_cost;
use crate::scans::{Asked, answer_scan};
use crate::watch_replies::{ROOM, put_notes};
use lv_bodies::{Body, Kind, Six};
use lv_edits::Edit;
use lv_geometry::Refusal;
use lv_lines::{
    Command, Fault, ReplyBuffer, put_answer, put_capacity, put_receipt, put_refusal, put_settled,
    put_size, put_value,
};
use lv_live::{Issued, Live};
use lv_reduce::Reads;
use lv_standing::{Note, Standing};
use std::io::Write;

/// Answers a command. Only the reply to a scan may be longer than the buffer. `notes` is room for the notifications of an update.
#[inline(always)]
pub fn answer<W: Write>(
    standing: &mut Standing,
    notes: &mut Vec<Note>,
    issued: &mut Issued<Six>,
    command: Command,
    buffer: &mut ReplyBuffer<'_, W>,
) -> Result<(), Fault>
    requires world { IsWorld six_operations standing.old.live issued.old.jobs }
    requires room { HasRoom buffer.old.held.now ROOM }
    ensures places { SamePlaces buffer.old buffer.new }
    ensures ok { OnOk result ((reply : List ℕ) × CommandAnswer (state_of standing.old issued.old.jobs) command reply (state_of standing.new issued.new.jobs)
        × Puts W.contents buffer.old buffer.new reply) }
    ensures fault { IfErr result (λ fault. (fault ≡ Fault.WriteFault) × (reply : List ℕ)
        × CommandAnswer (state_of standing.old issued.old.jobs) command reply (state_of standing.new issued.new.jobs)
        × PutsFront W.contents buffer.old buffer.new reply) }
    ensures world { IsWorld six_operations standing.new.live issued.new.jobs }
    ensures most { issued.new.most ≡ issued.old.most }
    ensures few { length issued.old.jobs ≤ issued.old.most → length issued.new.jobs ≤ issued.new.most }
{
    match command {
        Command::Edit(edit) => put_edit(standing, notes, edit, buffer.held),
        Command::Settle => put_settle(standing, buffer.held),
        Command::Get(i) => put_element_at(standing, i, buffer.held),
        Command::Size => put_extent(standing, buffer.held),
        Command::Capacity => put_room(standing, buffer.held),
        Command::Reduce { kind, lo, hi } => put_reduced(standing, kind, lo, hi, buffer.held),
        Command::Cost { lo, hi } => put_reads(standing, lo, hi, buffer.held),
        Command::Scan {
            inclusive,
            kind,
            lo,
            hi,
        } => {
            return answer_scan(
                standing,
                buffer,
                &Asked {
                    inclusive,
                    kind,
                    lo,
                    hi,
                },
            );
        }
        Command::Claim => put_claim(standing, issued, buffer.held),
        Command::Deliver(k) => put_delivery(standing, issued, k, buffer.held),
        Command::Forget => put_forget(standing, buffer.held),
        Command::Watch { name, kind, lo, hi } => put_watch(
            standing,
            name,
            kind,
            lo,
            hi,
            buffer.held,
        ),
        Command::Unwatch(name) => put_unwatch(standing, name, buffer.held),
        Command::Answer(name) => put_named_answer(standing, name, buffer.held),
    }
    Ok(())
}

// Puts the receipt of an update and its notifications, or its error. The list of notifications is passed only so that its memory is used again.
fn put_edit(standing: &mut Standing, notes: &mut Vec<Note>, edit: Edit, held: &mut Vec<u8>)
    requires { HasRoom held.old ROOM }
    ensures answer { (reply : List ℕ) × ((jobs : List (Carried Six SixSummary)) → TellsEdit (state_of standing.old jobs) edit reply (state_of standing.new jobs))
        × (held.new.items ≡ held.old.items ++ reply) }
    ensures world { (jobs : List (Carried Six SixSummary)) → IsWorld six_operations standing.old.live jobs → IsWorld six_operations standing.new.live jobs }
    ensures room { KeepsRoom held.old held.new }
{
    notes.clear();
    match standing.edit_into(edit, notes) {
        Ok(receipt) => {
            put_receipt(held, receipt);
            put_notes(held, notes.as_slice());
        }
        Err(refusal) => put_refusal(held, refusal),
    }
}

// Completes what is pending.
fn put_settle(standing: &mut Standing, held: &mut Vec<u8>)
    requires { HasRoom held.old ROOM }
    ensures answer { (reply : List ℕ) × ((jobs : List (Carried Six SixSummary)) → TellsEvent (state_of standing.old jobs) event.Settle reply (state_of standing.new jobs))
        × (held.new.items ≡ held.old.items ++ reply) }
    ensures world { (jobs : List (Carried Six SixSummary)) → IsWorld six_operations standing.old.live jobs → IsWorld six_operations standing.new.live jobs }
    ensures room { KeepsRoom held.old held.new }
{
    standing.settle();
    put_settled(held);
}

// Puts the element at an index, or the error that there is none.
fn put_element_at(standing: &Standing, i: u32, held: &mut Vec<u8>)
    requires { HasRoom held.old ROOM }
    ensures text { held.new.items ≡ held.old.items ++ element_text (element_at standing.now.live.history.journal i) }
    ensures room { KeepsRoom held.old held.new }
{
    put_value(held, standing.live().get(i));
}

// How many elements there are, and the number of the last edit.
fn put_extent(standing: &Standing, held: &mut Vec<u8>)
    requires { HasRoom held.old ROOM }
    ensures text { let edits = standing.now.live.history.journal in held.new.items ≡ held.old.items ++ size_text (length (list_of edits)) (length edits) }
    ensures room { KeepsRoom held.old held.new }
{
    let extent = extent_of(standing.live());
    put_size(held, extent.size.into(), extent.edit.into());
}

// How many elements fit into the open buckets.
fn put_room(standing: &Standing, held: &mut Vec<u8>)
    requires { HasRoom held.old ROOM }
    ensures text { held.new.items ≡ held.old.items ++ capacity_text (capacity_after standing.now.live.history.journal) }
    ensures room { KeepsRoom held.old held.new }
{
    put_capacity(held, standing.live().capacity());
}

// How long a vector is: its elements and its edits.
#[derive(Clone, Copy)]
struct Extent {
    size: u32,
    edit: u32,
}

fn extent_of<B: Body>(live: &Live<B>) -> Extent
    ensures size { result.size ≡ length (list_of live.now.history.journal) }
    ensures edit { result.edit ≡ length live.now.history.journal }
{
    Extent {
        size: live.size(),
        edit: live.edit(),
    }
}

// Puts the value of a kind over a range, or the error for the range. The vector keeps what it computes for it.
fn put_reduced(standing: &mut Standing, kind: Kind, lo: u32, hi: u32, held: &mut Vec<u8>)
    requires { HasRoom held.old ROOM }
    ensures text { let edits = standing.old.live.history.journal in held.new.items ≡ held.old.items ++ reduced_text edits kind lo hi (range_refusal edits lo hi) }
    ensures live { SameLive standing.old.live standing.new.live }
    ensures queries { standing.new.queries ≡ standing.old.queries }
    ensures room { KeepsRoom held.old held.new }
{
    match standing.value(kind, lo, hi) {
        Ok(answered) => put_answer(held, answered.edit.into(), kind, answered.value),
        Err(refusal) => put_refusal(held, refusal),
    }
}

// Puts how much a reduction reads, or the error for its range.
fn put_reads(standing: &Standing, lo: u32, hi: u32, held: &mut Vec<u8>)
    requires { HasRoom held.old ROOM }
    ensures answer { (reply : List ℕ) × ((jobs : List (Carried Six SixSummary)) → TellsEvent (state_of standing.now jobs) (event.Reduce lo hi) reply (state_of standing.now jobs))
        × (held.new.items ≡ held.old.items ++ reply) }
    ensures room { KeepsRoom held.old held.new }
{
    match reads_of(standing, lo, hi) {
        Ok(reads) => put_cost(held, reads.cells, reads.summaries),
        Err(refusal) => put_refusal(held, refusal),
    }
}

fn reads_of(standing: &Standing, lo: u32, hi: u32) -> Result<Reads, Refusal>
    ensures { Costs (recorded standing.now.live) lo hi result }
{
    standing.live().cost(lo, hi)
}
