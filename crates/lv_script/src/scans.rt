//! Replies to scans. Only a part of such a reply is in memory at a time.
ghost use Rattle.std.specs.Prelude.{◌≡◌, ◌≤◌, List, ℕ, length, IfNone, OnOk, IfErr};
ghost use Rattle.lv_edits.specs.History.{list_of};
ghost use Rattle.lv_refresh.specs.Carried.{Carried};
ghost use Rattle.lv_bodies.specs.Six.{SixSummary};
ghost use Rattle.lv_bodies.specs.declared.sixes.Six.{Six};
ghost use Rattle.lv_edits.specs.Kept.{IsLegalInLimits};
ghost use Rattle.lv_edits.specs.Ranges.{range_refusal, slice_of};
ghost use Rattle.lv_lines.specs.Texts.{scan_text};
ghost use Rattle.lv_lines.specs.Output.{HasRoom, Puts, PutsFront, SamePlaces};
ghost use Rattle.lv_script.specs.Script.{TellsScan, plain_scan};
ghost use Rattle.lv_script.specs.Scripted.{state_of};

use crate::running_scans::{Elements, put_running_scan};
use lv_bodies::{Kind, Six};
use lv_geometry::Refusal;
use lv_lines::{Fault, LINE, ReplyBuffer, put_refusal};
use lv_live::Live;
use lv_standing::Standing;
use std::io::Write;

/// A scan that was asked for.
#[derive(Clone, Copy)]
pub struct Asked {
    pub inclusive: bool,
    pub kind: Kind,
    pub lo: u32,
    pub hi: u32,
}

/// Answers a scan. The reply may be longer than the buffer: each value is put as it is computed, so no memory is taken.
pub fn answer_scan<W: Write>(
    standing: &Standing,
    buffer: &mut ReplyBuffer<'_, W>,
    asked: &Asked,
) -> Result<(), Fault>
    requires { HasRoom buffer.old.held.now LINE }
    ensures places { SamePlaces buffer.old buffer.new }
    ensures ok { OnOk result ((reply : List ℕ) × ((jobs : List (Carried Six SixSummary)) → TellsScan (state_of standing.now jobs) asked.now.inclusive asked.now.kind asked.now.lo asked.now.hi reply (state_of standing.now jobs))
        × Puts W.contents buffer.old buffer.new reply) }
    ensures fault { IfErr result (λ fault. (fault ≡ Fault.WriteFault) × (reply : List ℕ)
        × ((jobs : List (Carried Six SixSummary)) → TellsScan (state_of standing.now jobs) asked.now.inclusive asked.now.kind asked.now.lo asked.now.hi reply (state_of standing.now jobs))
        × PutsFront W.contents buffer.old buffer.new reply) }
{
    let live = standing.live();
    match refusal_of(live, asked.lo, asked.hi) {
        None => put_range_scan(buffer, live, asked),
        Some(refusal) => {
            put_refusal(buffer.held, refusal);
            Ok(())
        }
    }
}

// The error for a range, if there is one.
fn refusal_of(live: &Live<Six>, lo: u32, hi: u32) -> Option<Refusal>
    ensures value { result ≡ range_refusal live.now.history.journal lo hi }
    ensures order { IfNone result (lo ≤ hi) }
    ensures inside { IfNone result (hi ≤ length (list_of live.now.history.journal)) }
{
    let size = live.size();
    if hi < lo {
        Some(Refusal::BadRange)
    } else if size < hi {
        Some(Refusal::OutOfRange { size })
    } else {
        None
    }
}

// Puts the scan of a range that is within the vector.
fn put_range_scan<W: Write>(
    buffer: &mut ReplyBuffer<'_, W>,
    live: &Live<Six>,
    asked: &Asked,
) -> Result<(), Fault>
    requires room { HasRoom buffer.old.held.now LINE }
    requires order { asked.now.lo ≤ asked.now.hi }
    requires inside { asked.now.hi ≤ length (list_of live.now.history.journal) }
    requires limits { IsLegalInLimits live.now.history }
    ensures places { SamePlaces buffer.old buffer.new }
    ensures ok { OnOk result (Puts W.contents buffer.old buffer.new
        (scan_text (length live.now.history.journal) asked.now.inclusive asked.now.kind
        (plain_scan asked.now.inclusive asked.now.kind (slice_of live.now.history.journal asked.now.lo asked.now.hi)))) }
    ensures fault { IfErr result (λ fault. (fault ≡ Fault.WriteFault)
        × PutsFront W.contents buffer.old buffer.new
        (scan_text (length live.now.history.journal) asked.now.inclusive asked.now.kind
        (plain_scan asked.now.inclusive asked.now.kind (slice_of live.now.history.journal asked.now.lo asked.now.hi)))) }
{
    let elements = RangeElements {
        live,
        lo: asked.lo,
        hi: asked.hi,
    };
    let edit = u64::from(live.edit());
    put_running_scan(buffer, edit, asked.inclusive, asked.kind, &elements)
}

// The elements of a range that is within a vector.
#[derive(Clone, Copy)]
struct RangeElements<'a> {
    live: &'a Live<Six>,
    lo: u32,
    hi: u32,
    ghost order: { lo ≤ hi },
    ghost inside: { hi ≤ length (list_of live.now.history.journal) },
}

impl Elements for RangeElements<'_> {
    ghost use Rattle.lv_edits.specs.Ranges.{slice_of};

    ghost list = { λ r. slice_of r.live.now.history.journal r.lo r.hi };

    #[inline(always)]
    fn count(&self) -> usize {
        (self.hi - self.lo) as usize
    }

    #[inline(always)]
    fn element(&self, i: usize) -> i64 {
        let Ok(x) = self.live.get(self.lo + i as u32) else {
            unreachable!();
        };
        x
    }
}
