//! Questions by one kind about a live vector. Each returns the aggregate (*summary*) of that kind.
ghost use Rattle.std.specs.Prelude.{◌≡◌, ◌⊎◌, Some, IfOk, IfErr};
ghost use Rattle.lv_bodies.specs.Plain.{program_table};
ghost use Rattle.lv_edits.specs.History.{list_of};
ghost use Rattle.lv_edits.specs.Ranges.{range_refusal};
ghost use Rattle.lv_tree.specs.Asked.{IsKindAnswer};
ghost use Rattle.lv_tree.specs.Kinds.{AreReady, IsCaughtUp, IsNear, LeavesOthers};
ghost use Rattle.lv_tree.specs.KindSummaries.{summary_of};
ghost use Rattle.lv_standing.specs.Queries.{span_of};

use crate::spans::{Indices, Span};
use lv_bodies::{Body, Kind};
use lv_geometry::Refusal;
use lv_live::Live;
use lv_tree::{KindAnswer, KindSummary, Kinds};

/// The summary, by a kind, of the elements from index `lo` up to `hi`. Afterwards that kind has followed all edits, unless the range
/// was answered without its tree because it is short or is that of the last sum. Refused with `BadRange`, then `OutOfRange`. Takes no
/// memory.
#[inline(always)]
pub fn ask_by_kind<B: Body>(
    live: &Live<B>,
    kinds: &mut Kinds,
    kind: Kind,
    lo: u32,
    hi: u32,
) -> Result<KindAnswer, Refusal>
    requires { AreReady program_table live.now.history.journal kinds.old }
    ensures ok { IfOk result (λ answer. IsKindAnswer program_table live.now.history.journal kind lo hi answer) }
    ensures err { IfErr result (λ refusal. range_refusal live.now.history.journal lo hi ≡ Some refusal) }
    ensures kept { AreReady program_table live.now.history.journal kinds.new }
    ensures others { LeavesOthers kind kinds.old kinds.new }
    ensures caught_up { IfOk result (λ _. IsNear kind lo hi kinds.old ⊎ IsCaughtUp live.now.history.journal kind hi kinds.new) }
{
    kinds.ask(live.view().cells, kind, lo, hi)
}

/// The summary, by a kind, of the elements in a span. Takes no memory.
pub fn ask_span<B: Body>(live: &Live<B>, kinds: &mut Kinds, kind: Kind, span: Span) -> KindSummary
    requires { AreReady program_table live.now.history.journal kinds.old }
    ensures value { result ≡ summary_of kind (span_of span (list_of live.now.history.journal)) }
    ensures kept { AreReady program_table live.now.history.journal kinds.new }
    ensures others { LeavesOthers kind kinds.old kinds.new }
{
    let Indices { lo, hi } = span.indices_in(u64::from(live.size()));
    match ask_by_kind(live, kinds, kind, lo as u32, hi as u32) {
        Ok(answer) => answer.summary,
        Err(_) => unreachable!(),
    }
}
