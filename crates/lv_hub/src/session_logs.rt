//! Where the actions of sessions are recorded.
ghost use Rattle.std.specs.Prelude.{◌≡◌, ℕ, IfErr, IfSome, List, OnOk};
ghost use Rattle.lv_edits.specs.declared.edit.Edit.{Edit};
ghost use Rattle.lv_hub.specs.Logging.{WereRecorded};

use crate::hubs::Hub;
use crate::operation_log::{Begun, OperationLog};
use crate::shares::Share;
use lv_bodies::Six;
use lv_history::WithBody;
use lv_script::Fault;
use lv_transcript::LogWriter;
use std::sync::{Mutex, Wait};

/// A record of what a hub has come to, or none.
pub trait SessionLog<N: WithBody<Six>> {
    // The log has recorded these updates, a prefix of the hub's, and this many of the hub's entries (updates and answers). So they may be
    // reported.
    ghost has_recorded: { Self → List Edit → ℕ → Type 0 };

    /// Makes sure that what a share of the hub has seen is recorded, and as many of the hub's entries as are asked for. The fault is
    /// `WriteFault`. Then nothing of it may be reported.
    fn record<T: Wait>(
        &self,
        rt: &T,
        hub: &Hub<Six, N>,
        share: &Share<N>,
        entries: u64,
    ) -> Result<(), Fault>
        ensures recorded { OnOk result (has_recorded self.now share.now.seen entries) }
        ensures fault { IfErr result (λ fault. fault ≡ Fault.WriteFault) };

    /// Records all that the hub has come to, so that it has room for more. The fault is `WriteFault`. Then nothing of it may be reported.
    fn make_place<T: Wait>(&self, rt: &T, hub: &Hub<Six, N>) -> Result<(), Fault>
        ensures { IfErr result (λ fault. fault ≡ Fault.WriteFault) };
}

/// Records nothing. Everything may be reported.
#[derive(Clone, Copy)]
pub struct NoLog;

impl<N: WithBody<Six>> SessionLog<N> for NoLog {
    ghost has_recorded = { λ log edits entries. Unit {0} };

    fn record<T: Wait>(
        &self,
        _rt: &T,
        _hub: &Hub<Six, N>,
        _share: &Share<N>,
        _entries: u64,
    ) -> Result<(), Fault> {
        Ok(())
    }

    fn make_place<T: Wait>(&self, _rt: &T, _hub: &Hub<Six, N>) -> Result<(), Fault> {
        Ok(())
    }
}

/// Whoever records writes what others have done too. So a caller whose own entries are written already writes nothing.
impl<N: WithBody<Six>, W: LogWriter + Drop, K: Begun> SessionLog<N>
    for Mutex<OperationLog<N, W, K>> {
    ghost has_recorded = { λ log edits entries. WereRecorded W.made N.limits N.numbers K.there K.start edits entries };

    fn record<T: Wait>(
        &self,
        rt: &T,
        hub: &Hub<Six, N>,
        share: &Share<N>,
        entries: u64,
    ) -> Result<(), Fault> {
        self.lock(rt).record(rt, hub, share, entries)
    }

    fn make_place<T: Wait>(&self, rt: &T, hub: &Hub<Six, N>) -> Result<(), Fault> {
        self.lock(rt).make_place(rt, hub)
    }
}

impl<N: WithBody<Six>, L: SessionLog<N>> SessionLog<N> for Option<&L> {
    ghost has_recorded = { λ log edits entries. IfSome log (λ log. L.has_recorded log.now edits entries) };

    fn record<T: Wait>(
        &self,
        rt: &T,
        hub: &Hub<Six, N>,
        share: &Share<N>,
        entries: u64,
    ) -> Result<(), Fault> {
        match self {
            Some(log) => log.record(rt, hub, share, entries),
            None => Ok(()),
        }
    }

    fn make_place<T: Wait>(&self, rt: &T, hub: &Hub<Six, N>) -> Result<(), Fault> {
        match self {
            Some(log) => log.make_place(rt, hub),
            None => Ok(()),
        }
    }
}
