//! The operation log of a hub: its updates and its sessions' answers, written in the order of time.
ghost use Rattle.std.specs.Prelude.{◌≡◌, ◌+◌, ◌≤◌, ◌^◌, ◌∷◌, ℕ, [], All, Bool, IfErr, IfOk, IfSome, List, OnOk, Option, None, Some, false, is_some, length, map, take, true};
ghost use mathlib.Core.List.{IsPrefix};
ghost use Rattle.lv_geometry.specs.Bounds.{Bounds};
ghost use Rattle.lv_geometry.specs.Elements.{IsElement};
ghost use Rattle.lv_edits.specs.History.{list_of};
ghost use Rattle.lv_transcript.specs.declared.log_heading.LogHeading.{LogHeading};
ghost use Rattle.lv_transcript.specs.Fronts.{Entry};
ghost use Rattle.lv_transcript.specs.Transcribing.{Adds, IsUnusedOf, WasGivenOf, state_with};
ghost use Rattle.lv_hub.specs.Counting.{having_seen};
ghost use Rattle.lv_transcript.specs.Logs.{LogThere, MayGoOn, edits_there, heading_of, there_of};
ghost use Rattle.lv_hub.specs.Logging.{AreLasting, BeginsAnew, CameSince, EndsInFile, EndsText, HasAllOfFile, HasFrontOfFile, HoldsNothing, IsLogInFile, MayBeginAnew, entry_of, heading_after};
ghost use Rattle.lv_history.specs.Numbering.{told_number};
ghost use Rattle.lv_hub.specs.Renewing.{IsMadeOf, renewed_after, vector_limits};

use crate::hubs::Hub;
use crate::log_entry::LogEntry;
use crate::renewed::renewed;
use crate::shares::Share;
use crate::tap::Came;
use lv_bodies::Six;
use lv_geometry::Limits;
use lv_history::{HistoryPrefix, Naming, WithBody, told_number};
use lv_live::Live;
use lv_script::Fault;
use lv_transcript::{LogHeading, LogWriter, TranscriptWriter};
use lv_tree::Kinds;
use std::alloc::{AllocError, Global};
use std::io::Write;
use std::marker::{Brand, Model, PhantomData};
use std::mem;
use std::sync::Wait;

// For how many entries a hub has room until they are written.
const ROOM: usize = 4096;

// From `WORN` updates on, a vector takes no more until it is made anew. From `NEARLY_WORN` on it is made anew. What comes until the log is next
// written still fits between the two.
const WORN: u64 = 16_777_214;

const NEARLY_WORN: u64 = 16_769_022;

// How many updates must come before the log tries again to make a vector anew.
const PAUSE: u64 = 1024;

// The greatest update number after which a file may begin.
const MOST_NUMBER: u64 = 4_611_686_018_427_387_904;

/// What the writer of a log had got when the log was begun, and what was there already, if it continues a log of elements.
pub trait Begun {
    ghost start: { Option (List ℕ) };

    ghost there: { Option LogThere };
}

impl Begun for Brand {
    ghost use Rattle.std.specs.Prelude.{None};

    ghost start = { None };

    ghost there = { None };
}

/// Writes the log of a hub. Whoever records takes what has come since out of the hub, and writes it without holding the hub's lock. If others
/// have already recorded what is asked for, nothing is written. After a write that fails the log writes nothing more, and from then on nothing
/// counts as recorded. If the hub continues when its vector's updates are used up, the log has that vector made anew before they are, or when its
/// writer says that this is due. It begins its file anew at the same time.
#[derive(Drop)]
pub struct OperationLog<N: Naming, W: LogWriter + Drop, K: Begun> {
    transcript: TranscriptWriter,
    writer: W,
    // The prefix of the hub's updates that the log was given.
    prefix: HistoryPrefix<N>,
    // How many entries (updates and answers) it was given in all, and how many of them went to its earlier files.
    taken: u64,
    earlier: u64,
    // The list that the hub gets for its entries.
    spare: Vec<LogEntry>,
    // Whether entries went elsewhere. This never happens if a hub has one log.
    missed: bool,
    // Whether it continues a log, which has no last line.
    is_log: bool,
    alloc: Global,
    // The numbering of the hub's updates.
    numbers: LogHeading,
    // The limits of the hub's vector, if that may be made anew.
    lasts: Option<Limits>,
    // After how many updates of the hub its file was begun anew, and with how many elements. Both are 0 if it is the first file.
    renewed: u64,
    elements: u32,
    // How many updates the vector had when making it anew was tried without success, or 0.
    tried: u64,
    of: PhantomData<K>,
}

impl<N: Naming, W: LogWriter + Drop, K: Begun> Model for OperationLog<N, W, K> {
    ghost use Rattle.std.specs.Prelude.{◌≡◌, IfSome, is_some};
    ghost use Rattle.lv_transcript.specs.Transcribing.{state_with};
    ghost use Rattle.lv_hub.specs.Logging.{AreLasting, HoldsNothing, IsLogInFile, LogState};

    ghost Value = { LogState };

    ghost view = { λ l. record { written = state_with (W.contents l.writer) l.transcript; seen = l.prefix; taken = l.taken } };

    ghost invariant = { λ l. IsLogInFile W.made N.limits N.numbers K.there K.start l.renewed l.elements l.earlier l.is_log (record { written = state_with (W.contents l.writer) l.transcript; seen = l.prefix; taken = l.taken }) × (l.is_log ≡ is_some K.there) × (l.numbers ≡ N.numbers) × IfSome l.lasts (AreLasting N.limits) × HoldsNothing (state_with (W.contents l.writer) l.transcript) };
}

impl<N: WithBody<Six>, W: LogWriter + Drop, K: Begun> OperationLog<N, W, K> {
    /// The log of a hub that has the updates of what was there, and no others, as a share has seen them. It is a transcript that is begun here,
    /// or continues a log. All memory that it needs is allocated here, and a transcript's first line is written. From then on the hub keeps what
    /// comes for this log, and it has no other one. `lasts` has the limits of the hub's vector if the hub continues when that vector's updates
    /// are used up.
    pub fn begin<R: Wait>(
        rt: &R,
        alloc: Global,
        writer: W,
        is_log: bool,
        numbers: LogHeading,
        lasts: Option<Limits>,
        hub: &Hub<Six, N>,
        share: &Share<N>,
    ) -> Result<OperationLog<N, W, K>, AllocError>
        requires start { K.start ≡ W.contents writer }
        requires log { is_log ≡ is_some K.there }
        requires goes_on { MayGoOn K.there }
        requires numbers { numbers ≡ N.numbers }
        requires lasts { IfSome lasts (AreLasting N.limits) }
        requires seen { share.now.seen ≡ edits_there K.there }
        ensures { IfOk result (λ l. l.seen ≡ share.now.seen) }
    {
        let entries = Vec::with_capacity(alloc, ROOM)?;
        let log = OperationLog::new(alloc, writer, is_log, numbers, lasts, share)?;
        hub.tap(rt, entries);
        Ok(log)
    }

    // A log that was given nothing.
    fn new(
        alloc: Global,
        writer: W,
        is_log: bool,
        numbers: LogHeading,
        lasts: Option<Limits>,
        share: &Share<N>,
    ) -> Result<OperationLog<N, W, K>, AllocError>
        requires start { K.start ≡ W.contents writer }
        requires log { is_log ≡ is_some K.there }
        requires goes_on { MayGoOn K.there }
        requires numbers { numbers ≡ N.numbers }
        requires lasts { IfSome lasts (AreLasting N.limits) }
        requires seen { share.now.seen ≡ edits_there K.there }
        ensures { IfOk result (λ l. l.seen ≡ share.now.seen) }
    {
        let spare = Vec::with_capacity(alloc, ROOM)?;
        let mut writer = writer;
        let transcript = with_first_line(alloc, is_log, &mut writer)?;
        Ok(OperationLog {
            transcript,
            writer,
            prefix: share.prefix(),
            taken: 0,
            earlier: 0,
            spare,
            missed: false,
            is_log,
            alloc,
            numbers,
            lasts,
            renewed: 0,
            elements: 0,
            tried: 0,
            of: PhantomData,
        })
    }

    /// Makes sure that what a share has seen is written, and as many entries as are asked for. If others have recorded them, and the vector isn't
    /// due to be made anew, it writes nothing. Otherwise it writes what has come since, as `make_place` does. On success the writer has got all
    /// updates recorded so far, and what the share has seen is a prefix of them. In any case what the writer has got is a prefix of the log's
    /// present file. The fault is `WriteFault`, as in `make_place`.
    pub fn record<R: Wait>(
        &mut self,
        rt: &R,
        hub: &Hub<Six, N>,
        share: &Share<N>,
        entries: u64,
    ) -> Result<(), Fault>
        ensures all { OnOk result (HasAllOfFile W.made N.limits N.numbers K.there K.start self.new.written.contents self.new.seen self.new.taken) }
        ensures covers { OnOk result (IsPrefix share.now.seen self.new.seen) }
        ensures entries { OnOk result (entries ≤ self.new.taken) }
        ensures front { HasFrontOfFile W.made N.limits N.numbers K.there K.start self.new.written.contents self.new.seen }
        ensures more { IsPrefix self.old.seen self.new.seen }
        ensures fault { IfErr result (λ fault. fault ≡ Fault.WriteFault) }
    {
        if self.due().is_none() && self.has_all(share, entries) {
            return Ok(());
        }
        self.write_all(rt, hub);
        if !self.has_all(share, entries) {
            return Err(Fault::WriteFault);
        }
        Ok(())
    }

    /// Writes what has come since, so that the hub has room for more, and has its vector made anew if that is due. The fault is `WriteFault`: a
    /// write fails or has failed, or the vector takes no more updates and can't be made anew.
    pub fn make_place<R: Wait>(&mut self, rt: &R, hub: &Hub<Six, N>) -> Result<(), Fault>
        ensures front { HasFrontOfFile W.made N.limits N.numbers K.there K.start self.new.written.contents self.new.seen }
        ensures more { IsPrefix self.old.seen self.new.seen }
        ensures fault { IfErr result (λ fault. fault ≡ Fault.WriteFault) }
    {
        self.write_all(rt, hub);
        if self.has_failed() {
            return Err(Fault::WriteFault);
        }
        Ok(())
    }

    // Writes what has come since, and has the vector made anew if that is due.
    fn write_all<R: Wait>(&mut self, rt: &R, hub: &Hub<Six, N>)
        ensures { IsPrefix self.old.seen self.new.seen }
    {
        self.take_over(rt, hub);
        self.renew_if_due(rt, hub);
        self.missed = self.missed || self.is_worn();
    }

    // Whether all is written, has what a share has seen as a prefix, and has at least this many entries.
    fn has_all(&self, share: &Share<N>, entries: u64) -> bool
        ensures all { result ≡ true → HasAllOfFile W.made N.limits N.numbers K.there K.start self.now.written.contents self.now.seen self.now.taken }
        ensures covers { result ≡ true → IsPrefix share.now.seen self.now.seen }
        ensures entries { result ≡ true → entries ≤ self.now.taken }
        ensures front { HasFrontOfFile W.made N.limits N.numbers K.there K.start self.now.written.contents self.now.seen }
    {
        if self.has_failed() {
            return false;
        }
        if self.taken < entries {
            return false;
        }
        share.is_within(&self.prefix)
    }

    // Takes what has come since out of the hub, and writes it.
    fn take_over<R: Wait>(&mut self, rt: &R, hub: &Hub<Six, N>)
        ensures more { IsPrefix self.old.seen self.new.seen }
        ensures sent { HoldsNothing self.new.written }
    {
        self.spare.clear();
        let mut prefix = self.prefix.again();
        let Some(came) = hub.hand_over(rt, &mut prefix, &mut self.spare) else {
            self.missed = true;
            return;
        };
        let next = next_of(&self.prefix, self.renewed, self.elements, self.taken);
        let is_next = take(
            &mut self.transcript,
            &mut self.prefix,
            &mut self.taken,
            next,
            came,
            prefix,
            self.spare.as_slice(),
            &mut self.writer,
        );
        self.missed = self.missed || !is_next;
    }

    // Whether a write has failed, or something wasn't recorded. What was written is a prefix in any case.
    fn has_failed(&self) -> bool
        ensures front { HasFrontOfFile W.made N.limits N.numbers K.there K.start self.now.written.contents self.now.seen }
        ensures fine { result ≡ false → self.now.written.failed ≡ false }
    {
        self.missed || self.transcript.has_failed()
    }

    /// Lets a share of the hub see the updates that were recorded.
    pub fn show(&self, share: &mut Share<N>)
        ensures seen { IsPrefix self.now.seen share.new.seen }
        ensures more { IsPrefix share.old.seen share.new.seen }
        ensures same { share.new ≡ having_seen share.old share.new.seen }
    {
        share.learn(&self.prefix);
    }

    /// Writes what is buffered after all updates of the hub, which were recorded before, and a transcript's last line, and returns the writer.
    /// The fault is `WriteFault`: a write fails or has failed, or something wasn't recorded.
    pub fn end(self, edits: &HistoryPrefix<N>) -> (W, Result<(), Fault>)
        requires { IsPrefix self.seen edits.now }
        ensures ends { EndsInFile W.made N.limits N.numbers K.there K.start (W.contents result.0) edits.now result.1 }
        ensures fault { IfErr result.1 (λ fault. fault ≡ Fault.WriteFault) }
    {
        let is_whole = !self.missed && self.prefix.count() == edits.count();
        let OperationLog {
            transcript,
            mut writer,
            is_log,
            ..
        } = self;
        let ended = finish(transcript, is_log, &mut writer);
        if !is_whole {
            return (writer, Err(Fault::WriteFault));
        }
        (writer, ended)
    }
}

// How the hub's vector is made anew, and the log's file with it.
impl<N: WithBody<Six>, W: LogWriter + Drop, K: Begun> OperationLog<N, W, K> {
    // Has the vector made anew, if that is due. Once the hub has no room for updates, none comes until it gets room again.
    fn renew_if_due<R: Wait>(&mut self, rt: &R, hub: &Hub<Six, N>)
        ensures { IsPrefix self.old.seen self.new.seen }
    {
        let Some(limits) = self.due() else {
            return;
        };
        self.tried = self.vector_edits();
        let entries = self.close(rt, hub);
        if self.has_failed() {
            return;
        }
        self.renew(rt, hub, limits, entries);
    }

    // Whether the hub's vector takes no more updates, although it should have been made anew.
    fn is_worn(&self) -> bool {
        self.lasts.is_some() && self.vector_edits() >= WORN
    }

    // How many updates the vector has, counting those that were recorded.
    fn vector_edits(&self) -> u64 {
        let next = next_of(&self.prefix, self.renewed, self.elements, self.taken);
        next.from
    }

    // Whether it is time to make the vector anew: its updates are nearly used up, or the writer says so. After a failed try some more updates
    // must come first.
    fn is_time(&self) -> bool {
        let edits = self.vector_edits();
        if edits >= WORN {
            return true;
        }
        let waits = self.tried > 0 && edits.saturating_sub(self.tried) < PAUSE;
        !waits && (edits >= NEARLY_WORN || self.writer.is_due())
    }

    // The limits of the vector, if it is to be made anew.
    fn due(&self) -> Option<Limits>
        ensures limits { IfSome result (AreLasting N.limits) }
        ensures log { IfSome result (λ _. is_some K.there ≡ true) }
    {
        if !self.is_log || self.has_failed() || !self.is_time() {
            return None;
        }
        self.lasts
    }

    // Takes what has come since out of the hub, leaves it a list without room, and writes what came. Returns the list that the hub is to get
    // afterwards.
    fn close<R: Wait>(&mut self, rt: &R, hub: &Hub<Six, N>) -> Vec<LogEntry>
        ensures entries { result.items ≡ [] }
        ensures more { IsPrefix self.old.seen self.new.seen }
        ensures sent { HoldsNothing self.new.written }
    {
        self.spare.clear();
        let entries = mem::replace(&mut self.spare, Vec::new(self.alloc));
        self.take_over(rt, hub);
        entries
    }

    // Makes the vector anew of the elements that there are. If there is no memory for that, the hub gets its room back, and nothing is lost.
    fn renew<R: Wait>(&mut self, rt: &R, hub: &Hub<Six, N>, limits: Limits, entries: Vec<LogEntry>)
        requires limits { AreLasting N.limits limits }
        requires may { MayBeginAnew K.there self.old }
        requires entries { entries.items ≡ [] }
        ensures { self.new.seen ≡ self.old.seen }
    {
        match hub.copy_elements(rt, self.alloc, &self.prefix) {
            Ok(copied) => self.renew_of(rt, hub, limits, copied.elements(), entries),
            Err(_) => hub.tap(rt, entries),
        }
    }

    // Makes the vector anew of these elements, unless the number after which the file would begin is too great.
    fn renew_of<R: Wait>(
        &mut self,
        rt: &R,
        hub: &Hub<Six, N>,
        limits: Limits,
        elements: &[i64],
        entries: Vec<LogEntry>,
    )
        requires limits { AreLasting N.limits limits }
        requires may { MayBeginAnew K.there self.old }
        requires list { elements.now ≡ list_of self.old.seen }
        requires few { length elements.now ≤ 1048568 }
        requires all { All IsElement elements.now }
        requires entries { entries.items ≡ [] }
        ensures { self.new.seen ≡ self.old.seen }
    {
        let Some(heading) = heading_after(self.numbers, self.prefix.count(), elements) else {
            hub.tap(rt, entries);
            return;
        };
        self.renew_at(rt, hub, limits, heading, elements, entries);
    }

    // Does what `renew_of` does, for a file that begins with this first line.
    fn renew_at<R: Wait>(
        &mut self,
        rt: &R,
        hub: &Hub<Six, N>,
        limits: Limits,
        heading: LogHeading,
        elements: &[i64],
        entries: Vec<LogEntry>,
    )
        requires limits { AreLasting N.limits limits }
        requires may { MayBeginAnew K.there self.old }
        requires heading { heading ≡ heading_after N.numbers (length self.old.seen) self.old.seen }
        requires base { heading.base ≤ 2 ^ 62 }
        requires list { elements.now ≡ list_of self.old.seen }
        requires few { length elements.now ≤ 1048568 }
        requires all { All IsElement elements.now }
        requires entries { entries.items ≡ [] }
        ensures { self.new.seen ≡ self.old.seen }
    {
        match renewed(self.alloc, limits, hub.body(), elements) {
            Ok(made) => self.put_own(rt, hub, heading, elements, made, entries),
            Err(_) => hub.tap(rt, entries),
        }
    }

    // Begins the file anew with these elements, and puts the vector that has them in place of the hub's. The old vector is dropped here, without
    // holding the lock.
    fn put_own<R: Wait>(
        &mut self,
        rt: &R,
        hub: &Hub<Six, N>,
        heading: LogHeading,
        elements: &[i64],
        made: (Live<Six>, Kinds),
        entries: Vec<LogEntry>,
    )
        requires may { MayBeginAnew K.there self.old }
        requires begins { BeginsAnew N.limits N.numbers self.old.seen heading elements.now }
        requires made { IsMadeOf (vector_limits N.limits) N.body elements.now made.0 made.1 }
        requires entries { entries.items ≡ [] }
        ensures { self.new.seen ≡ self.old.seen }
    {
        let (mut live, mut kinds) = made;
        self.put(rt, hub, heading, elements, &mut live, &mut kinds, entries);
        drop(live);
        drop(kinds);
    }

    // Does what `put_own` does, with a vector that is lent. If the file can't be begun, the hub gets its room back, and continues with its old
    // vector.
    fn put<R: Wait>(
        &mut self,
        rt: &R,
        hub: &Hub<Six, N>,
        heading: LogHeading,
        elements: &[i64],
        live: &mut Live<Six>,
        kinds: &mut Kinds,
        entries: Vec<LogEntry>,
    )
        requires may { MayBeginAnew K.there self.old }
        requires begins { BeginsAnew N.limits N.numbers self.old.seen heading elements.now }
        requires made { IsMadeOf (vector_limits N.limits) N.body elements.now live.old kinds.old }
        requires entries { entries.items ≡ [] }
        ensures { self.new.seen ≡ self.old.seen }
    {
        if !self.begin_file(heading, elements) {
            hub.tap(rt, entries);
            return;
        }
        let is_renewed = hub.renew(rt, &self.prefix, live, kinds, entries);
        self.missed = self.missed || !is_renewed;
    }

    // Begins the file anew with these elements, and returns whether that succeeded.
    fn begin_file(&mut self, heading: LogHeading, elements: &[i64]) -> bool
        requires may { MayBeginAnew K.there self.old }
        requires begins { BeginsAnew N.limits N.numbers self.old.seen heading elements.now }
        ensures { self.new.seen ≡ self.old.seen }
    {
        match self.writer.begin_anew(self.alloc, heading, elements) {
            Ok(()) => {
                self.renewed = self.prefix.count();
                self.elements = heading.elements;
                self.earlier = self.taken;
                self.tried = 0;
                true
            }
            Err(_) => false,
        }
    }
}

// What must come next for a log that was given this prefix and `taken` entries, if its file was begun anew after `renewed` updates with this
// number of elements.
fn next_of<N: Naming>(prefix: &HistoryPrefix<N>, renewed: u64, elements: u32, taken: u64) -> Came
    requires some { renewed ≤ length prefix.now }
    requires elements { elements ≡ length (list_of (take renewed prefix.now)) }
    ensures from { result.from ≡ length (renewed_after renewed prefix.now) }
    ensures renewed { result.renewed ≡ renewed }
    ensures given { result.given ≡ taken }
{
    Came {
        from: u64::from(elements) + (prefix.count() - renewed),
        renewed,
        given: taken,
    }
}

// The first line of the file that begins after `edits` updates of a hub, with these elements. None if its number is too great.
fn heading_after(numbers: LogHeading, edits: u64, elements: &[i64]) -> Option<LogHeading>
    requires few { edits ≤ 2 ^ 62 }
    requires short { length elements.now ≤ 1048568 }
    ensures heading { IfSome result (λ heading. heading ≡ record { base = told_number numbers edits; elements = length elements.now }) }
    ensures base { IfSome result (λ heading. heading.base ≤ 2 ^ 62) }
{
    if numbers.base > MOST_NUMBER {
        return None;
    }
    let base = told_number(numbers, edits);
    if base > MOST_NUMBER {
        return None;
    }
    Some(LogHeading {
        base,
        elements: elements.len() as u32,
    })
}

// A transcript writer that was given nothing yet. It writes from the first line on, or continues a log.
fn unused(alloc: Global, is_log: bool) -> Result<TranscriptWriter, AllocError>
    ensures { IfOk result (λ transcript. (log : Option LogThere) → is_log ≡ is_some log → IsUnusedOf (heading_of log) (there_of log) transcript) }
{
    if is_log {
        TranscriptWriter::behind(alloc)
    } else {
        TranscriptWriter::new(alloc)
    }
}

// The transcript writer of `unused`, after it has written a transcript's first line.
fn with_first_line<W: Write>(
    alloc: Global,
    is_log: bool,
    writer: &mut W,
) -> Result<TranscriptWriter, AllocError>
    ensures given { IfOk result (λ transcript. (log : Option LogThere) → is_log ≡ is_some log
        → WasGivenOf (heading_of log) (there_of log) (W.contents writer.old) [] (state_with (W.contents writer.new) transcript)) }
    ensures sent { IfOk result (λ transcript. HoldsNothing (state_with (W.contents writer.new) transcript)) }
{
    let mut transcript = unused(alloc, is_log)?;
    transcript.flush(writer);
    Ok(transcript)
}

// Writes what is buffered, and a transcript's last line.
fn finish<W: Write>(transcript: TranscriptWriter, is_log: bool, writer: &mut W) -> Result<(), Fault>
    ensures ends { (log : Option LogThere) (start : Option (List ℕ)) (entries : List Entry) → is_log ≡ is_some log
        → WasGivenOf (heading_of log) (there_of log) start entries (state_with (W.contents writer.old) transcript) → EndsText log start (W.contents writer.new) entries result }
    ensures fault { IfErr result (λ fault. fault ≡ Fault.WriteFault) }
{
    if is_log {
        finish_log(transcript, writer)
    } else {
        transcript.end(writer)
    }
}

// Writes what is buffered for a log.
fn finish_log<W: Write>(transcript: TranscriptWriter, writer: &mut W) -> Result<(), Fault>
    ensures ends { (log : LogThere) (start : Option (List ℕ)) (entries : List Entry)
        → WasGivenOf (Some log.heading) (Some log.entries) start entries (state_with (W.contents writer.old) transcript) → EndsText (Some log) start (W.contents writer.new) entries result }
    ensures fault { IfErr result (λ fault. fault ≡ Fault.WriteFault) }
{
    let mut transcript = transcript;
    transcript.flush(writer);
    if transcript.has_failed() {
        return Err(Fault::WriteFault);
    }
    Ok(())
}

// Gives what came to a transcript writer, has it written, and returns true, if it continues what the writer was given before. Otherwise entries
// are missing, and nothing is given.
fn take<N: Naming, W: Write>(
    transcript: &mut TranscriptWriter,
    seen: &mut HistoryPrefix<N>,
    taken: &mut u64,
    next: Came,
    came: Came,
    prefix: HistoryPrefix<N>,
    entries: &[LogEntry],
    writer: &mut W,
) -> bool
    requires begins { IsPrefix seen.old prefix }
    requires next { next.from ≡ length (renewed_after next.renewed seen.old) }
    requires given { next.given ≡ taken.old }
    requires came { CameSince (renewed_after came.renewed prefix) came.from (map entry_of entries.now) }
    ensures log { (made : Option (List ℕ)) (limits : Bounds) (numbers : LogHeading) (log : Option LogThere) (start : Option (List ℕ)) (renewed elements earlier : ℕ) (is_log : Bool) → next.renewed ≡ renewed
        → IsLogInFile made limits numbers log start renewed elements earlier is_log (record { written = state_with (W.contents writer.old) transcript.old; seen = seen.old; taken = taken.old })
        → IsLogInFile made limits numbers log start renewed elements earlier is_log (record { written = state_with (W.contents writer.new) transcript.new; seen = seen.new; taken = taken.new }) }
    ensures more { IsPrefix seen.old seen.new }
    ensures sent { HoldsNothing (state_with (W.contents writer.old) transcript.old) → HoldsNothing (state_with (W.contents writer.new) transcript.new) }
{
    if !is_next(came, next, entries.len()) {
        return false;
    }
    give_all(transcript, entries, writer);
    transcript.flush(writer);
    *seen = prefix;
    *taken = came.given;
    true
}

// Whether what came is what comes next, with this number of entries.
fn is_next(came: Came, next: Came, count: usize) -> bool
    ensures from { result ≡ true → came.from ≡ next.from }
    ensures renewed { result ≡ true → came.renewed ≡ next.renewed }
    ensures given { result ≡ true → came.given ≡ next.given + count }
{
    came.renewed == next.renewed
        && came.from == next.from
        && next.given <= came.given
        && came.given - next.given == count as u64
}

// Gives entries to a transcript writer.
fn give_all<W: Write>(transcript: &mut TranscriptWriter, entries: &[LogEntry], writer: &mut W)
    ensures { Adds (state_with (W.contents writer.old) transcript.old) (map entry_of entries.now) (state_with (W.contents writer.new) transcript.new) }
{
    for entry in entries {
        give(transcript, entry, writer);
    }
}

// Gives an entry to a transcript writer.
fn give<W: Write>(transcript: &mut TranscriptWriter, entry: &LogEntry, writer: &mut W)
    ensures { Adds (state_with (W.contents writer.old) transcript.old) (entry_of entry.now ∷ []) (state_with (W.contents writer.new) transcript.new) }
{
    match entry {
        LogEntry::Edit(edit) => transcript.edit(edit, writer),
        LogEntry::Answer(answer) => transcript.answer(answer, writer),
    }
}
