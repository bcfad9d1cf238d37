//! Writers of logs that last.
ghost use Rattle.std.specs.Prelude.{◌≡◌, ◌≤◌, ℕ, List, None, OnErr, OnOk, Option, length};
ghost use Rattle.lv_transcript.specs.Logs.{HasLog};

use crate::log_heading::LogHeading;
use lv_lines::Fault;
use std::alloc::Global;
use std::io::Write;

/// A writer of a log, whose file may be begun anew.
pub trait LogWriter: Write {
    // The bytes that a writer has received for a file that was just made.
    ghost made: { Option (List ℕ) } = { None };

    /// Whether the file is to be begun anew, for example because it is long.
    fn is_due(&self) -> bool {
        false
    }

    /// Begins the log anew, of these elements, in another file, which takes the place of the one that was written so far. Then the writer writes
    /// there. If that fails, the file that was written so far is still the log.
    fn begin_anew(
        &mut self,
        _alloc: Global,
        _heading: LogHeading,
        _elements: &[i64],
    ) -> Result<(), Fault>
        requires count { _heading.elements ≡ length _elements.now }
        requires few { length _elements.now ≤ 1048568 }
        ensures begun { OnOk result (HasLog Self.made _heading _elements.now (Self.contents self.new)) }
        ensures same { OnErr result (Self.contents self.new ≡ Self.contents self.old) }
    {
        Err(Fault::WriteFault)
    }
}
