//! Bytes as a series, or as samples.
ghost use Rattle.std.specs.Prelude.{◌≡◌, ◌++◌, [], true, false, IfErr, IfOk, IsErrOf, OnErr, OnOk};
ghost use Rattle.lv_saved.specs.Readings.{IsNoneSaved};
ghost use Rattle.lv_saved.specs.Saved.{bytes_of, saved_samples, saved_series};
ghost use Rattle.lv_series.specs.Plain.{no_kinds};

use crate::reading::read;
use crate::refusals::LoadRefusal;
use crate::restoring::{restore, restore_samples};
use lv_series::{Samples, Series};
use std::alloc::Global;
use std::marker::Model;

/// Takes in the bytes that `save` wrote, in pieces of any length, and makes them a series again, or samples.
#[derive(Drop)]
pub struct Loader {
    bytes: Vec<u8>,
}

impl Model for Loader {
    ghost use Rattle.std.specs.Prelude.{ℕ, List};

    ghost Value = { List ℕ };

    ghost view = { λ a. a.bytes.items };
}

impl Loader {
    /// A loader that was given nothing yet. Takes no memory.
    pub fn new(alloc: Global) -> Loader
        ensures { result ≡ [] }
    {
        Loader {
            bytes: Vec::new(alloc),
        }
    }

    /// Takes in bytes after the others. Refused with `NoMemory`, and nothing has changed then.
    pub fn give(&mut self, bytes: &[u8]) -> Result<(), LoadRefusal>
        ensures ok { OnOk result (self.new ≡ self.old ++ bytes.now) }
        ensures same { OnErr result (self.new ≡ self.old) }
        ensures err { IfErr result (λ refusal. refusal ≡ LoadRefusal.NoMemory) }
    {
        if self.bytes.extend_from_slice(bytes).is_ok() {
            Ok(())
        } else {
            Err(LoadRefusal::NoMemory)
        }
    }

    /// The series whose bytes it was given. No kind has a tree. O(n): at most the bytes, and twice the elements, are in memory at once. Refused
    /// with `Damaged` if no series has these bytes, and with `NoMemory`.
    pub fn series(self, alloc: Global) -> Result<Series, LoadRefusal>
        ensures series { IfOk result (λ s. bytes_of (saved_series s) ≡ self) }
        ensures kinds { IfOk result (λ s. s.kinds ≡ no_kinds) }
        ensures damaged { IsErrOf result LoadRefusal.Damaged → IsNoneSaved self false }
    {
        let reading = read(alloc, self.bytes.as_slice(), false);
        drop(self);
        restore(alloc, reading)
    }

    /// The samples whose bytes it was given. No kind has a tree. O(n): at most the bytes, and twice the values and times, are in memory at once.
    /// Refused with `Damaged` if no samples have these bytes, and with `NoMemory`.
    pub fn samples(self, alloc: Global) -> Result<Samples, LoadRefusal>
        ensures samples { IfOk result (λ s. bytes_of (saved_samples s) ≡ self) }
        ensures kinds { IfOk result (λ s. s.series.kinds ≡ no_kinds) }
        ensures damaged { IsErrOf result LoadRefusal.Damaged → IsNoneSaved self true }
    {
        let reading = read(alloc, self.bytes.as_slice(), true);
        drop(self);
        restore_samples(alloc, reading)
    }
}
