//! Elements of a range that were copied out, to be scanned while the vector is edited.
ghost use Rattle.std.specs.Prelude.{◌≡◌, ◌≤◌, ◌^◌, All, IfOk, IfErr, length};
ghost use Rattle.lv_geometry.specs.Elements.{IsElement};
ghost use Rattle.lv_reduce.specs.Answer.{IsScanRefusal, scan_of};
ghost use Rattle.lv_reduce.specs.Stretch.{IsStretch};

use crate::parallel::{copy_range, par_scan_slice, scan_alone, tell_elements};
use crate::scans::Scan;
use crate::values::Values;
use lv_bodies::Body;
use lv_edits::{Edits, refusal_of};
use lv_geometry::Refusal;
use std::alloc::Global;
use std::marker::Model;
use std::thread::Threads;

/// The elements of a range, copied out of a vector, so that it may be edited while they are scanned.
#[derive(Drop)]
pub struct Stretch<B> {
    body: B,
    edit: u32,
    elements: Vec<i64>,
}

impl<B> Model for Stretch<B> {
    ghost use Rattle.std.specs.Prelude.{◌≤◌, ◌^◌, length};
    ghost use Rattle.lv_reduce.specs.Stretch.{StretchState};

    ghost Value = { StretchState B };

    ghost view = { λ a. record { body = a.body; edit = a.edit; elements = a.elements.items } };

    ghost invariant = { λ a. length a.elements.items ≤ 2 ^ 20 };
}

impl<B: Body> Stretch<B> {
    /// Copies the elements from index `lo` up to `hi`. Refused with `BadRange`, `OutOfRange`, then `NoMemory`; the room for all is
    /// made at once.
    pub fn copy(
        alloc: Global,
        history: &Edits,
        body: B,
        lo: u32,
        hi: u32,
    ) -> Result<Stretch<B>, Refusal>
        ensures ok { IfOk result (λ stretch. IsStretch history.now.journal lo hi stretch) }
        ensures body { IfOk result (λ stretch. stretch.body ≡ body) }
        ensures err { IfErr result (λ refusal. IsScanRefusal history.now.journal lo hi refusal) }
    {
        if let Some(refusal) = refusal_of(history, lo, hi) {
            return Err(refusal);
        }
        let Ok(elements) = copy_range(alloc, history, lo, hi) else {
            return Err(Refusal::NoMemory);
        };
        Ok(Stretch {
            body,
            edit: history.edit(),
            elements,
        })
    }

    /// The number of the edit after which they were copied.
    pub fn edit(&self) -> u32
        ensures { result ≡ self.now.edit }
    {
        self.edit
    }

    /// The elements.
    pub fn elements(&self) -> &[i64]
        ensures same { result.now ≡ self.now.elements }
        ensures few { length result.now ≤ 2 ^ 20 }
        ensures elements { All IsElement result.now }
    {
        let elements = self.elements.as_slice();
        tell_elements(elements);
        elements
    }

    /// One of the two scans of the elements, with the number of the edit after which they were copied, by as many threads as pay. `NoMemory` is
    /// its only refusal.
    pub fn scan<R: Threads + Sync>(
        &self,
        rt: &R,
        alloc: Global,
        inclusive: bool,
    ) -> Result<Scan<B::S>, Refusal>
        ensures edit { IfOk result (λ scan. scan.edit ≡ self.now.edit) }
        ensures values { IfOk result (λ scan. scan.values ≡ scan_of inclusive (B.operations self.now.body) self.now.elements) }
        ensures err { IfErr result (λ refusal. refusal ≡ Refusal.NoMemory) }
    {
        let values = par_scan_slice(rt, alloc, &self.body, self.elements.as_slice(), inclusive)?;
        Ok(Scan {
            edit: self.edit,
            values,
        })
    }

    /// One of the two scans of the elements, with the number of the edit after which they were copied, by the calling thread only. `NoMemory` is
    /// its only refusal.
    pub fn scan_alone(&self, alloc: Global, inclusive: bool) -> Result<Scan<B::S>, Refusal>
        ensures edit { IfOk result (λ scan. scan.edit ≡ self.now.edit) }
        ensures values { IfOk result (λ scan. scan.values ≡ scan_of inclusive (B.operations self.now.body) self.now.elements) }
        ensures err { IfErr result (λ refusal. refusal ≡ Refusal.NoMemory) }
    {
        let Ok(values) = scan_alone(alloc, &self.body, self.elements.as_slice(), inclusive) else {
            return Err(Refusal::NoMemory);
        };
        Ok(Scan {
            edit: self.edit,
            values: Values::from_vec(values),
        })
    }
}
