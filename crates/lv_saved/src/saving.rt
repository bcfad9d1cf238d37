//! A series, or samples, as bytes.
ghost use Rattle.std.specs.Prelude.{◌≡◌, ◌%◌, length};
ghost use Rattle.lv_saved.specs.Saved.{IsPiece, bytes_of, saved_samples, saved_series};

use crate::fronts::make_head;
use crate::pieces::write_piece;
use lv_series::{Samples, Series};

// The elements of a series, which are next to each other in memory.
fn all_elements(series: &Series) -> &[i64]
    ensures { result.now ≡ series.now.held.elements }
{
    match series.elements(series.first(), series.size()) {
        Ok(elements) => elements,
        Err(_) => unreachable!(),
    }
}

/// How many bytes `save` writes of a series: 88, and 8 for each element. O(1).
pub fn saved_bytes(series: &Series) -> u64
    ensures { result ≡ length (bytes_of (saved_series series.now)) }
{
    series.holds();
    88 + 8 * (series.size() - series.first())
}

/// Writes the bytes of a series from the place `from` on, which is a multiple of 8, as many as fit into a buffer in whole numbers of 8 bytes, and
/// returns how many these are. That is 0 if `from` is at the end, or if the buffer is shorter than 8. So a series of any size is saved in pieces,
/// where each piece begins where the one before ended. An edit between two pieces changes what the rest is a part of, so compare `edits()` before
/// the first piece and after the last one. Takes no memory. O(1) for each number, and O(n) more in the piece that has the checksum.
pub fn save(series: &Series, from: u64, into: &mut [u8]) -> usize
    requires { from % 8 ≡ 0 }
    ensures { IsPiece (bytes_of (saved_series series.now)) from into.old result into.new }
{
    series.holds();
    let elements = all_elements(series);
    let head = make_head(
        series.automaton(),
        false,
        series.first(),
        series.edits(),
        elements.len() as u64,
    );
    write_piece(&head, elements, &[], from, into)
}

// The times of samples, which are next to each other in memory.
fn all_times(samples: &Samples) -> &[i64]
    ensures { result.now ≡ samples.now.times }
{
    samples.holds();
    let series = samples.series();
    match samples.times(series.first(), series.size()) {
        Ok(times) => times,
        Err(_) => unreachable!(),
    }
}

/// How many bytes `save_samples` writes of samples: 88, and 16 for each. O(1).
pub fn saved_samples_bytes(samples: &Samples) -> u64
    ensures { result ≡ length (bytes_of (saved_samples samples.now)) }
{
    samples.holds();
    let series = samples.series();
    series.holds();
    88 + 16 * (series.size() - series.first())
}

/// Writes the bytes of samples, as `save` writes those of a series. Compare `series().edits()` before the first piece and after the last one.
pub fn save_samples(samples: &Samples, from: u64, into: &mut [u8]) -> usize
    requires { from % 8 ≡ 0 }
    ensures { IsPiece (bytes_of (saved_samples samples.now)) from into.old result into.new }
{
    samples.holds();
    let series = samples.series();
    series.holds();
    let elements = all_elements(series);
    let head = make_head(
        series.automaton(),
        true,
        series.first(),
        series.edits(),
        elements.len() as u64,
    );
    write_piece(&head, elements, all_times(samples), from, into)
}
