//! Scripts on a series: the loop over their lines.
ghost use Rattle.std.specs.Prelude.{List, ℕ, OnOk};
ghost use Rattle.std.specs.Io.KnownBytes.{Appends, Consumes, IsAtEnd};
ghost use Rattle.lv_lines.specs.Replies.{LinesServed};
ghost use Rattle.lv_script.specs.Inside.{SeriesStep};
ghost use Rattle.lv_script.specs.Interpreter.{IsPlainText, NeverWants, PlainStep};
ghost use Rattle.lv_script.specs.PlainSeriesScript.{PlainSeries, series_script, start_series};

mod answers;
mod queries;
mod searches;
mod texts;
mod values;

use crate::long_grammar::read_long_line;
use crate::series_scripts::answers::answer;
use crate::watch_replies::ROOM;
use lv_bodies::Automaton;
use lv_lines::{Fault, LineHandler, MOST_READ, ReplyBuffer, command_of, serve_lines};
use lv_series::Series;
use lv_standing::{Note, Query, QuerySet};
use std::alloc::Global;
use std::io::{Read, Write};
use std::marker::Model;

/// Answers a script on a new series: reads its lines, and writes the reply to each, until the reader ends.
///
/// The fault is `NoMemory` if there was no memory to begin with; nothing is read or written then. It is `ReadFault` if a read fails, and
/// `TooLong` if the input has more than 2^30 bytes; then the replies to all whole lines that were read are written. It is `WriteFault` if a
/// write fails or takes no byte; then a prefix of the replies was written.
pub fn run_series_script<R: Read, W: Write>(
    alloc: Global,
    reader: &mut R,
    writer: &mut W,
) -> Result<(), Fault>
    // Line by line the replies are those of the reference interpreter, which knows only what is kept and the registered queries.
    ensures plain { (last : PlainSeries) × LinesServed (PlainStep series_script) start_series last
        (R.remaining reader.old) (R.remaining reader.new) (W.contents writer.old) (W.contents writer.new) result }
    // If the input was read to its end, all that was written is the reference interpreter's text, unless a line reports `NoMemory` (out of memory).
    ensures text { OnOk result ((input : List ℕ) × (text : List ℕ) × Consumes (R.remaining reader.old) (R.remaining reader.new) input × IsAtEnd (R.remaining reader.new)
        × Appends (W.contents writer.old) (W.contents writer.new) text × (NeverWants text → IsPlainText series_script start_series input text)) }
{
    let mut script = SeriesScript {
        series: Series::new(alloc, Automaton::program()),
        queries: QuerySet::new(alloc, 64),
        notes: Vec::new(alloc),
    };
    let ended = serve_lines(MOST_READ, alloc, &mut script, reader, writer);
    drop(script);
    ended
}

// The handler of a script's lines: a series, and the registered queries.
#[derive(Drop)]
struct SeriesScript {
    series: Series,
    queries: QuerySet<Query>,
    // room for a note of each query, which serves from one edit to the next
    notes: Vec<Note>,
}

impl Model for SeriesScript {
    ghost use Rattle.std.specs.Prelude.{vec_capacity};
    ghost use Rattle.lv_script.specs.Inside.{IsReady, known_of};
    ghost use Rattle.lv_script.specs.PlainSeriesScript.{PlainSeries};

    ghost Value = { PlainSeries };

    ghost view = { λ a. known_of a.series a.queries.queries };

    ghost invariant = { λ a. IsReady a.series a.queries (vec_capacity a.notes) };
}

impl<W: Write> LineHandler<W> for SeriesScript {
    ghost State = { PlainSeries };

    ghost state = { λ s. s };

    ghost step = { SeriesStep };

    ghost may_send = { λ _. Unit {0} };

    fn handle(
        &mut self,
        number: u32,
        line: &[u8],
        buffer: &mut ReplyBuffer<'_, W>,
    ) -> Result<(), Fault> {
        buffer.make_room(ROOM)?;
        match command_of(number, read_long_line(line), buffer.held) {
            Some(command) => answer(
                &mut self.series,
                &mut self.queries,
                &mut self.notes,
                command,
                buffer,
            ),
            None => Ok(()),
        }
    }

    fn before_send(&self) -> Result<(), Fault> {
        Ok(())
    }
}
