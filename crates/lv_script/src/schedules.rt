//! Schedules: each line is an event on a machine.
ghost use Rattle.std.specs.Prelude.{◌≡◌, ◌++◌};
ghost use Rattle.lv_lines.specs.Output.{HasRoom, KeepsRoom};
ghost use Rattle.lv_lines.specs.Replies.{LinesServed};
ghost use Rattle.lv_script.specs.Played.{Played, PlayedStep};
ghost use Rattle.lv_script.specs.Schedule.{ScheduleStep, actor_of, event_text, sum_step};

use crate::schedule_lines::read_schedule_line;
use crate::schedule_replies::{EVENT, put_outcome};
use lv_bodies::Sum;
use lv_lines::{Fault, LineHandler, MOST_READ, ReplyBuffer, command_of, serve_lines};
use lv_machine::{Event, Machine};
use std::alloc::Global;
use std::io::{Read, Write};

/// Answers a schedule on a machine: reads its lines, does the event that each says, and writes what it comes to, until the
/// reader ends. The machine may have calls under way when it begins, and when it ends.
///
/// Ends with the faults of a script. What was done before a fault stays done.
pub fn run_schedule<R: Read, W: Write>(
    alloc: Global,
    machine: &mut Machine<Sum>,
    reader: &mut R,
    writer: &mut W,
) -> Result<(), Fault>
    ensures { LinesServed ScheduleStep machine.old machine.new
        (R.remaining reader.old) (R.remaining reader.new) (W.contents writer.old) (W.contents writer.new) result }
{
    let mut player = Player { machine };
    serve_lines(MOST_READ, alloc, &mut player, reader, writer)
}

// The handler of a schedule's lines, which plays it on a machine.
#[derive(Drop)]
struct Player<'m> {
    machine: &'m mut Machine<Sum>,
}

impl<W: Write> LineHandler<W> for Player<'_> {
    ghost State = { Played };

    ghost state = { λ p. record { machine = p.machine.now; place = p.machine.ghost_name } };

    ghost step = { PlayedStep };

    ghost may_send = { λ _. Unit {0} };

    fn handle(
        &mut self,
        number: u32,
        line: &[u8],
        buffer: &mut ReplyBuffer<'_, W>,
    ) -> Result<(), Fault> {
        buffer.make_room(EVENT)?;
        match command_of(number, read_schedule_line(line), buffer.held) {
            Some(event) => {
                answer_event(self.machine, event, buffer.held);
                Ok(())
            }
            None => Ok(()),
        }
    }

    fn before_send(&self) -> Result<(), Fault> {
        Ok(())
    }
}

// Does an event, and puts what it comes to. The block is that of the actor's call before the event.
fn answer_event(machine: &mut Machine<Sum>, event: Event, held: &mut Vec<u8>)
    requires { HasRoom held.old EVENT }
    ensures machine { machine.new ≡ (sum_step machine.old event).0 }
    ensures text { held.new.items ≡ held.old.items ++ event_text machine.old event }
    ensures room { KeepsRoom held.old held.new }
{
    let actor = actor_of(event);
    let block = machine.refreshing(actor).unwrap_or(0);
    let outcome = machine.step(event);
    put_outcome(held, actor, block, outcome);
}

// Whose event it is.
fn actor_of(event: Event) -> u32
    ensures { result ≡ actor_of event }
{
    match event {
        Event::Call { actor, .. } | Event::Step { actor } => actor,
    }
}
