//! The replies to the events of a schedule.
ghost use Rattle.std.specs.Prelude.{◌≡◌, ◌*◌, ◌++◌};
ghost use Rattle.lv_lines.specs.Output.{HasRoom, KeepsRoom};
ghost use Rattle.lv_script.specs.Schedule.{outcome_text, said_shown, said_text};

use crate::refresh_replies::put_fresh;
use lv_bodies::{Kind, Shown, Single, Sum};
use lv_lines::{LINE, put, put_answer, put_found, put_number, put_receipt, put_refusal, put_size};
use lv_machine::{Outcome, Said};
use lv_reduce::Answer;

/// The greatest number of bytes of a reply to an event: a line, after the words that say whose call has ended.
pub const EVENT: usize = 2 * LINE;

/// Puts the outcome of an actor's event. A refresh that ends with it is one of the block.
pub fn put_outcome(held: &mut Vec<u8>, actor: u32, block: u32, outcome: Outcome<u64>)
    requires { HasRoom held.old EVENT }
    ensures text { held.new.items ≡ held.old.items ++ outcome_text actor block outcome }
    ensures room { KeepsRoom held.old held.new }
{
    match outcome {
        Outcome::Started => {
            put(held, b"started ");
            put_number(held, actor.into());
            put(held, b"\n");
        }
        Outcome::Going => {
            put(held, b"step ");
            put_number(held, actor.into());
            put(held, b"\n");
        }
        Outcome::Done(said) => {
            put(held, b"done ");
            put_number(held, actor.into());
            put(held, b" ");
            put_said(held, Kind::Sum, block, said_shown(&Sum, said));
        }
        Outcome::Refused(refusal) => put_refusal(held, refusal),
    }
}

/// The result of a call, with a fold replaced by its output.
pub fn said_shown<B: Single>(body: &B, said: Said<B::S>) -> Said<Shown>
    ensures { result ≡ said_shown (B.shown_as body.now) said }
{
    match said {
        Said::Did(receipt) => Said::Did(receipt),
        Said::Read(read) => Said::Read(read),
        Said::Sized(sized) => Said::Sized(sized),
        Said::Answered(answer) => Said::Answered(Answer {
            edit: answer.edit,
            value: body.shown(answer.value),
            cells_read: answer.cells_read,
            summaries_read: answer.summaries_read,
        }),
        Said::Refreshed(refreshed) => Said::Refreshed(refreshed),
        Said::Refused(refusal) => Said::Refused(refusal),
    }
}

/// Puts the result of a call. A fold is one of the kind, and a refresh one of the block.
pub fn put_said(held: &mut Vec<u8>, kind: Kind, block: u32, said: Said<Shown>)
    requires { HasRoom held.old LINE }
    ensures text { held.new.items ≡ held.old.items ++ said_text kind block said }
    ensures room { KeepsRoom held.old held.new }
{
    match said {
        Said::Did(receipt) => put_receipt(held, receipt),
        Said::Read(read) => put_found(held, read.value),
        Said::Sized(sized) => put_size(held, sized.size.into(), sized.edit.into()),
        Said::Answered(answer) => put_answer(held, answer.edit.into(), kind, answer.value),
        Said::Refreshed(refreshed) => put_fresh(held, block, refreshed.version),
        Said::Refused(refusal) => put_refusal(held, refusal),
    }
}
