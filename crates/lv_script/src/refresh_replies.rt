//! The replies about jobs, refreshes and costs.
ghost use Rattle.std.specs.Prelude.{◌≡◌, ◌++◌};
ghost use Rattle.lv_lines.specs.Output.{HasRoom, KeepsRoom};
ghost use Rattle.lv_lines.specs.Texts.{accepted_text, cost_text, forgotten_text, fresh_text, idle_text, job_text};

use lv_geometry::Node;
use lv_lines::{LINE, put, put_number};
use lv_summary::Accepted;

/// How many cells and summaries a reduction reads.
pub fn put_cost(held: &mut Vec<u8>, cells: u32, summaries: u32)
    requires { HasRoom held.old LINE }
    ensures text { held.new.items ≡ held.old.items ++ cost_text cells summaries }
    ensures room { KeepsRoom held.old held.new }
{
    put(held, b"cells ");
    put_number(held, cells.into());
    put(held, b" summaries ");
    put_number(held, summaries.into());
    put(held, b"\n");
}

/// A job that is handed out: its number, and the node and the version that it is for.
pub fn put_job(held: &mut Vec<u8>, number: u64, node: Node, version: u32)
    requires { HasRoom held.old LINE }
    ensures text { held.new.items ≡ held.old.items ++ job_text number node version }
    ensures room { KeepsRoom held.old held.new }
{
    put(held, b"job ");
    put_number(held, number);
    put(held, b" node ");
    put_number(held, node.level.into());
    put(held, b" ");
    put_number(held, node.number.into());
    put(held, b" version ");
    put_number(held, version.into());
    put(held, b"\n");
}

/// Puts the reply that no node needs a task.
pub fn put_idle(held: &mut Vec<u8>)
    requires { HasRoom held.old LINE }
    ensures text { held.new.items ≡ held.old.items ++ idle_text }
    ensures room { KeepsRoom held.old held.new }
{
    put(held, b"idle\n");
}

/// Puts the reply to a delivery: what became of the result.
pub fn put_accepted(held: &mut Vec<u8>, accepted: Accepted)
    requires { HasRoom held.old LINE }
    ensures text { held.new.items ≡ held.old.items ++ accepted_text accepted }
    ensures room { KeepsRoom held.old held.new }
{
    match accepted {
        Accepted::Installed => put(held, b"installed\n"),
        Accepted::Held => put(held, b"held\n"),
        Accepted::Stale { now } => {
            put(held, b"stale ");
            put_number(held, now.into());
            put(held, b"\n");
        }
    }
}

/// That the parts of a block's summary were made, at a version.
pub fn put_fresh(held: &mut Vec<u8>, block: u32, version: u32)
    requires { HasRoom held.old LINE }
    ensures text { held.new.items ≡ held.old.items ++ fresh_text block version }
    ensures room { KeepsRoom held.old held.new }
{
    put(held, b"fresh ");
    put_number(held, block.into());
    put(held, b" version ");
    put_number(held, version.into());
    put(held, b"\n");
}

/// That every claim is void.
pub fn put_forgotten(held: &mut Vec<u8>)
    requires { HasRoom held.old LINE }
    ensures text { held.new.items ≡ held.old.items ++ forgotten_text }
    ensures room { KeepsRoom held.old held.new }
{
    put(held, b"forgotten\n");
}
