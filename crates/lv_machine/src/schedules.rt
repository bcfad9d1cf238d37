//! The law that each event of a schedule is one move, as a function that does nothing.
ghost use Rattle.lv_machine.specs.Schedules.{EveryEventIsOneMove, HistoriesGrow};

use lv_bodies::Parted;

/// A list of events from the start has one history: the updates whose compare-and-swap found the actor's look, each with its actor. With this
/// history, the words and looks are those of a state that moves reach. Each further event makes the next move of the actor's call, which is
/// allowed there, or no move. The history grows only by what that move adds, so the history of a list is an earlier state of that of each longer
/// one. A call that ends by the event was answered from the history after it. An accepted update is the last entry of that history, and the call
/// returns its receipt there. A get, a size, a reduction and a refresh return what holds after the updates that the look shows, and the refusals
/// `Worn`, `Empty`, `OutOfRange` and `Full` are those of these updates. `Contended` has the number of updates that there are, more than the look
/// showed, and `Overtaken` an update that the look doesn't show. A refused event changes nothing.
pub fn every_event_is_one_move<B: Parted>()
    ensures moves { (body : B) → EveryEventIsOneMove (B.operations body) B.PARTS B.parts_of B.whole_of body }
    ensures grows { (body : B) → HistoriesGrow B (B.operations body) B.PARTS B.parts_of B.whole_of }
{}
