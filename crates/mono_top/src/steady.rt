// The top call over a source and a sink that fail in no other way than for want of room.
ghost use Rattle.std.specs.Prelude.{◌≡◌, ◌≢◌, Some};
ghost use Rattle.outside_io.specs.Seen.{since};
ghost use Rattle.mono_top.specs.Answer.{Answers};
ghost use Rattle.mono_top.specs.Causes.{IsAnswerable, GoesThrough};
ghost use Rattle.mono_top.specs.Ending.{WritesDue};
ghost use Rattle.mono_top.specs.Request.{asked, files_of};
ghost use Rattle.mono_top.specs.Steady.{AllHeld, HasRoom};

use crate::status::Status;
use crate::top::run;
use mono_curve::Steps;
use outside_io::{Shelf, SteadyShelf, SteadySink};
use std::alloc::Global;
use std::sync::ledger::Ledger;

/// Does what `run` does. Where the files of the words are held, and the sink has room for each text that is due, neither
/// a file nor the sink ends the call.
pub fn run_steadily<L: Ledger>(
    alloc: Global,
    words: &[String],
    shelf: &mut SteadyShelf,
    out: &mut SteadySink,
    steps: &mut Steps<L>,
) -> Status
    ensures read { result ≢ Status.ReadFault }
    ensures held { AllHeld shelf.old.holds (files_of (asked words.now)) → result ≢ Status.Missing }
    ensures room { HasRoom (asked words.now) (⟦<SteadyShelf as Shelf>⟧.seen shelf.old) out.old.room
        → result ≢ Status.WriteFault }
    ensures answered { IsAnswerable shelf.old.holds (asked words.now)
        → HasRoom (asked words.now) (⟦<SteadyShelf as Shelf>⟧.seen shelf.old) out.old.room
        → GoesThrough result }
    ensures written { result ≢ Status.WriteFault → result ≢ Status.NoMemory
        → WritesDue (Answers (asked words.now) (since (⟦<SteadyShelf as Shelf>⟧.seen shelf.old) (⟦<SteadyShelf as Shelf>⟧.seen shelf.new)))
        (Some out.old.written) (Some out.new.written) result }
{
    run(alloc, words, shelf, out, steps)
}
