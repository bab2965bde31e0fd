// The top call.
ghost use Rattle.std.specs.Prelude.{◌≡◌, ◌≢◌, ◌⊎◌, ℕ, ◌+◌, List, [], None, IsSome};
ghost use Rattle.std.specs.Option.{ForSome};
ghost use Rattle.theory.specs.Grounded.{Entries};
ghost use Rattle.model_text.specs.declared.fault.FaultWord.{FaultWord as Fault};
ghost use Rattle.model_text.specs.declared.scale.Scale.{Scale};
ghost use Rattle.outside_io.specs.Counts.{Rose, Counts};
ghost use Rattle.outside_io.specs.Seen.{Moves, since};
ghost use Rattle.warm_solve.specs.ChangesText.{Change};
ghost use Rattle.mono_top.specs.Answer.{Answers};
ghost use Rattle.mono_top.specs.Causes.{Asks, AsksChanges, AsksFaulty, AsksFaultyChanges, AsksToCheck, AsksInexact, AsksInvalid, AsksNoFlow, AsksTooBig, AsksTrial, AsksUnbounded, AsksUnknownArc, AsksUnknownNode, AreNodes, ComesAlways, ComesBy, EndsTrial, IsAnswerable, IsUnhindered, GoesThrough};
ghost use Rattle.mono_top.specs.CountsReadings.{CountsReadings};
ghost use Rattle.mono_top.specs.Headline.{Concludes, ConcludesCheck, ConcludesFeasible, ConcludesFlow, ConcludesTension, ConcludesResolve};
ghost use Rattle.mono_top.specs.Ending.{WritesDue, WritesPart};
ghost use Rattle.mono_top.specs.Reading.{ReachesMissing, ReachesPastMost, ReachesTooLong, HoldsFirst};
ghost use Rattle.mono_top.specs.Request.{asked, files_of, solve, feasible, greatest_flow, greatest_tension};
ghost use Rattle.mono_top.specs.Starts.{StartsFiles};
ghost use Rattle.mono_top.specs.TableFiles.{AsksTable, AsksFaultyTable};
ghost use Rattle.mono_top.specs.Transports.{ConcludesTable};
ghost use Rattle.transport_front.specs.Table.{Table};
ghost use Rattle.transport_front.specs.declared.fault.TableWord.{TableWord as TableFault};

use crate::answer::reply_to;
use crate::status::Status;
use mono_curve::Steps;
use outside_io::{Shelf, Sink, Written, write_all};
use std::alloc::Global;
use std::sync::ledger::Ledger;

/// Does what the words after the program's name ask for. The whole text is made before its first byte is written.
pub fn run<S: Shelf, K: Sink, L: Ledger>(
    alloc: Global,
    words: &[String],
    shelf: &mut S,
    out: &mut K,
    steps: &mut Steps<L>,
) -> Status
    // What is written.
    ensures written { result ≢ Status.WriteFault → result ≢ Status.NoMemory
        → WritesDue (Answers (asked words.now) (since (S.seen shelf.old) (S.seen shelf.new)))
        (K.written out.old) (K.written out.new) result }
    ensures part { result ≡ Status.WriteFault
        → WritesPart (Answers (asked words.now) (since (S.seen shelf.old) (S.seen shelf.new)))
        (K.written out.old) (K.written out.new) (K.sure out.old) }
    ensures nothing { result ≡ Status.NoMemory → out.new ≡ out.old }

    // The certificate of a model: an optimum over all fractions, or why there is none.
    ensures headline { IsUnhindered result → ForSome (S.seen shelf.old).holds (λ files. (s : Scale) (m : Entries)
        → Asks files solve s m (asked words.now)
        → Concludes s m result (K.written out.old) (K.written out.new)) }

    // A text from anywhere is accepted exactly where it is that of a valid certificate.
    ensures checked { IsUnhindered result → ForSome (S.seen shelf.old).holds (λ files.
        (s : Scale) (m : Entries) (text : List ℕ) → AsksToCheck files s m text (asked words.now)
        → ConcludesCheck s m text result) }

    // Whether there are a flow and a potential that are feasible, over any fractions.
    ensures feasible { IsUnhindered result → ForSome (S.seen shelf.old).holds (λ files. (s : Scale) (m : Entries)
        → Asks files feasible s m (asked words.now) → ConcludesFeasible m result) }

    // What a model comes to after each of its changes.
    ensures resolve { IsUnhindered result → ForSome (S.seen shelf.old).holds (λ files. (s : Scale) (m : Entries) (changes : List Change)
        → AsksChanges files s m changes (asked words.now)
        → ConcludesResolve s m changes result (K.written out.old) (K.written out.new)) }

    // A greatest flow and a greatest tension between two nodes, over all fractions, or why there is none.
    ensures maxflow { IsUnhindered result → ForSome (S.seen shelf.old).holds (λ files. (s : Scale) (m : Entries) (from to : List ℕ) (i k : ℕ)
        → Asks files (greatest_flow from to) s m (asked words.now) → AreNodes m from to i k
        → ConcludesFlow s m (i + 1) (k + 1) result (K.written out.old) (K.written out.new)) }
    ensures maxtension { IsUnhindered result → ForSome (S.seen shelf.old).holds (λ files. (s : Scale) (m : Entries) (from to : List ℕ) (i k : ℕ)
        → Asks files (greatest_tension from to) s m (asked words.now) → AreNodes m from to i k
        → ConcludesTension s m (i + 1) (k + 1) result (K.written out.old) (K.written out.new)) }

    // The plan of a table: none undercuts it, over all fractions; or plants and shops that fall short, where there is none.
    ensures transport { IsUnhindered result → ForSome (S.seen shelf.old).holds (λ files. (t : Table)
        → AsksTable files t (asked words.now)
        → ConcludesTable t result (K.written out.old) (K.written out.new)) }

    // A trial names no file, so that nothing of the source bears on it.
    ensures trial { AsksTrial (asked words.now) → EndsTrial result }

    // When each refusal comes.
    ensures usage { result ≡ Status.Usage → asked words.now ≡ None }
    ensures usage_always { asked words.now ≡ None
        → (result ≡ Status.Usage) ⊎ (result ≡ Status.WriteFault) }
    ensures missing { result ≡ Status.Missing
        → Rose (S.seen shelf.old).misses (S.seen shelf.new).misses }
    ensures not_held { result ≡ Status.Missing → ForSome (S.seen shelf.old).holds
        (λ files. ReachesMissing files (asked words.now)) }
    ensures read_fault { result ≡ Status.ReadFault
        → Rose (S.seen shelf.old).faults (S.seen shelf.new).faults }
    ensures too_long { result ≡ Status.TooLong → ForSome (S.seen shelf.old).holds
        (λ files. ReachesPastMost files (S.seen shelf.new).rest (asked words.now)) }
    ensures too_long_always { ComesAlways Status.TooLong
        (λ files. ReachesTooLong files (asked words.now))
        (since (S.seen shelf.old) (S.seen shelf.new)) result }
    ensures refused { (line : ℕ) (word : Fault) → ComesBy (Status.ModelRefused line word)
        (λ files. AsksFaulty files line word (asked words.now))
        (since (S.seen shelf.old) (S.seen shelf.new)) result }
    ensures rejected { ComesBy Status.Rejected (λ files. AsksInvalid files (asked words.now))
        (since (S.seen shelf.old) (S.seen shelf.new)) result }
    ensures too_big { ComesBy Status.TooBig (λ files. AsksTooBig files (asked words.now))
        (since (S.seen shelf.old) (S.seen shelf.new)) result }
    ensures no_flow { ComesBy Status.NoFlow (λ files. AsksNoFlow files (asked words.now))
        (since (S.seen shelf.old) (S.seen shelf.new)) result }
    ensures unknown_arc { ComesBy Status.UnknownArc
        (λ files. AsksUnknownArc files (asked words.now))
        (since (S.seen shelf.old) (S.seen shelf.new)) result }
    ensures not_converted { ComesBy Status.NotConverted
        (λ files. AsksInexact files (asked words.now))
        (since (S.seen shelf.old) (S.seen shelf.new)) result }
    ensures unknown_node { ComesBy Status.UnknownNode
        (λ files. AsksUnknownNode files (asked words.now))
        (since (S.seen shelf.old) (S.seen shelf.new)) result }
    ensures unbounded { ComesBy Status.Unbounded
        (λ files. AsksUnbounded files (asked words.now))
        (since (S.seen shelf.old) (S.seen shelf.new)) result }
    ensures table_refused { (line : ℕ) (word : TableFault) → ComesBy (Status.TableRefused line word)
        (λ files. AsksFaultyTable files line word (asked words.now))
        (since (S.seen shelf.old) (S.seen shelf.new)) result }
    ensures changes_refused { (line : ℕ) (word : Fault) → ComesBy (Status.ChangesRefused line word)
        (λ files. AsksFaultyChanges files line word (asked words.now))
        (since (S.seen shelf.old) (S.seen shelf.new)) result }
    ensures write_fault { result ≡ Status.WriteFault → Rose (K.faults out.old) (K.faults out.new) }
    ensures no_memory { result ≡ Status.NoMemory → IsSome (asked words.now) }
    ensures first_held { result ≡ Status.NoMemory → ForSome (S.seen shelf.old).holds
        (λ files. HoldsFirst files (files_of (asked words.now))) }

    // A command whose files are readable is answered, where no fault rose and memory was there.
    ensures complete { ForSome (S.seen shelf.old).holds (λ files.
        IsAnswerable files (asked words.now)
        → ¬ Rose (S.seen shelf.old).faults (S.seen shelf.new).faults
        → ¬ Rose (K.faults out.old) (K.faults out.new) → GoesThrough result) }

    // Which files were started. A line that refuses a file names the last of them.
    ensures starts { StartsFiles (asked words.now)
        (since (S.seen shelf.old) (S.seen shelf.new)) (result ≡ Status.NoMemory) }

    // What stays.
    ensures untouched { files_of (asked words.now) ≡ [] → shelf.new ≡ shelf.old }
    ensures moves { Moves (S.seen shelf.old) (S.seen shelf.new) }
    ensures sink_faults { Counts (K.faults out.old) (K.faults out.new) }
    ensures readings { CountsReadings (asked words.now)
        (S.seen shelf.old).holds steps.old steps.new }
{
    let reply = match reply_to(alloc, words, shelf, steps) {
        Ok(reply) => reply,
        Err(_) => return Status::NoMemory,
    };
    match write_all(out, reply.text.as_slice()) {
        Written::All => reply.status,
        Written::Fault => Status::WriteFault,
    }
}
