//! The program `monotropic`: its words go to the top call, over real files and standard output, and the status becomes
//! the exit code.
#![tactic(auto)]

ghost use Rattle.std.specs.Prelude.{◌≡◌, ◌≢◌, ◌⊎◌, ◌<◌, None, IsSome, IfOk, IfErr};
ghost use Rattle.std.specs.IoError.{error_kind};
ghost use Rattle.mono_top.specs.Request.{asked};

use mono_curve::Steps;
use mono_top::{Status, run};
use outside_io::{FileShelf, StdSink};
use std::env;
use std::io::{self, ErrorKind};
use std::marker::Brand;
use std::process::ExitCode;
use std::sync::ledger::{Blank, Ledger};

fn main(rt: HostRuntime) -> ExitCode {
    ExitCode::from(start::<Brand>(rt, words(&rt), Blank::new(1)).code())
}

/// The words after the program's name.
fn words(rt: &HostRuntime) -> io::Result<Vec<String>> {
    Ok(env::args(rt)?.skip(1).collect(rt.alloc())?)
}

/// How the program's call ends. Words that cannot be had as text ask for no command.
fn start<L: Ledger>(rt: HostRuntime, words: io::Result<Vec<String>>, blank: Blank) -> Status
    requires name { blank.name ≡ L.name }
    requires parts { blank.parts ≡ L.parts }
    requires some { 0 < blank.parts }
    ensures usage { IfOk words (λ all. result ≡ Status.Usage → asked all.items ≡ None) }
    ensures usage_always { IfOk words (λ all. asked all.items ≡ None → (result ≡ Status.Usage) ⊎ (result ≡ Status.WriteFault)) }
    ensures memory { IfOk words (λ all. result ≡ Status.NoMemory → IsSome (asked all.items)) }
    ensures no_words { IfErr words (λ error. error_kind error ≢ ErrorKind.OutOfMemory → (result ≡ Status.Usage) ⊎ (result ≡ Status.WriteFault)) }
    ensures no_memory { IfErr words (λ error. error_kind error ≡ ErrorKind.OutOfMemory → result ≡ Status.NoMemory) }
{
    match words {
        Ok(words) => answer::<L>(rt, words.as_slice(), blank),
        Err(error) if error.kind() == ErrorKind::OutOfMemory => Status::NoMemory,
        Err(_) => answer::<L>(rt, &[], blank),
    }
}

/// Runs the call over the outside of the process, with a counter of readings that nobody looks at.
fn answer<L: Ledger>(rt: HostRuntime, words: &[String], blank: Blank) -> Status
    requires name { blank.name ≡ L.name }
    requires parts { blank.parts ≡ L.parts }
    requires some { 0 < blank.parts }
    ensures usage { result ≡ Status.Usage → asked words.now ≡ None }
    ensures usage_always { asked words.now ≡ None → (result ≡ Status.Usage) ⊎ (result ≡ Status.WriteFault) }
    ensures no_memory { result ≡ Status.NoMemory → IsSome (asked words.now) }
{
    let mut shelf = FileShelf::new(rt);
    let mut out = StdSink::new(rt.stdout());
    let mut steps = Steps::<L>::open(blank);
    run(rt.alloc(), words, &mut shelf, &mut out, &mut steps)
}
