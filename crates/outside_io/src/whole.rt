// Reading a whole file from a source, and writing a whole text into a sink.
ghost use Rattle.std.specs.Prelude.{◌≡◌, ℕ, ◌+◌, ◌^◌, ◌<◌, ◌≤◌, ◌⊎◌, List, [], ◌∷◌, length, IsTrue};
ghost use Rattle.std.specs.Option.{ForSome};
ghost use Rattle.std.specs.Io.KnownBytes.{prepend_known};
ghost use Rattle.outside_io.specs.Counts.{Rose, Counts};
ghost use Rattle.outside_io.specs.Files.{Files, file_of};
ghost use Rattle.outside_io.specs.Seen.{Moves, logged};
ghost use Rattle.outside_io.specs.Sink.{Grew, GrewShort, Fell};
ghost use Rattle.outside_io.specs.Whole.{IsTooLong, ReadsWhole, ReadsRest, AnswersWithin};

use crate::byte_text::ByteText;
use crate::shelf::{Got, Opened, Shelf};
use crate::sink::{Put, Sink};
use std::alloc::Global;

/// How many bytes one read asks for at most.
const CHUNK: usize = 4096;

/// What reading a whole file came to.
#[derive(Drop)]
pub enum ReadAns {
    Bytes(ByteText),
    Missing,
    TooLong,
    Fault,
    NoMemory,
}

/// What writing a whole text came to.
#[derive(Clone, Copy, PartialEq, Eq, Debug)]
pub enum Written {
    All,
    Fault,
}

/// Reads the file of that name, and at most one byte beyond `most`.
///
/// Takes no memory before the file is started.
pub fn read_file<S: Shelf>(alloc: Global, shelf: &mut S, name: &str, most: usize) -> ReadAns
    requires { most ≤ 2 ^ 26 }
    ensures answer { ForSome (S.seen shelf.old).holds (λ files. ReadsWhole files name.now most result) }
    ensures within { AnswersWithin result most }
    ensures missing { result ≡ ReadAns.Missing → Rose (S.seen shelf.old).misses (S.seen shelf.new).misses }
    ensures fault { result ≡ ReadAns.Fault → Rose (S.seen shelf.old).faults (S.seen shelf.new).faults }
    ensures too_long { ForSome (S.seen shelf.old).holds (λ files. IsTooLong files name.now most
        → (result ≡ ReadAns.TooLong) ⊎ (result ≡ ReadAns.NoMemory) ⊎ Rose (S.seen shelf.old).faults (S.seen shelf.new).faults) }
    ensures taken { result ≡ ReadAns.TooLong → ForSome (S.seen shelf.old).holds (λ files. (bytes : List ℕ) × (length bytes ≡ most + 1)
        × (file_of files name.now ≡ prepend_known bytes (S.seen shelf.new).rest)) }
    ensures log { (S.seen shelf.new).log ≡ logged (S.seen shelf.old).log (name.now ∷ []) }
    ensures moves { Moves (S.seen shelf.old) (S.seen shelf.new) }
{
    match shelf.start(name) {
        Opened::Ready => read_rest(alloc, shelf, most),
        Opened::Missing => ReadAns::Missing,
        Opened::Fault => ReadAns::Fault,
    }
}

/// Reads what is left of the started file, and at most one byte beyond `most`.
fn read_rest<S: Shelf>(alloc: Global, shelf: &mut S, most: usize) -> ReadAns
    requires small { most ≤ 2 ^ 26 }
    requires started { IsTrue (S.seen shelf.old).started }
    ensures answer { ReadsRest result most (S.seen shelf.old).rest (S.seen shelf.new).rest }
    ensures within { AnswersWithin result most }
    ensures fault { result ≡ ReadAns.Fault → Rose (S.seen shelf.old).faults (S.seen shelf.new).faults }
    ensures log { (S.seen shelf.new).log ≡ (S.seen shelf.old).log }
    ensures moves { Moves (S.seen shelf.old) (S.seen shelf.new) }
{
    let mut bytes = Vec::new(alloc);
    let mut chunk = [0; CHUNK];
    while bytes.len() <= most {
        let room = (most + 1 - bytes.len()).min(CHUNK);
        match shelf.read(&mut chunk[..room]) {
            Got::Bytes(count) => {
                if bytes.extend_from_slice(&chunk[..count]).is_err() {
                    return ReadAns::NoMemory;
                }
            }
            Got::End => return ReadAns::Bytes(ByteText::of_vec(bytes)),
            Got::Fault => return ReadAns::Fault,
        }
    }
    ReadAns::TooLong
}

/// Writes the text, part by part as the sink takes it.
pub fn write_all<K: Sink>(out: &mut K, text: &[u8]) -> Written
    ensures all { result ≡ Written.All → Grew (K.written out.old) (K.written out.new) text.now }
    ensures spent { result ≡ Written.All → Fell (K.sure out.old) (K.sure out.new) (length text.now) }
    ensures part { result ≡ Written.Fault → GrewShort (K.written out.old) (K.written out.new) text.now }
    ensures room { result ≡ Written.Fault → ForSome (K.sure out.old) (λ left. left < length text.now) }
    ensures fault { result ≡ Written.Fault → Rose (K.faults out.old) (K.faults out.new) }
    ensures empty { length text.now ≡ 0 → (result ≡ Written.All) × (out.new ≡ out.old) }
    ensures faults { Counts (K.faults out.old) (K.faults out.new) }
{
    let mut at = 0;
    while at < text.len() {
        match out.write(&text[at..]) {
            Put::Took(count) => at += count,
            Put::Fault => return Written::Fault,
        }
    }
    Written::All
}
