// The source of files, as a trait.
ghost use Rattle.std.specs.Prelude.{◌≡◌, ◌<◌, ◌↔◌, ◌∷◌, [], length, IsTrue, IsSome, None};
ghost use Rattle.std.specs.Option.{ForSome};
ghost use Rattle.outside_io.specs.Counts.{Rose};
ghost use Rattle.outside_io.specs.Files.{file_of};
ghost use Rattle.outside_io.specs.Seen.{Seen, Moves, logged};
ghost use Rattle.outside_io.specs.Shelf.{BeginsFile, ReadsWithin, TakesFront};

/// What opening a file came to.
#[derive(Clone, Copy, PartialEq, Eq, Debug)]
pub enum Opened {
    Ready,
    Missing,
    Fault,
}

/// What one read came to.
#[derive(Clone, Copy, PartialEq, Eq, Debug)]
pub enum Got {
    Bytes(usize),
    End,
    Fault,
}

/// Named files, of which one at a time is read from its start on.
pub trait Shelf {
    ghost seen: { Self → Seen };

    fn start(&mut self, name: &str) -> Opened
        ensures moves { Moves (seen self.old) (seen self.new) }
        ensures log { (seen self.new).log ≡ logged (seen self.old).log (name.now ∷ []) }
        ensures started { IsTrue (seen self.new).started ↔ (result ≡ Opened.Ready) }
        ensures ready { result ≡ Opened.Ready → BeginsFile (seen self.old).holds name.now (seen self.new).rest }
        ensures missing { result ≡ Opened.Missing → Rose (seen self.old).misses (seen self.new).misses }
        ensures not_held { result ≡ Opened.Missing → ForSome (seen self.old).holds (λ files. file_of files name.now ≡ None) }
        ensures fault { result ≡ Opened.Fault → Rose (seen self.old).faults (seen self.new).faults };

    fn read(&mut self, buf: &mut [u8]) -> Got
        requires started { IsTrue (seen self.old).started }
        requires room { 0 < length buf.old }
        ensures moves { Moves (seen self.old) (seen self.new) }
        ensures log { (seen self.new).log ≡ (seen self.old).log }
        ensures started { IsTrue (seen self.new).started }
        ensures bound { ReadsWithin result (length buf.new) }
        ensures bytes { TakesFront result (seen self.old).rest (seen self.new).rest buf.new }
        ensures fault { result ≡ Got.Fault → Rose (seen self.old).faults (seen self.new).faults };

    // The rest is told where the files are told.
    ghost told: { (shelf : Self) → IsSome (seen shelf).holds → IsSome (seen shelf).rest };
}
