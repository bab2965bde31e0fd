// The sink of the output, as a trait.
ghost use Rattle.std.specs.Prelude.{◌≡◌, ℕ, ◌<◌, List, length, Option};
ghost use Rattle.outside_io.specs.Counts.{Rose, Counts};
ghost use Rattle.outside_io.specs.Sink.{WritesWithin, WritesFront, SpendsRoom};

/// What one write came to.
#[derive(Clone, Copy, PartialEq, Eq, Debug)]
pub enum Put {
    Took(usize),
    Fault,
}

/// Bytes go in at the end, a part at a time.
pub trait Sink {
    // All bytes that were taken so far, where the sink tells them.
    ghost written: { Self → Option (List ℕ) };

    // How many further bytes are taken without a fault, where the sink tells it.
    ghost sure: { Self → Option ℕ };

    ghost faults: { Self → ℕ };

    fn write(&mut self, part: &[u8]) -> Put
        requires { 0 < length part.now }
        ensures bound { WritesWithin result (length part.now) }
        ensures bytes { WritesFront result (written self.old) (written self.new) part.now }
        ensures room { SpendsRoom result (sure self.old) (sure self.new) }
        ensures fault { result ≡ Put.Fault → Rose (faults self.old) (faults self.new) }
        ensures faults { Counts (faults self.old) (faults self.new) };
}
