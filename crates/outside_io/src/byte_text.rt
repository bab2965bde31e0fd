// A text of bytes that its owner no longer changes.
ghost use Rattle.std.specs.Prelude.{◌≡◌};

use std::marker::Model;

/// Bytes that need not be UTF-8.
#[derive(Drop)]
pub struct ByteText {
    items: Vec<u8>,
}

impl Model for ByteText {
    ghost use Rattle.std.specs.Prelude.{ℕ, List};

    ghost Value = { List ℕ };

    ghost view = { λ text. text.items.items };
}

impl ByteText {
    pub fn of_vec(items: Vec<u8>) -> Self
        ensures { result ≡ items.items }
    {
        ByteText { items }
    }

    pub fn as_slice(&self) -> &[u8]
        ensures { result.now ≡ self.now }
    {
        self.items.as_slice()
    }

    pub fn into_vec(self) -> Vec<u8>
        ensures { result.items ≡ self }
    {
        let ByteText { items } = self;
        items
    }
}
