//! Words, texts and names.

ghost use Rattle.std.specs.Prelude.{◌≡◌, ◌↔◌, IsTrue, IfOk};
ghost use Rattle.std.specs.List.{list_all};
ghost use Rattle.zone_graph.specs.Name.{is_name_byte, IsName};

use crate::memory::{Duplicate, NoMemory};
use crate::sequence::Sequence;
use std::alloc::Global;
use std::marker::Model;

/// A short byte string: a word of a command line, or a name. Contracts see the list of its bytes.
#[derive(Debug, Drop, PartialEq, Eq, Hash)]
pub struct Word {
    bytes: Sequence<u8>,
}

impl Model for Word {
    ghost use Rattle.std.specs.Prelude.{List, ℕ};

    ghost Value = { List ℕ };

    ghost view = { λ word. word.bytes };

    ghost inverse = { λ bytes. record { bytes = bytes } };
}

impl Word {
    /// A word of these bytes, copied.
    pub fn new(alloc: Global, bytes: &[u8]) -> Result<Word, NoMemory>
        ensures { IfOk result (λ word. word ≡ bytes.now) }
    {
        Ok(Word::from(Vec::from_slice(alloc, bytes)?))
    }

    /// Lends the bytes.
    pub fn bytes(&self) -> &[u8]
        ensures { result.now ≡ self.now }
    {
        self.bytes.as_slice()
    }
}

impl From<Vec<u8>> for Word {
    ghost from_gives = { λ bytes word. word ≡ bytes.items };

    fn from(bytes: Vec<u8>) -> Word {
        Word {
            bytes: Sequence::from(bytes),
        }
    }
}

impl Duplicate for Word {
    fn copy(&self) -> Result<Word, NoMemory> {
        Ok(Word {
            bytes: self.bytes.copy()?,
        })
    }
}

/// A text of lines: a list of bytes to contracts.
#[derive(Debug, Drop, PartialEq, Eq)]
pub struct Text {
    bytes: Sequence<u8>,
}

impl Model for Text {
    ghost use Rattle.std.specs.Prelude.{List, ℕ};

    ghost Value = { List ℕ };

    ghost view = { λ text. text.bytes };

    ghost inverse = { λ bytes. record { bytes = bytes } };
}

impl Text {
    /// A text of these bytes, copied.
    pub fn new(alloc: Global, bytes: &[u8]) -> Result<Text, NoMemory>
        ensures { IfOk result (λ text. text ≡ bytes.now) }
    {
        Ok(Text::from(Vec::from_slice(alloc, bytes)?))
    }

    /// Lends the bytes.
    pub fn bytes(&self) -> &[u8]
        ensures { result.now ≡ self.now }
    {
        self.bytes.as_slice()
    }
}

impl From<Vec<u8>> for Text {
    ghost from_gives = { λ bytes text. text ≡ bytes.items };

    fn from(bytes: Vec<u8>) -> Text {
        Text {
            bytes: Sequence::from(bytes),
        }
    }
}

/// A list of names, in the order of their declaration.
pub type Names = Sequence<Word>;

/// Whether bytes are a name: 1 to 16 letters, digits, underscores and hyphens of ASCII.
pub fn is_name(bytes: &[u8]) -> bool
    ensures { IsTrue result ↔ IsName bytes.now }
{
    has_name_bytes(bytes) && !bytes.is_empty() && bytes.len() <= 16
}

// Whether each byte may stand in a name.
fn has_name_bytes(bytes: &[u8]) -> bool
    ensures { result ≡ list_all is_name_byte bytes.now }
{
    bytes.iter().all(|byte| byte.is_ascii_alphanumeric() || *byte == b'_' || *byte == b'-')
}
