//! The bytes of a text.

ghost use Rattle.std.specs.Prelude.{◌≡◌, [], ◌++◌, IfOk, OnOk, OnErr, encode_utf8, string_bytes};
ghost use Rattle.html_types.specs.Letters.{letter_bytes};

use crate::memory::NoMemory;
use arrayvec::ArrayString;
use std::alloc::Global;

// As long are most names and values of attributes, and most texts between two tags.
const SHORT: usize = 16;

/// The bytes of a text: few of them lie in the value itself, which takes no memory.
#[derive(Drop)]
pub(crate) enum Letters {
    Short(ArrayString<SHORT>),
    Long(String),
}

// A copy in memory, with room for so many bytes more.
fn spilled(alloc: Global, text: &str, room: usize) -> Result<String, NoMemory>
    ensures { IfOk result (λ s. string_bytes s ≡ text.now) }
{
    let mut long = String::with_capacity(alloc, text.len().saturating_add(room))?;
    long.push_str(text)?;
    Ok(long)
}

impl Letters {
    /// No bytes.
    pub(crate) fn new() -> Letters
        ensures { letter_bytes result ≡ [] }
    {
        Letters::Short(ArrayString::new())
    }

    /// The bytes of a `&str`.
    pub(crate) fn of(alloc: Global, text: &str) -> Result<Letters, NoMemory>
        ensures { IfOk result (λ l. letter_bytes l ≡ text.now) }
    {
        match ArrayString::from(text) {
            Ok(short) => Ok(Letters::Short(short)),
            Err(_) => Ok(Letters::Long(String::from_str(alloc, text)?)),
        }
    }

    /// The same bytes as a `&str`.
    pub(crate) fn as_str(&self) -> &str
        ensures { result.now ≡ letter_bytes self.now }
    {
        match self {
            Letters::Short(short) => short.as_str(),
            Letters::Long(long) => long.as_str(),
        }
    }

    /// Adds those of a character at the end.
    pub(crate) fn push(&mut self, alloc: Global, c: char) -> Result<(), NoMemory>
        ensures ok { OnOk result (letter_bytes self.new ≡ letter_bytes self.old ++ encode_utf8 c) }
        ensures err { OnErr result (letter_bytes self.new ≡ letter_bytes self.old) }
    {
        let mut bytes = [0; 4];
        self.push_str(alloc, c.encode_utf8(&mut bytes))
    }

    /// Adds those of a `&str` at the end.
    pub(crate) fn push_str(&mut self, alloc: Global, added: &str) -> Result<(), NoMemory>
        ensures ok { OnOk result (letter_bytes self.new ≡ letter_bytes self.old ++ added.now) }
        ensures err { OnErr result (letter_bytes self.new ≡ letter_bytes self.old) }
    {
        let mut long = match self {
            Letters::Long(long) => {
                long.push_str(added)?;
                return Ok(());
            }
            Letters::Short(short) => {
                if short.try_push_str(added).is_ok() {
                    return Ok(());
                }
                spilled(alloc, short.as_str(), added.len())?
            }
        };
        long.push_str(added)?;
        *self = Letters::Long(long);
        Ok(())
    }
}
