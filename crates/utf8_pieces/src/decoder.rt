// UTF-8 that comes in pieces, up to a limit.

use crate::bytes::{joined, shown_text, text_and_ending};
use html_types::{Ending, NoMemory};
use std::alloc::Global;

/// What a piece gave: its text, and the ending where the bytes so far show one.
#[derive(Drop)]
pub struct Fed {
    pub text: String,
    pub ending: Option<Ending>,
}

/// Makes text of a page's bytes, which come in pieces of any length.
#[derive(Drop)]
pub struct Decoder {
    // how many bytes still count
    room: usize,
    // the bytes of a character that isn't whole yet
    held: Vec<u8>,
    at_start: bool,
    shown: Option<Ending>,
}

impl Decoder {
    ghost use Rattle.std.specs.Prelude.{◌≡◌, ◌+◌, ◌-◌, ◌^◌, ◌≤◌, ◌++◌, [], List, ℕ, IfOk, OnErr};
    ghost use Rattle.std.specs.Prelude.{Bool, None, if◌then◌else◌, is_some, length, take, min};
    ghost use Rattle.std.specs.Prelude.{string_bytes};
    ghost use Rattle.std.specs.Str.{chars};
    ghost use Rattle.serial.specs.Page.{text_of, shown, ending_of};
    ghost use Rattle.utf8_pieces.specs.Decoder.{HasRead, Looked};

    /// A decoder of a page of at most `limit` bytes, which has read none. It takes no memory.
    pub fn new(alloc: Global, limit: usize) -> Self
        ensures { HasRead limit result [] }
    {
        Decoder {
            room: limit,
            held: Vec::new(alloc),
            at_start: true,
            shown: None,
        }
    }

    /// Takes the next piece. `Bad` and `Long` come exactly where the bytes so far show them; behind
    /// an ending it gives no text and that ending again.
    pub fn feed(&mut self, alloc: Global, piece: &[u8]) -> Result<Fed, NoMemory>
        ensures read { IfOk result (λ _. (limit : ℕ) (read : List ℕ) → HasRead limit self.old read
            → HasRead limit self.new (read ++ piece.now)) }

        // The texts joined are the page's text.
        ensures text { IfOk result (λ fed. (limit : ℕ) (read : List ℕ) → HasRead limit self.old read
            → text_of limit (read ++ piece.now) ≡ text_of limit read
            ++ chars (string_bytes fed.text)) }
        ensures ending { IfOk result
            (λ fed. (limit : ℕ) (read : List ℕ) → HasRead limit self.old read
            → fed.ending ≡ shown limit (read ++ piece.now)) }
        ensures err { OnErr result (self.new ≡ self.old) }
    {
        if self.shown.is_some() {
            return Ok(Fed {
                text: String::new(alloc),
                ending: self.shown,
            });
        }
        let counted = piece.len().min(self.room);
        let looked = piece.len().min(self.room.saturating_add(1));
        let fed = self.look(alloc, &piece[..looked], counted)?;
        self.room -= counted;
        Ok(fed)
    }

    /// The ending, where no more bytes come: because of a fault, or because the file ends. A fault
    /// inside a character is a fault.
    pub fn close(&self, fault: bool) -> Ending
        ensures { (limit : ℕ) (read : List ℕ) → HasRead limit self.now read
            → result ≡ ending_of limit read fault }
    {
        match self.shown {
            Some(ending) => ending,
            None if fault => Ending::Fault,
            None if self.held.as_slice().is_empty() => Ending::End,
            None => Ending::Bad,
        }
    }

    // Reads on by these bytes, of which the first ones count. A piece is copied once more only
    // where some bytes of a character were held.
    fn look(&mut self, alloc: Global, looked: &[u8], counted: usize) -> Result<Fed, NoMemory>
        requires { counted ≤ length looked.now }
        ensures ok { IfOk result (λ fed. Looked self.old self.new
            (self.old.held.items ++ take counted looked.now) (self.old.held.items ++ looked.now)
            (chars (string_bytes fed.text)) fed.ending) }
        ensures err { OnErr result (self.new ≡ self.old) }
    {
        if self.held.as_slice().is_empty() {
            return self.read(alloc, looked, counted);
        }
        let seen = joined(alloc, &self.held, looked)?;
        let past = looked.len() - counted;
        self.read(alloc, &seen, seen.len() - past)
    }

    // Reads these bytes, the held ones among them, of which the first ones count.
    fn read(&mut self, alloc: Global, seen: &[u8], counted: usize) -> Result<Fed, NoMemory>
        requires { counted ≤ length seen.now }
        ensures ok { IfOk result (λ fed. Looked self.old self.new (take counted seen.now) seen.now
            (chars (string_bytes fed.text)) fed.ending) }
        ensures err { OnErr result (self.new ≡ self.old) }
    {
        let (text, ending) = text_and_ending(seen, counted);
        let fed = String::from_str(alloc, shown_text(text, self.at_start))?;
        let bytes = &seen[..counted];
        let held = bytes[text.len()..].to_vec(alloc)?;
        self.held = held;
        self.at_start = self.at_start && text.is_empty();
        self.shown = ending;
        Ok(Fed { text: fed, ending })
    }
}
