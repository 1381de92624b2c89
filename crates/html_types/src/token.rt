//! Tags and tokens (13.2.5 #tokenization).

ghost use Rattle.std.specs.Prelude.{◌≡◌, ◌↔◌, [], ◌∷◌, ◌++◌, IsTrue, IfOk, OnOk, IfSome, IfNone};
ghost use Rattle.std.specs.Prelude.{map};
ghost use Rattle.html_types.specs.declared.token.Token.TheVariants.{Character};

use crate::attributes::Attributes;
use crate::memory::NoMemory;
use crate::name::Name;
use crate::text::Text;
use std::alloc::Global;
use std::collections::VecDeque;
use std::marker::Model;

/// Whether a tag begins or ends an element.
#[derive(Clone, Copy, PartialEq, Eq)]
pub enum TagKind {
    Start,
    End,
}

/// A quotation mark.
#[derive(Clone, Copy, PartialEq, Eq)]
pub enum Quote {
    Single,
    Double,
}

/// A tag.
#[derive(Drop)]
pub struct Tag {
    pub name: Name,
    pub attributes: Attributes,
    pub self_closing: bool,
}

impl Tag {
    /// A copy.
    pub fn copy(&self, alloc: Global) -> Result<Tag, NoMemory>
        ensures { IfOk result (λ t. t ≡ self.now) }
    {
        let name = self.name.copy()?;
        let attributes = self.attributes.copy(alloc)?;
        Ok(Tag {
            name,
            attributes,
            self_closing: self.self_closing,
        })
    }

    /// Whether two tags are the same, the order of their attributes included.
    pub fn same(&self, other: &Tag) -> bool
        ensures { IsTrue result ↔ (self.now ≡ other.now) }
    {
        self.name.same(&other.name)
            && self.attributes.same(&other.attributes)
            && self.self_closing == other.self_closing
    }
}

/// A tag that is being read: its name so far, and the attributes that are finished.
#[derive(Drop)]
pub struct PartialTag {
    pub kind: TagKind,
    pub name: Text,
    pub attributes: Attributes,
}

impl PartialTag {
    /// A copy.
    pub fn copy(&self, alloc: Global) -> Result<PartialTag, NoMemory>
        ensures { IfOk result (λ t. t ≡ self.now) }
    {
        let name = self.name.copy(alloc)?;
        let attributes = self.attributes.copy(alloc)?;
        Ok(PartialTag {
            kind: self.kind,
            name,
            attributes,
        })
    }

    /// Whether two are the same.
    pub fn same(&self, other: &PartialTag) -> bool
        ensures { IsTrue result ↔ (self.now ≡ other.now) }
    {
        self.kind == other.kind
            && self.name.same(&other.name)
            && self.attributes.same(&other.attributes)
    }
}

/// A token (13.2.5 #tokenization).
#[derive(Drop)]
pub enum Token {
    StartTag(Tag),
    EndTag(Tag),
    Character(char),
    Comment(Text),
    Doctype { name: Text, force_quirks: bool },
    EndOfFile,
}

impl Token {
    /// A copy.
    pub fn copy(&self, alloc: Global) -> Result<Token, NoMemory>
        ensures { IfOk result (λ t. t ≡ self.now) }
    {
        match self {
            Token::StartTag(tag) => Ok(Token::StartTag(tag.copy(alloc)?)),
            Token::EndTag(tag) => Ok(Token::EndTag(tag.copy(alloc)?)),
            Token::Character(c) => Ok(Token::Character(*c)),
            Token::Comment(text) => Ok(Token::Comment(text.copy(alloc)?)),
            Token::Doctype { name, force_quirks } => Ok(Token::Doctype {
                name: name.copy(alloc)?,
                force_quirks: *force_quirks,
            }),
            Token::EndOfFile => Ok(Token::EndOfFile),
        }
    }

    /// Whether two tokens are the same.
    pub fn same(&self, other: &Token) -> bool
        ensures { IsTrue result ↔ (self.now ≡ other.now) }
    {
        match (self, other) {
            (Token::StartTag(s), Token::StartTag(t)) => s.same(t),
            (Token::EndTag(s), Token::EndTag(t)) => s.same(t),
            (Token::Character(c), Token::Character(d)) => *c == *d,
            (Token::Comment(s), Token::Comment(t)) => s.same(t),
            (
                Token::Doctype {
                    name: s,
                    force_quirks: p,
                },
                Token::Doctype {
                    name: t,
                    force_quirks: q,
                },
            ) => s.same(t) && *p == *q,
            (Token::EndOfFile, Token::EndOfFile) => true,
            _ => false,
        }
    }
}

/// Tokens in the order in which they were made: a contract sees the list of them.
#[derive(Drop)]
pub struct Tokens {
    list: VecDeque<Token>,
}

impl Model for Tokens {
    ghost use Rattle.std.specs.Prelude.{List};
    ghost use Rattle.html_types.specs.declared.token.Token.{Token};

    ghost Value = { List Token };

    ghost view = { λ t. t.list.items };
}

impl Tokens {
    /// No tokens, which take no memory.
    pub fn new(alloc: Global) -> Tokens
        ensures { result ≡ [] }
    {
        Tokens {
            list: VecDeque::new(alloc),
        }
    }

    /// Adds a token at the end.
    pub fn push(&mut self, token: Token) -> Result<(), NoMemory>
        ensures { OnOk result (self.new ≡ self.old ++ token ∷ []) }
    {
        self.list.push_back(token)?;
        Ok(())
    }

    /// Adds a token for each character of a text.
    pub fn push_characters(&mut self, text: &Text) -> Result<(), NoMemory>
        ensures { OnOk result (self.new ≡ self.old ++ map Character text.now) }
    {
        for c in text.as_str().chars() {
            self.push(Token::Character(c))?;
        }
        Ok(())
    }

    /// Takes the first token.
    pub fn pop(&mut self) -> Option<Token>
        ensures some { IfSome result (λ t. self.old ≡ t ∷ self.new) }
        ensures none { IfNone result (self.old ≡ []) }
        ensures empty { IfNone result (self.new ≡ []) }
    {
        self.list.pop_front()
    }

    /// A copy.
    pub fn copy(&self, alloc: Global) -> Result<Tokens, NoMemory>
        ensures { IfOk result (λ t. t ≡ self.now) }
    {
        let mut copied = Tokens::new(alloc);
        for i in 0..self.list.len() {
            copied.push(self.list[i].copy(alloc)?)?;
        }
        Ok(copied)
    }

    /// Whether two lists are the same, in order.
    pub fn same(&self, other: &Tokens) -> bool
        ensures { IsTrue result ↔ (self.now ≡ other.now) }
    {
        if self.list.len() != other.list.len() {
            return false;
        }
        for i in 0..self.list.len() {
            if !self.list[i].same(&other.list[i]) {
                return false;
            }
        }
        true
    }
}
