//! The parser of a page whose scripts don't run, which is fed the page's bytes in pieces.

ghost use Rattle.std.specs.Prelude.{◌≡◌, ◌++◌, [], List, ℕ, true, false, IfOk, OnOk, OnErr, IsErr};
ghost use Rattle.std.specs.Str.{chars};
ghost use Rattle.html_types.specs.declared.ending.Why.{Why};
ghost use Rattle.standard.specs.Entities.{Entities};
ghost use Rattle.standard.specs.Through.{through, read_through, with_end};
ghost use Rattle.serial.specs.Page.{page_of};
ghost use Rattle.serial.specs.Quiet.{tree, refused, made, ended_quietly, quiet};
ghost use Rattle.html_document.specs.declared.feeding.TheConstants.{PAGE_LIMIT};
ghost use Rattle.html_document.specs.Stage.{IsServed};
ghost use Rattle.html_document.specs.Fed.{CameTo, Furthers, HasFed, refused_at, shown_refusal};
ghost use Rattle.html_document.specs.Fed.{refused_so_far};

use crate::refused::Refused;
use entity_table::Table;
use html_types::{Ending, NoMemory, Why};
use op_exec::Doc;
use parse_machine::Machine;
use std::alloc::Global;
use std::marker::Model;
use text_store::Ops;
use utf8_pieces::Decoder;

/// The most bytes of a page.
pub const PAGE_LIMIT: usize = 1_073_741_824;

/// A parser of a page whose scripts don't run: the page's bytes are fed to it in pieces of any
/// length. What it was fed is said by `HasFed`.
///
/// After want of memory it is spent: each further call answers want of memory.
#[derive(Drop)]
pub struct PageParser {
    alloc: Global,
    table: Table,
    decoder: Decoder,
    machine: Machine,
    doc: Doc,
    // no push was met that would open element 513
    goes_on: bool,
    spent: bool,
}

impl Model for PageParser {
    ghost use Rattle.std.specs.Prelude.{◌≡◌, true, false};
    ghost use Rattle.html_document.specs.Stage.{Stage, IsServed};

    ghost Value = { Stage };

    ghost view = { λ p. record {
      entities = p.table;
      decoder = p.decoder;
      parser = p.machine;
      doc = p.doc;
      goes_on = p.goes_on;
      spent = p.spent;
    } };

    // The ids that the parser holds are bound in the document.
    ghost invariant = { λ p. p.spent ≡ false → p.goes_on ≡ true → IsServed p.machine p.doc };
}

// Reads a text through, and does the operations. Answers whether the parser goes on behind it.
fn read_on(
    alloc: Global,
    table: &Table,
    machine: &mut Machine,
    doc: &mut Doc,
    text: &str,
) -> Result<bool, NoMemory>
    requires { IsServed machine.old doc.old }
    ensures { IfOk result (λ goes_on.
        CameTo (read_through table.now machine.old (chars text.now)) doc.old machine.new doc.new
        goes_on) }
{
    let mut ops = Ops::new(alloc);
    let goes_on = machine.read_through(alloc, table, text, &mut ops)?;
    if !goes_on {
        return Ok(false);
    }
    doc.apply_all(&ops)?;
    Ok(true)
}

// The same, behind a text that was read through or not.
fn read_further(
    alloc: Global,
    table: &Table,
    machine: &mut Machine,
    doc: &mut Doc,
    went_on: bool,
    text: &str,
) -> Result<bool, NoMemory>
    requires { went_on ≡ true → IsServed machine.old doc.old }
    ensures further { IfOk result (λ goes_on.
        Furthers table.now machine.old doc.old went_on (chars text.now) machine.new doc.new
        goes_on) }
    ensures served { IfOk result (λ goes_on. goes_on ≡ true → IsServed machine.new doc.new) }
{
    if !went_on {
        return Ok(false);
    }
    let goes_on = read_on(alloc, table, machine, doc, text)?;
    Ok(goes_on)
}

// The document, where the text was the whole page.
fn take_end(alloc: Global, table: &Table, machine: Machine, doc: Doc) -> Result<Doc, Refused>
    requires { IsServed machine doc }
    ensures tree { IfOk result (λ d. made doc (with_end table.now (through [] machine)) ≡ tree d) }
    ensures refused { (w : Why) → result ≡ Err (Refused.Parse w)
        → made doc (with_end table.now (through [] machine)) ≡ refused w }
{
    let mut machine = machine;
    let mut doc = doc;
    let whole = machine.parse_whole(alloc, table, "")?;
    let Some(ops) = whole else {
        return Err(Refused::Parse(Why::Depth));
    };
    doc.apply_all(&ops)?;
    Ok(doc)
}

// The document, where the page ends so.
fn take_ending(
    alloc: Global,
    table: &Table,
    machine: Machine,
    doc: Doc,
    ending: Ending,
) -> Result<Doc, Refused>
    requires { IsServed machine doc }
    ensures tree { IfOk result (λ d.
        ended_quietly table.now doc ending (through [] machine) ≡ tree d) }
    ensures refused { (w : Why) → result ≡ Err (Refused.Parse w)
        → ended_quietly table.now doc ending (through [] machine) ≡ refused w }
{
    match ending {
        Ending::End => take_end(alloc, table, machine, doc),
        Ending::Bad => Err(Refused::Parse(Why::BadUtf8)),
        Ending::Long => Err(Refused::Parse(Why::Page)),
        Ending::Fault => Err(Refused::Parse(Why::Fault)),
    }
}

// Why a page is refused that ends so.
fn refused_at(ending: Ending) -> Option<Why>
    ensures { result ≡ refused_at ending }
{
    match ending {
        Ending::End => None,
        Ending::Bad => Some(Why::BadUtf8),
        Ending::Long => Some(Why::Page),
        Ending::Fault => Some(Why::Fault),
    }
}

// Why the page is refused, where the text so far or the ending that the bytes show says so.
fn refusal(goes_on: bool, ending: Option<Ending>) -> Option<Why>
    ensures { result ≡ shown_refusal goes_on ending }
{
    if !goes_on {
        return Some(Why::Depth);
    }
    match ending {
        None => None,
        Some(ending) => refused_at(ending),
    }
}

impl PageParser {
    /// A parser that was fed nothing.
    pub fn new(alloc: Global, table: &Table) -> Result<PageParser, NoMemory>
        ensures { IfOk result (λ p. HasFed table.now p []) }
    {
        let table = table.copy()?;
        let doc = Doc::new(alloc)?;
        let decoder = Decoder::new(alloc, PAGE_LIMIT);
        let machine = Machine::new(alloc, 0);
        Ok(PageParser {
            alloc,
            table,
            decoder,
            machine,
            doc,
            goes_on: true,
            spent: false,
        })
    }

    /// Takes the next piece of the page. `Some` says why the page is refused, as soon as that is
    /// known; what it is fed behind that changes nothing.
    pub fn feed(&mut self, piece: &[u8]) -> Result<Option<Why>, NoMemory>
        ensures fed { OnOk result ((es : Entities) (read : List ℕ) → HasFed es self.old read
            → HasFed es self.new (read ++ piece.now)) }
        ensures told { IfOk result (λ why. (es : Entities) (read : List ℕ)
            → HasFed es self.old read → why ≡ refused_so_far es (read ++ piece.now)) }
        ensures spent { self.old.spent ≡ true → IsErr result }
        ensures err { OnErr result (self.new.spent ≡ true) }
    {
        if self.spent {
            return Err(NoMemory);
        }
        self.spent = true;
        let fed = self.decoder.feed(self.alloc, piece)?;
        let went_on = self.goes_on;
        let goes_on = read_further(
            self.alloc,
            &self.table,
            &mut self.machine,
            &mut self.doc,
            went_on,
            fed.text.as_str(),
        )?;
        self.goes_on = goes_on;
        self.spent = false;
        Ok(refusal(goes_on, fed.ending))
    }

    /// The page's document, where no more bytes come. `Refused::Parse` comes exactly where the
    /// parse of the page is refused.
    pub fn finish(self) -> Result<Doc, Refused>
        ensures spent { self.spent ≡ true → result ≡ Err Refused.NoMemory }
        ensures tree { IfOk result (λ d. (es : Entities) (read : List ℕ) → HasFed es self read
            → quiet es (page_of PAGE_LIMIT read false) ≡ tree d) }
        ensures refused { (w : Why) → result ≡ Err (Refused.Parse w)
            → (es : Entities) (read : List ℕ) → HasFed es self read
            → quiet es (page_of PAGE_LIMIT read false) ≡ refused w }
    {
        let PageParser {
            alloc,
            table,
            decoder,
            machine,
            doc,
            goes_on,
            spent,
        } = self;
        if spent {
            return Err(Refused::NoMemory);
        }
        if !goes_on {
            return Err(Refused::Parse(Why::Depth));
        }
        let ending = decoder.close(false);
        take_ending(alloc, &table, machine, doc, ending)
    }
}
