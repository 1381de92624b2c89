//! Operations whose texts and attributes lie in one store.

ghost use Rattle.std.specs.Prelude.{◌≡◌, ◌<◌, ◌++◌, ◌∷◌, [], length, slice_get, Some, IsTrue};
ghost use Rattle.std.specs.Prelude.{IsFalse, IfOk, IfSome, OnOk, OnErr};
ghost use Rattle.std.specs.Str.{chars};
ghost use Rattle.html_types.specs.Operations.{spelled, spelled_one};
ghost use Rattle.html_types.specs.declared.name.Name.TheVariants.{Known};
ghost use Rattle.html_types.specs.declared.operation.Op.TheVariants as op;
ghost use Rattle.html_types.specs.declared.tree.Kind.TheVariants as kind;
ghost use Rattle.html_types.specs.declared.word.Word.TheVariants.{Html};
ghost use Rattle.text_store.specs.declared.ops.Record.TheVariants as record_of;
ghost use Rattle.text_store.specs.Stores.{text_at, Holds};
ghost use Rattle.text_store.specs.Kinds.{MeansKind};
ghost use Rattle.text_store.specs.Lists.{KeepsAll};
ghost use Rattle.text_store.specs.Records.{op_at, ops_at, seen_op, HoldsRecord, HoldsRecords};
ghost use Rattle.text_store.specs.Records.{MeansRecord};

use crate::kinds::Kept;
use crate::listed::Listed;
use crate::lists::Store;
use crate::seen::{Seen, SeenName};
use crate::store::{Piece, Spot};
use html_types::{Attributes, Name, NoMemory, NodeId, Op, Place, Text, Word};
use std::alloc::Global;
use std::marker::Model;

/// An operation, as it is kept.
#[derive(Clone, Copy)]
pub enum Record {
    Make(NodeId, Kept),
    Put(NodeId, Place),
    Text(Place, Piece),
    /// The insertion of a text that got more when others stood behind it.
    TextApart(Place, Piece),
    Comment(Place, Piece),
    Doctype(Piece),
    Detach(NodeId),
    MoveChildren(NodeId, NodeId),
    /// Attributes, those of an element of any name.
    AddAttributes(NodeId, Kept),
}

/// An operation, as it is read.
#[derive(Drop)]
pub enum SeenOp<'a> {
    Make {
        id: NodeId,
        name: SeenName<'a>,
        attributes: Listed<'a>,
    },
    Put {
        node: NodeId,
        place: Place,
    },
    Text {
        place: Place,
        text: &'a str,
    },
    Comment {
        place: Place,
        text: &'a str,
    },
    Doctype {
        name: &'a str,
    },
    Detach {
        node: NodeId,
    },
    MoveChildren {
        from: NodeId,
        to: NodeId,
    },
    AddAttributes {
        node: NodeId,
        attributes: Listed<'a>,
    },
}

/// Operations in order. A contract sees the list of them with each text spelled out, an operation a
/// character.
#[derive(Drop)]
pub struct Ops {
    records: Vec<Record>,
    store: Store,
}

impl Model for Ops {
    ghost use Rattle.std.specs.Prelude.{List};
    ghost use Rattle.html_types.specs.Operations.{spelled};
    ghost use Rattle.html_types.specs.declared.operation.Op.{Op};
    ghost use Rattle.text_store.specs.Records.{ops_at, HoldsRecords};

    ghost Value = { List Op };

    ghost view = { λ o. spelled (ops_at o.store o.records.items) };

    ghost invariant = { λ o. HoldsRecords o.store o.records.items };
}

impl Store {
    // Adds attributes, as those of an element.
    fn push_added(&mut self, list: &Attributes) -> Result<Kept, NoMemory>
        ensures ok { IfOk result (λ k. MeansKind self.new k (kind.Element (Known Html) list.now)) }
        ensures kept { KeepsAll self.old self.new }
    {
        let name = Name::Known(Word::Html);
        self.push_element(&name, list)
    }

    // What an operation is, as it is kept.
    #[tactic(auto, using(std::proofs::lemmas::Grind::common_steps, crate::proofs::ListLemmas::all_not, crate::proofs::RecordLemmas::make_means, crate::proofs::RecordLemmas::added_means))]
    fn push_op(&mut self, op: &Op) -> Result<Record, NoMemory>
        ensures ok { IfOk result (λ r. MeansRecord self.new r op.now) }
        ensures kept { KeepsAll self.old self.new }
    {
        match op {
            Op::Make {
                id,
                name,
                attributes,
            } => {
                let kept = self.push_element(name, attributes)?;
                Ok(Record::Make(*id, kept))
            }
            Op::Put { node, place } => Ok(Record::Put(*node, *place)),
            Op::Text { place, text } => {
                let piece = self.push_text(text.as_str())?;
                Ok(Record::Text(*place, piece))
            }
            Op::Comment { place, text } => {
                let piece = self.push_text(text.as_str())?;
                Ok(Record::Comment(*place, piece))
            }
            Op::Doctype { name } => {
                let piece = self.push_text(name.as_str())?;
                Ok(Record::Doctype(piece))
            }
            Op::Detach { node } => Ok(Record::Detach(*node)),
            Op::MoveChildren { from, to } => Ok(Record::MoveChildren(*from, *to)),
            Op::AddAttributes { node, attributes } => {
                let kept = self.push_added(attributes)?;
                Ok(Record::AddAttributes(*node, kept))
            }
        }
    }

    // What an operation is that is read from another store, as it is kept.
    #[tactic(auto, using(std::proofs::lemmas::Grind::common_steps, crate::proofs::ListLemmas::all_not, crate::proofs::RecordLemmas::make_means, crate::proofs::RecordLemmas::added_means))]
    fn push_seen_op(&mut self, op: SeenOp<'_>) -> Result<Record, NoMemory>
        ensures ok { IfOk result (λ r. MeansRecord self.new r (seen_op op.entry)) }
        ensures kept { KeepsAll self.old self.new }
    {
        match op {
            SeenOp::Make {
                id,
                name,
                attributes,
            } => {
                let kept = self.push_seen(name, &attributes)?;
                Ok(Record::Make(id, kept))
            }
            SeenOp::Put { node, place } => Ok(Record::Put(node, place)),
            SeenOp::Text { place, text } => {
                let piece = self.push_text(text)?;
                Ok(Record::Text(place, piece))
            }
            SeenOp::Comment { place, text } => {
                let piece = self.push_text(text)?;
                Ok(Record::Comment(place, piece))
            }
            SeenOp::Doctype { name } => {
                let piece = self.push_text(name)?;
                Ok(Record::Doctype(piece))
            }
            SeenOp::Detach { node } => Ok(Record::Detach(node)),
            SeenOp::MoveChildren { from, to } => Ok(Record::MoveChildren(from, to)),
            SeenOp::AddAttributes { node, attributes } => {
                let kept = self.push_seen(SeenName::Known(Word::Html), &attributes)?;
                Ok(Record::AddAttributes(node, kept))
            }
        }
    }

    // The operation that lies there.
    #[inline(always)]
    fn op(&self, kept: Record) -> SeenOp<'_>
        requires { HoldsRecord self.now kept }
        ensures { seen_op result ≡ op_at self.now kept }
    {
        match kept {
            Record::Make(id, kept) => self.made(id, kept),
            Record::Put(node, place) => SeenOp::Put { node, place },
            Record::Text(place, piece) => SeenOp::Text {
                place,
                text: self.texts.text(Spot::Inside(piece)),
            },
            Record::TextApart(place, piece) => SeenOp::Text {
                place,
                text: self.texts.text(Spot::Apart(piece)),
            },
            Record::Comment(place, piece) => SeenOp::Comment {
                place,
                text: self.texts.text(Spot::Inside(piece)),
            },
            Record::Doctype(piece) => SeenOp::Doctype {
                name: self.texts.text(Spot::Inside(piece)),
            },
            Record::Detach(node) => SeenOp::Detach { node },
            Record::MoveChildren(from, to) => SeenOp::MoveChildren { from, to },
            Record::AddAttributes(node, kept) => self.added(node, kept),
        }
    }

    // The element that is made.
    #[inline(always)]
    fn made(&self, id: NodeId, kept: Kept) -> SeenOp<'_>
        requires { HoldsRecord self.now (record_of.Make id kept) }
        ensures { seen_op result ≡ op_at self.now (record_of.Make id kept) }
    {
        match kept {
            Kept::Known(word, run) => SeenOp::Make {
                id,
                name: SeenName::Known(word),
                attributes: self.listed(run),
            },
            _ => self.made_other(id, kept),
        }
    }

    // The same of any other element.
    #[inline(never)]
    fn made_other(&self, id: NodeId, kept: Kept) -> SeenOp<'_>
        requires { HoldsRecord self.now (record_of.Make id kept) }
        ensures { seen_op result ≡ op_at self.now (record_of.Make id kept) }
    {
        match self.kind(kept) {
            Seen::Element(name, attributes) => SeenOp::Make {
                id,
                name,
                attributes,
            },
            _ => SeenOp::Detach { node: id },
        }
    }

    // The attributes that are given.
    #[inline(never)]
    fn added(&self, node: NodeId, kept: Kept) -> SeenOp<'_>
        requires { HoldsRecord self.now (record_of.AddAttributes node kept) }
        ensures { seen_op result ≡ op_at self.now (record_of.AddAttributes node kept) }
    {
        match self.kind(kept) {
            Seen::Element(_, attributes) => SeenOp::AddAttributes { node, attributes },
            _ => SeenOp::Detach { node },
        }
    }
}

// The text that an operation inserts at that place.
fn text_spot(last: Record, place: Place) -> Option<Spot>
    ensures held { (s : Store) → HoldsRecord s last → IfSome result (λ spot. Holds s.texts spot) }
    ensures is { (s : Store)
        → IfSome result (λ spot. op_at s last ≡ op.Text place (text_at s.texts spot)) }
{
    match last {
        Record::Text(at, piece) if at.same(place) => Some(Spot::Inside(piece)),
        Record::TextApart(at, piece) if at.same(place) => Some(Spot::Apart(piece)),
        _ => None,
    }
}

impl Store {
    // The text with more behind it, as it is inserted at that place.
    #[tactic(auto, using(std::proofs::lemmas::Grind::common_steps, crate::proofs::ListLemmas::texts_kept))]
    fn insert_longer(&mut self, spot: Spot, place: Place, more: &str) -> Result<Record, NoMemory>
        requires { Holds self.old.texts spot }
        ensures ok { IfOk result (λ r. MeansRecord self.new r
            (op.Text place (text_at self.old.texts spot ++ chars more.now))) }
        ensures kept { KeepsAll self.old self.new }
    {
        let longer = self.texts.extend(spot, more)?;
        match longer {
            Spot::Inside(piece) => Ok(Record::Text(place, piece)),
            Spot::Apart(piece) => Ok(Record::TextApart(place, piece)),
        }
    }
}

// Adds the characters to the text that the last operation inserts at that place, and says whether
// it does insert text there.
fn join_last(
    store: &mut Store,
    records: &mut Vec<Record>,
    place: Place,
    added: &str,
) -> Result<bool, NoMemory>
    requires { HoldsRecords store.old records.old.items }
    ensures held { HoldsRecords store.new records.new.items }
    ensures joined { IfOk result (λ r. IsTrue r → spelled (ops_at store.new records.new.items)
        ≡ spelled (ops_at store.old records.old.items)
        ++ spelled_one (op.Text place (chars added.now))) }
    ensures other { IfOk result (λ r. IsFalse r → spelled (ops_at store.new records.new.items)
        ≡ spelled (ops_at store.old records.old.items)) }
    ensures err { OnErr result (spelled (ops_at store.new records.new.items)
        ≡ spelled (ops_at store.old records.old.items)) }
{
    let count = records.len();
    if count == 0 {
        return Ok(false);
    }
    match text_spot(records[count - 1], place) {
        None => Ok(false),
        Some(spot) => {
            let longer = store.insert_longer(spot, place, added)?;
            records[count - 1] = longer;
            Ok(true)
        }
    }
}

impl Ops {
    /// No operations, which take no memory.
    pub fn new(alloc: Global) -> Ops
        ensures { result ≡ [] }
    {
        Ops {
            records: Vec::new(alloc),
            store: Store::new(alloc),
        }
    }

    /// No operations, with room for so many.
    pub fn with_capacity(alloc: Global, capacity: usize) -> Result<Ops, NoMemory>
        ensures { IfOk result (λ o. o ≡ []) }
    {
        Ok(Ops {
            records: Vec::with_capacity(alloc, capacity)?,
            store: Store::new(alloc),
        })
    }

    /// Adds an operation at the end.
    pub fn push(&mut self, op: Op) -> Result<(), NoMemory>
        ensures ok { OnOk result (self.new ≡ self.old ++ spelled_one op) }
        ensures err { OnErr result (self.new ≡ self.old) }
    {
        let record = self.store.push_op(&op)?;
        self.records.push(record)?;
        Ok(())
    }

    /// Adds the making of an element at the end.
    pub fn push_make(
        &mut self,
        id: NodeId,
        name: &Name,
        attributes: &Attributes,
    ) -> Result<(), NoMemory>
        ensures ok { OnOk result (self.new ≡ self.old ++ op.Make id name.now attributes.now ∷ []) }
        ensures err { OnErr result (self.new ≡ self.old) }
    {
        let kept = self.store.push_element(name, attributes)?;
        self.records.push(Record::Make(id, kept))?;
        Ok(())
    }

    /// Adds the putting of an element at the end.
    #[inline]
    pub fn push_put(&mut self, node: NodeId, place: Place) -> Result<(), NoMemory>
        ensures ok { OnOk result (self.new ≡ self.old ++ op.Put node place ∷ []) }
        ensures err { OnErr result (self.new ≡ self.old) }
    {
        self.records.push(Record::Put(node, place))?;
        Ok(())
    }

    /// How many operations are kept, a text in one: for how many the next list has room. No
    /// contract speaks of it.
    pub fn stored(&self) -> usize {
        self.records.len()
    }

    /// Adds an operation at the end that is read from other operations.
    pub fn push_seen(&mut self, op: SeenOp<'_>) -> Result<(), NoMemory>
        ensures ok { OnOk result (self.new ≡ self.old ++ spelled_one (seen_op op.entry)) }
        ensures err { OnErr result (self.new ≡ self.old) }
    {
        let record = self.store.push_seen_op(op)?;
        self.records.push(record)?;
        Ok(())
    }

    /// Adds the insertion of a character at the end: it joins the text that the last operation
    /// inserts at that place.
    pub fn push_character(&mut self, alloc: Global, place: Place, c: char) -> Result<(), NoMemory>
        ensures ok { OnOk result (self.new ≡ self.old ++ op.Text place (c ∷ []) ∷ []) }
        ensures err { OnErr result (self.new ≡ self.old) }
    {
        let mut text = Text::new(alloc);
        text.push(c)?;
        self.push_text(place, text.as_str())
    }

    /// Adds the insertions of a text's characters at the end, in order: they join the text that the
    /// last operation inserts at that place.
    pub fn push_text(&mut self, place: Place, added: &str) -> Result<(), NoMemory>
        ensures ok { OnOk result
            (self.new ≡ self.old ++ spelled_one (op.Text place (chars added.now))) }
        ensures err { OnErr result (self.new ≡ self.old) }
    {
        if join_last(&mut self.store, &mut self.records, place, added)? {
            return Ok(());
        }
        let piece = self.store.push_text(added)?;
        self.records.push(Record::Text(place, piece))?;
        Ok(())
    }

    /// The operations, a text in one.
    pub fn read(&self) -> OpList<'_>
        ensures { spelled result ≡ self.now }
    {
        OpList {
            store: &self.store,
            records: &self.records,
        }
    }
}

/// Operations as they are read, a text in one: a contract sees the list of them.
#[derive(Drop)]
pub struct OpList<'a> {
    store: &'a Store,
    records: &'a Vec<Record>,
}

impl<'a> Model for OpList<'a> {
    ghost use Rattle.std.specs.Prelude.{List};
    ghost use Rattle.html_types.specs.declared.operation.Op.{Op};
    ghost use Rattle.text_store.specs.Records.{ops_at, HoldsRecords};

    ghost Value = { List Op };

    ghost view = { λ l. ops_at l.store.now l.records.now.items };

    ghost invariant = { λ l. HoldsRecords l.store.now l.records.now.items };
}

impl<'a> OpList<'a> {
    /// How many there are.
    pub fn len(&self) -> usize
        ensures { result ≡ length self.now }
    {
        self.records.len()
    }

    /// One of them.
    #[inline(always)]
    pub fn at(&self, index: usize) -> SeenOp<'a>
        requires { index < length self.now }
        ensures { slice_get self.now index ≡ Some (seen_op result) }
    {
        self.store.op(self.records[index])
    }
}
