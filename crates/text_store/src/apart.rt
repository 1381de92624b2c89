//! Elements whose attributes stand apart from the others.

ghost use Rattle.std.specs.Prelude.{◌≡◌, ◌<◌, true, length, IfOk, IsTrue, [], OnOk};
ghost use Rattle.html_types.specs.Attributes.{with_missing};
ghost use Rattle.html_types.specs.declared.tree.Kind.TheVariants as kind;
ghost use Rattle.standard.specs.Tree.{is_element, with_lacking};
ghost use Rattle.text_store.specs.declared.kinds.Kept.TheVariants as kept;
ghost use Rattle.text_store.specs.Kinds.{kind_at, HoldsKind, MeansKind};
ghost use Rattle.text_store.specs.Lists.{element_at, IsLonger, KeepsAll};

use crate::kinds::Kept;
use crate::lists::{ElementApart, Run, Store, short};
use html_types::{Attributes, Name, NoMemory};

// An element gets the attributes that it lacks; says how many it has then.
fn add_to(apart: &mut ElementApart, more: &Attributes) -> Result<u32, NoMemory>
    ensures longer { IsLonger apart.old apart.new }
    ensures list { OnOk result (apart.new.list ≡ with_missing apart.old.list more.now) }
    ensures size { IfOk result (λ n. n ≡ length apart.new.list) }
{
    apart.list.add_missing(more)?;
    let size = short(apart.list.as_slice().len())?;
    Ok(size)
}

// Whether there are none.
fn are_none(attributes: &Attributes) -> bool
    ensures { IsTrue result → attributes.now ≡ [] }
{
    attributes.as_slice().len() == 0
}

impl Store {
    // How many attributes stand there by now.
    fn count(&self, run: Run) -> usize
        requires { run.from < length self.now.apart.items }
        ensures { result ≡ length (element_at self.now.apart.items run.from).list }
    {
        self.element(run).list.as_slice().len()
    }

    /// Adds what an element is, with its attributes as they are.
    #[tactic(auto, using(std::proofs::lemmas::Grind::common_steps, crate::proofs::ListLemmas::all_not))]
    pub(crate) fn push_apart(&mut self, name: Name, list: Attributes) -> Result<Kept, NoMemory>
        ensures ok { IfOk result (λ k. MeansKind self.new k (kind.Element name list)) }
        ensures kept { KeepsAll self.old self.new }
    {
        let from = short(self.apart.len())?;
        let size = short(list.as_slice().len())?;
        self.apart.push(ElementApart { name, list })?;
        Ok(Kept::ElementApart(Run { from, size }))
    }

    // All attributes that stand there get those that they lack.
    fn lengthen(&mut self, run: Run, more: &Attributes) -> Result<Kept, NoMemory>
        requires held { HoldsKind self.old (kept.ElementApart run) }
        requires whole { run.size ≡ length (element_at self.old.apart.items run.from).list }
        ensures ok { IfOk result
            (λ k. MeansKind self.new k
            (with_lacking (kind_at self.old (kept.ElementApart run)) more.now)) }
        ensures kept { KeepsAll self.old self.new }
    {
        let apart = &mut self.apart[run.from as usize];
        let size = add_to(apart, more)?;
        Ok(Kept::ElementApart(Run {
            from: run.from,
            size,
        }))
    }

    // An element with those of the attributes that it lacks, in a list of its own.
    #[tactic(auto, using(std::proofs::lemmas::Grind::common_steps, crate::proofs::ListLemmas::all_not))]
    fn set_apart(&mut self, kept: Kept, more: &Attributes) -> Result<Kept, NoMemory>
        requires held { HoldsKind self.old kept }
        requires element { is_element (kind_at self.old kept) ≡ true }
        ensures ok { IfOk result
            (λ k. MeansKind self.new k (with_lacking (kind_at self.old kept) more.now)) }
        ensures kept { KeepsAll self.old self.new }
    {
        let name = self.name_in(kept)?;
        let mut list = self.attributes_in(kept)?;
        list.add_missing(more)?;
        self.push_apart(name, list)
    }

    // The same; anything else stays as it is.
    #[tactic(auto, using(std::proofs::lemmas::Grind::common_steps, crate::proofs::ListLemmas::all_not))]
    fn longer(&mut self, kept: Kept, more: &Attributes) -> Result<Kept, NoMemory>
        requires { HoldsKind self.old kept }
        ensures ok { IfOk result
            (λ k. MeansKind self.new k (with_lacking (kind_at self.old kept) more.now)) }
        ensures kept { KeepsAll self.old self.new }
    {
        if kept.is_element() {
            self.set_apart(kept, more)
        } else {
            Ok(kept)
        }
    }

    // The same of an element whose attributes stand apart.
    fn apart_longer(&mut self, run: Run, more: &Attributes) -> Result<Kept, NoMemory>
        requires { HoldsKind self.old (kept.ElementApart run) }
        ensures ok { IfOk result
            (λ k. MeansKind self.new k
            (with_lacking (kind_at self.old (kept.ElementApart run)) more.now)) }
        ensures kept { KeepsAll self.old self.new }
    {
        if self.count(run) == run.size as usize {
            self.lengthen(run, more)
        } else {
            self.longer(Kept::ElementApart(run), more)
        }
    }

    /// An element with those of the attributes that it lacks. Where it gets more again and again,
    /// only what is new is added.
    #[tactic(auto, using(std::proofs::lemmas::Grind::common_steps, crate::proofs::ListLemmas::all_not))]
    pub fn more_attributes(&mut self, kept: Kept, more: &Attributes) -> Result<Kept, NoMemory>
        requires { HoldsKind self.old kept }
        ensures ok { IfOk result
            (λ k. MeansKind self.new k (with_lacking (kind_at self.old kept) more.now)) }
        ensures kept { KeepsAll self.old self.new }
    {
        if are_none(more) {
            return Ok(kept);
        }
        match kept {
            Kept::ElementApart(run) => self.apart_longer(run, more),
            _ => self.longer(kept, more),
        }
    }
}
