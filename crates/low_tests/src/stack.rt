//! Lists whose copies share their older entries: copies, edits at places that are shared and not,
//! and which entries a copy copies.

use shared_stack::{Entry, SharedStack};
use std::alloc::{AllocError, Global};
use std::test::Fail;

// A letter. A capital one has no copy, as if there were no memory for it.
#[derive(Drop)]
struct Letter(u8);

impl Entry for Letter {
    fn copy(&self, _alloc: Global) -> Result<Letter, AllocError> {
        if self.0.is_ascii_uppercase() {
            return Err(AllocError);
        }
        Ok(Letter(self.0))
    }

    fn same(&self, other: &Letter) -> bool {
        self.0 == other.0
    }
}

fn stack_of(alloc: Global, letters: &[u8]) -> Result<SharedStack<Letter>, AllocError> {
    let mut stack = SharedStack::new(alloc);
    for letter in letters {
        push(&mut stack, *letter)?;
    }
    Ok(stack)
}

// Whether the entries are these letters, the latest last.
fn has(stack: &SharedStack<Letter>, letters: &[u8]) -> bool {
    let mut walk = stack.walk();
    for letter in letters.iter().rev() {
        match walk.next() {
            Some(entry) if entry.0 == *letter => {}
            _ => return false,
        }
    }
    walk.next().is_none()
}

// The calls, each alone: what they make of a list isn't to be worked out.
fn share(alloc: Global, stack: &mut SharedStack<Letter>) -> Result<(), AllocError> {
    stack.share(alloc)
}

fn push(stack: &mut SharedStack<Letter>, letter: u8) -> Result<(), AllocError> {
    stack.push(Letter(letter))
}

fn pop(stack: &mut SharedStack<Letter>) -> bool {
    stack.pop()
}

fn copy(alloc: Global, stack: &SharedStack<Letter>) -> Result<SharedStack<Letter>, AllocError> {
    stack.copy(alloc)
}

fn can_be_copied(alloc: Global, stack: &SharedStack<Letter>) -> bool {
    copy(alloc, stack).is_ok()
}

fn are_same(stack: &SharedStack<Letter>, other: &SharedStack<Letter>) -> bool {
    stack.same(other) && other.same(stack)
}

// These letters, all of which are to be shared, and one behind them.
fn shared_of(alloc: Global, letters: &[u8], behind: u8) -> Result<SharedStack<Letter>, AllocError> {
    let mut stack = stack_of(alloc, letters)?;
    share(alloc, &mut stack)?;
    push(&mut stack, behind)?;
    Ok(stack)
}

// Twenty letters, all of which are shared, and one behind them.
fn shared(alloc: Global) -> Result<SharedStack<Letter>, AllocError> {
    shared_of(alloc, b"abcdefghijklmnopqrst", b'u')
}

// Whether a list of these letters, none of which is shared, is the same.
fn is_same(alloc: Global, stack: &SharedStack<Letter>, letters: &[u8]) -> Result<bool, AllocError> {
    let other = stack_of(alloc, letters)?;
    Ok(are_same(stack, &other))
}

// Whether the latest entry, which is taken off, is that letter.
fn takes(stack: &mut SharedStack<Letter>, letter: u8) -> Result<bool, AllocError> {
    match stack.take()? {
        Some(entry) => Ok(entry.0 == letter),
        None => Ok(false),
    }
}

// Edits at a place, each alone; what they make of the list isn't to be worked out. False where
// there is no such place.
fn take_out(stack: &mut SharedStack<Letter>, place: usize) -> Result<bool, AllocError> {
    if place >= stack.len() {
        return Ok(false);
    }
    stack.take_out(place)?;
    Ok(true)
}

fn put_in(stack: &mut SharedStack<Letter>, place: usize, letter: u8) -> Result<bool, AllocError> {
    if place >= stack.len() {
        return Ok(false);
    }
    stack.put_in(place, Letter(letter))?;
    Ok(true)
}

fn replace(stack: &mut SharedStack<Letter>, place: usize, letter: u8) -> Result<bool, AllocError> {
    if place >= stack.len() {
        return Ok(false);
    }
    stack.replace(place, Letter(letter))?;
    Ok(true)
}

// How long a copy of a walk is, and its latest entry.
fn rest_of(stack: &SharedStack<Letter>) -> (usize, Option<u8>) {
    let rest = stack.walk().copy();
    match rest.latest() {
        Some(entry) => (rest.len(), Some(entry.0)),
        None => (rest.len(), None),
    }
}

fn latest(stack: &SharedStack<Letter>) -> Option<u8> {
    match stack.latest() {
        Some(entry) => Some(entry.0),
        None => None,
    }
}

// The letter at a place, if there is one.
fn letter_at(stack: &SharedStack<Letter>, place: usize) -> Option<u8> {
    if place < stack.len() {
        Some(stack.at(place).0)
    } else {
        None
    }
}

#[test]
fn a_copy_stays_as_it_is(rt: HostRuntime) -> Result<(), Fail> {
    let mut stack = stack_of(rt.alloc(), b"ab")?;
    let copy = copy(rt.alloc(), &stack)?;
    assert!(rt; pop(&mut stack));
    push(&mut stack, b'c')?;
    assert!(rt; has(&stack, b"ac"));
    assert!(rt; has(&copy, b"ab"));
    Ok(())
}

// Shared entries need no copies of their own: only then a list of capital letters can be copied.
#[test]
fn a_few_entries_stay_a_list_s_own(rt: HostRuntime) -> Result<(), Fail> {
    let mut few = stack_of(rt.alloc(), b"Abcdefghijklmnop")?;
    share(rt.alloc(), &mut few)?;
    assert!(rt; !can_be_copied(rt.alloc(), &few));
    Ok(())
}

#[test]
fn many_entries_become_shared(rt: HostRuntime) -> Result<(), Fail> {
    let mut many = shared_of(rt.alloc(), b"ABCDEFGHIJKLMNOPQRST", b'u')?;
    assert!(rt; can_be_copied(rt.alloc(), &many));
    push(&mut many, b'V')?;
    assert!(rt; !can_be_copied(rt.alloc(), &many));
    Ok(())
}

#[test]
fn takes_own_and_shared_entries(rt: HostRuntime) -> Result<(), Fail> {
    let mut stack = shared(rt.alloc())?;
    let copy = copy(rt.alloc(), &stack)?;
    assert!(rt; takes(&mut stack, b'u')?);
    assert!(rt; takes(&mut stack, b't')?);
    assert!(rt; pop(&mut stack));
    assert!(rt; has(&stack, b"abcdefghijklmnopqr"));
    assert_eq!(rt; latest(&stack), Some(b'r'));
    assert!(rt; has(&copy, b"abcdefghijklmnopqrstu"));
    Ok(())
}

#[test]
fn edits_at_a_place_of_its_own(rt: HostRuntime) -> Result<(), Fail> {
    let mut stack = shared(rt.alloc())?;
    assert!(rt; put_in(&mut stack, 20, b'v')?);
    assert!(rt; take_out(&mut stack, 21)?);
    assert!(rt; replace(&mut stack, 20, b'w')?);
    assert!(rt; has(&stack, b"abcdefghijklmnopqrstw"));
    Ok(())
}

#[test]
fn edits_at_a_shared_place(rt: HostRuntime) -> Result<(), Fail> {
    let mut stack = shared(rt.alloc())?;
    let copy = copy(rt.alloc(), &stack)?;
    assert!(rt; take_out(&mut stack, 17)?);
    assert!(rt; put_in(&mut stack, 15, b'v')?);
    assert!(rt; replace(&mut stack, 0, b'w')?);
    assert!(rt; has(&stack, b"wbcdefghijklmnovpqstu"));
    assert!(rt; has(&copy, b"abcdefghijklmnopqrstu"));
    Ok(())
}

#[test]
fn entries_at_places(rt: HostRuntime) -> Result<(), Fail> {
    let stack = shared(rt.alloc())?;
    for (place, letter) in b"abcdefghijklmnopqrstu".iter().enumerate() {
        assert_eq!(rt; letter_at(&stack, place), Some(*letter));
    }
    assert_eq!(rt; rest_of(&stack), (21, Some(b'u')));
    Ok(())
}

#[test]
fn lists_that_differ(rt: HostRuntime) -> Result<(), Fail> {
    let stack = shared(rt.alloc())?;
    assert!(rt; is_same(rt.alloc(), &stack, b"abcdefghijklmnopqrstu")?);
    assert!(rt; !is_same(rt.alloc(), &stack, b"abcdefghijklmnopqrst!")?);
    assert!(rt; !is_same(rt.alloc(), &stack, b"!bcdefghijklmnopqrstu")?);
    assert!(rt; !is_same(rt.alloc(), &stack, b"abcdefghijklmnopqrst")?);
    Ok(())
}

#[test]
fn copies_go_in_any_order(rt: HostRuntime) -> Result<(), Fail> {
    let first = shared(rt.alloc())?;
    let second = copy(rt.alloc(), &first)?;
    let third = copy(rt.alloc(), &second)?;
    drop(first);
    assert!(rt; has(&second, b"abcdefghijklmnopqrstu"));
    drop(second);
    assert!(rt; has(&third, b"abcdefghijklmnopqrstu"));
    Ok(())
}
