//! Where a node goes (13.2.6.1 #creating-and-inserting-nodes).

ghost use Rattle.std.specs.Prelude.{◌≡◌};
ghost use Rattle.standard.specs.Elements.{is_word};
ghost use Rattle.standard.specs.Stack.{place, place_for, foster_place, first_open, second_open};
ghost use Rattle.standard.specs.Stack.{is_the};
ghost use Rattle.standard.specs.Instructions.{end_of};

use crate::walks::{first_element, second_element};
use html_types::{Elements, Group, Place, Stack, Word};
use tag_sets::{is_any, is_the as is_word_of};

/// The appropriate place for inserting a node.
#[inline]
pub fn appropriate(foster: bool, stack: &Stack) -> Place
    ensures { result ≡ place foster stack.now }
{
    match stack.latest() {
        Some(last) if !foster && !is_word_of(Word::Template, &last.name) => {
            Place::Inside(last.id)
        }
        _ => place_for_last(foster, stack.walk(), stack),
    }
}

/// The appropriate place where the target is the first that is left of a walk over the stack.
#[inline(never)]
pub fn place_for_last(foster: bool, left: Elements<'_>, stack: &Stack) -> Place
    ensures { result ≡ place_for foster left.entry stack.now }
{
    match left.latest() {
        None => Place::Page,
        Some(last) => {
            if foster && is_any(Group::FosterTargets, &last.name) {
                fostered(stack)
            } else if is_word_of(Word::Template, &last.name) {
                Place::Contents(last.id)
            } else {
                Place::Inside(last.id)
            }
        }
    }
}

/// Where foster parenting puts a node: the latest template or table decides, else the first
/// element.
fn fostered(stack: &Stack) -> Place
    ensures { result ≡ foster_place stack.now }
{
    let mut walk = stack.walk();
    while let Some(last) = walk.next() {
        if is_word_of(Word::Template, &last.name) {
            return Place::Contents(last.id);
        }
        match walk.latest() {
            None => {
                return if is_word_of(Word::Table, &last.name) {
                    Place::Foster {
                        table: last.id,
                        above: last.id,
                    }
                } else {
                    Place::Inside(last.id)
                };
            }
            Some(above) => {
                if is_word_of(Word::Table, &last.name) {
                    return Place::Foster {
                        table: last.id,
                        above: above.id,
                    };
                }
            }
        }
    }
    Place::Page
}

/// The end of the first element of the stack.
pub fn root_place(stack: &Stack) -> Place
    ensures { result ≡ end_of (first_open stack.now) }
{
    match first_element(stack) {
        None => Place::Page,
        Some(first) => Place::Inside(first.id),
    }
}

/// Whether the second element of the stack is a body.
pub fn second_is_body(stack: &Stack) -> bool
    ensures { result ≡ is_the Word.Body (second_open stack.now) }
{
    match second_element(stack) {
        None => false,
        Some(second) => is_word_of(Word::Body, &second.name),
    }
}
