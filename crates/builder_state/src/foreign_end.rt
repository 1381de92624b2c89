//! How foreign content is left (13.2.6.5 #parsing-main-inforeign).

ghost use Rattle.std.specs.Prelude.{◌≡◌, ◌≤◌, length};
ghost use Rattle.std.specs.Str.{chars};
ghost use Rattle.html_types.specs.Names.{name_text};
ghost use Rattle.builder_state.specs.ForeignEnds.{end_found, through};
ghost use Rattle.standard.specs.Instructions.{config, for_tag, pop_foreign, break_out, foreign_end};
ghost use Rattle.standard.specs.Instructions.{end_foreign, end_foreign_with};

use crate::foreign::{is_html, is_html_or_point};
use foreign_tables::is_lower_of;
use html_types::{Flow, Name, Next, Open, Stack, Token};
use text_store::Ops;

/// Pops while the current node is neither an HTML element nor an integration point.
fn pop_foreign(stack: &mut Stack)
    ensures left { stack.new ≡ pop_foreign stack.old }
    ensures shorter { length stack.new ≤ length stack.old }
{
    while let Some(last) = stack.latest() {
        if is_html_or_point(last) {
            return;
        }
        stack.pop();
    }
}

/// Foreign content is left, and the token goes by the rules of the mode.
pub fn break_out(state: &mut Open, ops: &Ops) -> Flow
    ensures done { config state.new ops.now result ≡ break_out state.old ops.now }
    ensures shorter { length state.new.stack ≤ length state.old.stack }
{
    pop_foreign(&mut state.stack);
    Flow::Leave(Next::UsingRules(state.mode))
}

/// What the search for an end tag's element meets first, from the current node up.
#[derive(Clone, Copy)]
pub enum End {
    /// The first element of the stack.
    Nothing,
    /// An element whose name in lower case is the tag's.
    Here,
    /// An HTML element: the token goes by the rules of the mode.
    ByMode,
}

/// The search for an element whose name in lower case is that one.
fn end_found(stack: &Stack, lower: &str) -> End
    ensures { result ≡ end_found (chars lower.now) stack.now }
{
    let mut walk = stack.walk();
    while let Some(last) = walk.next() {
        let Some(above) = walk.latest() else {
            return End::Nothing;
        };
        if is_lower_of(lower, last.name.as_str()) {
            return End::Here;
        }
        if is_html(&above.name) {
            return End::ByMode;
        }
    }
    End::Nothing
}

/// Pops until an element whose name in lower case is that one is popped.
fn pop_through(stack: &mut Stack, lower: &str)
    ensures left { stack.new ≡ through (chars lower.now) stack.old }
    ensures shorter { length stack.new ≤ length stack.old }
{
    while let Some(last) = stack.latest() {
        let found = is_lower_of(lower, last.name.as_str());
        stack.pop();
        if found {
            return;
        }
    }
}

/// The end tag of that name.
#[tactic(auto, using(std::proofs::lemmas::Grind::common_steps, crate::proofs::ForeignEnds::foreign_end_found))]
fn end_named(state: &mut Open, name: &Name, ops: &Ops) -> Flow
    ensures done { config state.new ops.now result
        ≡ end_foreign_with (foreign_end (name_text name.now) state.old.stack state.old.stack)
        state.old ops.now }
    ensures shorter { length state.new.stack ≤ length state.old.stack }
{
    match end_found(&state.stack, name.as_str()) {
        End::Nothing => Flow::On,
        End::Here => {
            pop_through(&mut state.stack, name.as_str());
            Flow::On
        }
        End::ByMode => Flow::Leave(Next::UsingRules(state.mode)),
    }
}

/// "Any other end tag" of the rules for foreign content (13.2.6.5 #parsing-main-inforeign).
pub fn end_foreign(state: &mut Open, token: &Token, ops: &Ops) -> Flow
    ensures done { config state.new ops.now result
        ≡ for_tag end_foreign token.now state.old ops.now }
    ensures shorter { length state.new.stack ≤ length state.old.stack }
{
    match token {
        Token::StartTag(tag) | Token::EndTag(tag) => end_named(state, &tag.name, ops),
        _ => Flow::On,
    }
}
