//! A tag that stands whole in a text, read at once in the data state.

ghost use Rattle.std.specs.Prelude.{◌≡◌, ◌+◌, ◌<◌, ◌≤◌, [], ◌∷◌, ◌++◌, true, false, length, IfOk};
ghost use Rattle.std.specs.Prelude.{OnOk, IfSome};
ghost use Rattle.std.specs.Str.{chars, IsCharBoundary};
ghost use Rattle.entity_table.specs.View.{characters_in};
ghost use Rattle.standard.specs.Entities.{Entities};
ghost use Rattle.standard.specs.Step.{finished, tag_token};
ghost use Rattle.tokenizer.specs.Whole.{all_of, is_gap, begins_name, begins_with, has_cr};
ghost use Rattle.tokenizer.specs.Whole.{quote_mark, close_text, may_close, piece, Opens, Reads};
ghost use Rattle.tokenizer.specs.Whole.{ReadsOn, Gives, HasValue, MakesAlone};
ghost use Rattle.tokenizer.specs.Whole as parts;
ghost use Rattle.tokenizer.specs.Reference.{open_characters};
ghost use Rattle.tokenizer.specs.declared.part.Part.TheVariants as part;

use crate::comment::whole_comment;
use crate::part::{Part, is_of, rest_of};
use crate::place::{ascii_at, lacks_cr, past};
use crate::reference::{OpenReference, open_reference_in_value, reference_at, whole_number};
use char_class::class_of;
use entity_table::{Characters, Table};
use html_types::{Attribute, Attributes, Class, Name, NoMemory, Quote, Tag, TagKind, Text, Token};
use std::alloc::Global;

/// A tag, and the place behind it.
#[derive(Drop)]
pub struct Whole {
    pub token: Token,
    pub end: usize,
}

/// What stands right behind a part of a tag.
#[derive(Clone, Copy)]
pub enum Behind {
    /// White space: any part or the tag's end may follow.
    Space,
    /// Nothing: the end may follow, with a slash or without.
    Nothing,
    /// Nothing, and the part is a value without quotes, to which a slash would belong: only `>` may
    /// follow.
    Value,
}

// The end of the tag's name that begins at a place.
fn name_end(text: &str, from: usize) -> Option<usize>
    requires { IsCharBoundary text.now from }
    ensures boundary { IfSome result (λ to. IsCharBoundary text.now to) }
    ensures onward { IfSome result (λ to. from < to) }
    ensures begins { IfSome result (λ to. begins_name (piece text.now from to) ≡ true) }
    ensures name { IfSome result (λ to. all_of part.TagName (piece text.now from to) ≡ true) }
{
    let Some(c) = ascii_at(text, from) else {
        return None;
    };
    if matches!(class_of(c), Class::Alpha) && is_of(Part::TagName, c) {
        Some(rest_of(text, from + 1, Part::TagName))
    } else {
        None
    }
}

// The kind of a tag, and where its name begins.
#[derive(Drop)]
struct Head {
    kind: TagKind,
    name: usize,
}

// What stands before the name of a tag.
fn head_at(text: &str, from: usize) -> Option<Head>
    requires { IsCharBoundary text.now from }
    ensures boundary { IfSome result (λ h. IsCharBoundary text.now h.name) }
    ensures onward { IfSome result (λ h. from < h.name) }
    ensures opens { IfSome result (λ h. Opens (piece text.now from h.name) h.kind) }
{
    let Some(open) = past(text, from, '<') else {
        return None;
    };
    match past(text, open, '/') {
        Some(name) => Some(Head {
            kind: TagKind::End,
            name,
        }),
        None => Some(Head {
            kind: TagKind::Start,
            name: open,
        }),
    }
}

// What stands behind a part, and where the white space there ends.
#[derive(Drop)]
struct Gap {
    behind: Behind,
    at: usize,
}

// What stands at a place, where a part ends; it may be a value without quotes.
fn gap_at(text: &str, from: usize, unquoted: bool) -> Gap
    requires { IsCharBoundary text.now from }
    ensures boundary { IsCharBoundary text.now result.at }
    ensures onward { from ≤ result.at }
    ensures gap { is_gap unquoted result.behind (piece text.now from result.at) ≡ true }
{
    if let Some(c) = ascii_at(text, from) {
        if is_of(Part::Gap, c) {
            return Gap {
                behind: Behind::Space,
                at: rest_of(text, from + 1, Part::Gap),
            };
        }
    }
    Gap {
        behind: if unquoted {
            Behind::Value
        } else {
            Behind::Nothing
        },
        at: from,
    }
}

// The end of the part that begins at a place, if one does.
fn part_end(text: &str, from: usize, part: Part) -> Option<usize>
    requires { IsCharBoundary text.now from }
    ensures boundary { IfSome result (λ to. IsCharBoundary text.now to) }
    ensures onward { IfSome result (λ to. from < to) }
    ensures begins { IfSome result (λ to. begins_with part (piece text.now from to) ≡ true) }
    ensures all { IfSome result (λ to. all_of part (piece text.now from to) ≡ true) }
{
    let Some(c) = ascii_at(text, from) else {
        return None;
    };
    if is_of(part, c) {
        Some(rest_of(text, from + 1, part))
    } else {
        None
    }
}

// Which quote stands at a place.
fn quote_at(text: &str, from: usize) -> Option<Quote>
    requires { IsCharBoundary text.now from }
    ensures boundary { IfSome result (λ _. IsCharBoundary text.now (from + 1)) }
    ensures within { IfSome result (λ _. from < length text.now) }
    ensures read { IfSome result (λ q. piece text.now from (from + 1) ≡ quote_mark q ∷ []) }
{
    let Some(c) = ascii_at(text, from) else {
        return None;
    };
    if c == '"' {
        Some(Quote::Double)
    } else if c == '\'' {
        Some(Quote::Single)
    } else {
        None
    }
}

fn mark_of(quote: Quote) -> char
    ensures { result ≡ quote_mark quote }
{
    match quote {
        Quote::Double => '"',
        Quote::Single => '\'',
    }
}

// The value of an attribute, and what stands behind it.
#[derive(Drop)]
struct Value {
    value: Text,
    gap: Gap,
}

// What stands behind an attribute's name that has no value.
fn no_value(alloc: Global, text: &str, from: usize) -> Value
    requires { IsCharBoundary text.now from }
    ensures boundary { IsCharBoundary text.now result.gap.at }
    ensures onward { from ≤ result.gap.at }
    ensures value { (es : Entities)
        → HasValue es result.gap.behind (piece text.now from result.gap.at) result.value }
{
    Value {
        value: Text::new(alloc),
        gap: gap_at(text, from, false),
    }
}

// A value so far, and the place behind it.
#[derive(Drop)]
struct Held {
    value: Text,
    end: usize,
}

// The part of a tag that a value is.
fn value_part(quoting: Option<Quote>) -> Part
    ensures { result ≡ parts.value_part quoting }
{
    match quoting {
        Some(quote) => Part::Quoted(quote),
        None => Part::Unquoted,
    }
}

fn push_characters(value: &mut Text, characters: Characters) -> Result<(), NoMemory>
    ensures { OnOk result (value.new ≡ value.old ++ characters_in characters) }
{
    value.push(characters.first)?;
    if let Some(second) = characters.second {
        value.push(second)?;
    }
    Ok(())
}

// Adds the characters for which such a reference stands.
fn push_open(value: &mut Text, reference: OpenReference<'_>) -> Result<(), NoMemory>
    ensures { OnOk result (value.new ≡ value.old ++ open_characters reference.entry) }
{
    if let Some(characters) = reference.characters {
        push_characters(value, characters)?;
    }
    value.push_str(reference.rest)
}

// Adds what a `&` in a value, which begins no reference that ends with a `;`, comes to with what
// stands behind it, and gives the place behind that; none where it is not read so.
fn push_open_reference(
    table: &Table,
    text: &str,
    from: usize,
    quoting: Option<Quote>,
    value: &mut Text,
) -> Result<Option<usize>, NoMemory>
    requires { IsCharBoundary text.now from }
    ensures boundary { IfOk result (λ o. IfSome o (λ end. IsCharBoundary text.now end)) }
    ensures onward { IfOk result (λ o. IfSome o (λ end. from < end)) }
    ensures reads { IfOk result
        (λ o. IfSome o
        (λ end. ReadsOn table.now quoting (piece text.now from end) value.old value.new)) }
    ensures none { IfOk result (λ o. o ≡ None → value.new ≡ value.old) }
{
    let Some(reference) = open_reference_in_value(table, text, from) else {
        return Ok(None);
    };
    let end = reference.end;
    let Some(behind) = part_end(text, end, value_part(quoting)) else {
        return Ok(None);
    };
    push_open(value, reference)?;
    value.push_str(&text[end..behind])?;
    Ok(Some(behind))
}

// Adds what the reference at a place in a value comes to and what stands behind it up to the next,
// and gives that place; none where no reference is read so.
fn push_reference(
    table: &Table,
    text: &str,
    from: usize,
    quoting: Option<Quote>,
    value: &mut Text,
) -> Result<Option<usize>, NoMemory>
    requires { IsCharBoundary text.now from }
    ensures boundary { IfOk result (λ o. IfSome o (λ end. IsCharBoundary text.now end)) }
    ensures onward { IfOk result (λ o. IfSome o (λ end. from < end)) }
    ensures reads { IfOk result
        (λ o. IfSome o
        (λ end. ReadsOn table.now quoting (piece text.now from end) value.old value.new)) }
    ensures none { IfOk result (λ o. o ≡ None → value.new ≡ value.old) }
{
    if text.as_bytes().get(from) != Some(&b'&') {
        return Ok(None);
    }
    let Some(reference) = reference_at(table, text, from) else {
        return push_open_reference(table, text, from, quoting, value);
    };
    push_characters(value, reference.characters)?;
    let behind = rest_of(text, reference.end, value_part(quoting));
    value.push_str(&text[reference.end..behind])?;
    Ok(Some(behind))
}

// What stands in a value from a place on, with the references among it.
fn value_from(
    alloc: Global,
    table: &Table,
    text: &str,
    from: usize,
    quoting: Option<Quote>,
) -> Result<Held, NoMemory>
    requires { IsCharBoundary text.now from }
    ensures boundary { IfOk result (λ h. IsCharBoundary text.now h.end) }
    ensures onward { IfOk result (λ h. from ≤ h.end) }
    ensures reads { IfOk result (λ h. Reads table.now quoting (piece text.now from h.end) h.value) }
{
    let mut end = rest_of(text, from, value_part(quoting));
    let mut value = Text::from_str(alloc, &text[from..end])?;
    while let Some(behind) = push_reference(table, text, end, quoting, &mut value)? {
        end = behind;
    }
    Ok(Held { value, end })
}

// The value behind `=` and a quote.
fn quoted_value(
    alloc: Global,
    table: &Table,
    text: &str,
    from: usize,
    start: usize,
    quote: Quote,
) -> Result<Option<Value>, NoMemory>
    requires boundary { IsCharBoundary text.now from }
    requires behind { IsCharBoundary text.now start }
    requires onward { from < start }
    requires opens { piece text.now from start ≡ 61 ∷ quote_mark quote ∷ [] }
    ensures boundary { IfOk result (λ o. IfSome o (λ v. IsCharBoundary text.now v.gap.at)) }
    ensures onward { IfOk result (λ o. IfSome o (λ v. from ≤ v.gap.at)) }
    ensures value { IfOk result
        (λ o. IfSome o
        (λ v. HasValue table.now v.gap.behind (piece text.now from v.gap.at) v.value)) }
{
    let held = value_from(alloc, table, text, start, Some(quote))?;
    let Some(close) = past(text, held.end, mark_of(quote)) else {
        return Ok(None);
    };
    Ok(Some(Value {
        value: held.value,
        gap: gap_at(text, close, false),
    }))
}

// The value behind `=`, where no quote stands.
fn unquoted_value(
    alloc: Global,
    table: &Table,
    text: &str,
    from: usize,
    start: usize,
) -> Result<Option<Value>, NoMemory>
    requires boundary { IsCharBoundary text.now from }
    requires behind { IsCharBoundary text.now start }
    requires onward { from < start }
    requires opens { piece text.now from start ≡ 61 ∷ [] }
    ensures boundary { IfOk result (λ o. IfSome o (λ v. IsCharBoundary text.now v.gap.at)) }
    ensures onward { IfOk result (λ o. IfSome o (λ v. from ≤ v.gap.at)) }
    ensures value { IfOk result
        (λ o. IfSome o
        (λ v. HasValue table.now v.gap.behind (piece text.now from v.gap.at) v.value)) }
{
    let Some(c) = ascii_at(text, start) else {
        return Ok(None);
    };
    if !is_of(Part::Unquoted, c) {
        return Ok(None);
    }
    let held = value_from(alloc, table, text, start, None)?;
    if held.end == start {
        return Ok(None);
    }
    let gap = gap_at(text, held.end, true);
    Ok(Some(Value {
        value: held.value,
        gap,
    }))
}

// What stands behind an attribute's name; none where it is not read so.
fn value_at(
    alloc: Global,
    table: &Table,
    text: &str,
    from: usize,
) -> Result<Option<Value>, NoMemory>
    requires { IsCharBoundary text.now from }
    ensures boundary { IfOk result (λ o. IfSome o (λ v. IsCharBoundary text.now v.gap.at)) }
    ensures onward { IfOk result (λ o. IfSome o (λ v. from ≤ v.gap.at)) }
    ensures value { IfOk result
        (λ o. IfSome o
        (λ v. HasValue table.now v.gap.behind (piece text.now from v.gap.at) v.value)) }
{
    let Some(equals) = past(text, from, '=') else {
        return Ok(Some(no_value(alloc, text, from)));
    };
    match quote_at(text, equals) {
        Some(quote) => quoted_value(alloc, table, text, from, equals + 1, quote),
        None => unquoted_value(alloc, table, text, from, equals),
    }
}

// An attribute, and what stands behind it.
#[derive(Drop)]
struct Found {
    attribute: Attribute,
    gap: Gap,
}

// The attribute that begins at a place.
fn attribute_at(
    alloc: Global,
    table: &Table,
    text: &str,
    from: usize,
) -> Result<Option<Found>, NoMemory>
    requires { IsCharBoundary text.now from }
    ensures boundary { IfOk result (λ o. IfSome o (λ f. IsCharBoundary text.now f.gap.at)) }
    ensures onward { IfOk result (λ o. IfSome o (λ f. from < f.gap.at)) }
    ensures begins { IfOk result
        (λ o. IfSome o
        (λ f. begins_with part.AttributeName (piece text.now from f.gap.at) ≡ true)) }
    ensures gives { IfOk result
        (λ o. IfSome o
        (λ f. Gives table.now f.gap.behind (piece text.now from f.gap.at) f.attribute)) }
{
    let Some(end) = part_end(text, from, Part::AttributeName) else {
        return Ok(None);
    };
    let Some(held) = value_at(alloc, table, text, end)? else {
        return Ok(None);
    };
    let name = Text::from_str(alloc, &text[from..end])?;
    Ok(Some(Found {
        attribute: Attribute {
            name,
            value: held.value,
        },
        gap: held.gap,
    }))
}

// The tag with these parts.
fn tag_of(
    alloc: Global,
    kind: TagKind,
    name: &str,
    attributes: Attributes,
    self_closing: bool,
) -> Result<Token, NoMemory>
    ensures { IfOk result
        (λ t. t ≡ tag_token kind
        (finished self_closing
        (record { kind = kind; name = chars name.now; attributes = attributes }))) }
{
    let tag = Tag {
        name: Name::of(alloc, name)?,
        attributes,
        self_closing,
    };
    match kind {
        TagKind::Start => Ok(Token::StartTag(tag)),
        TagKind::End => Ok(Token::EndTag(tag)),
    }
}

// Whether the tag ends with a slash, and the place behind it.
#[derive(Drop)]
struct Close {
    self_closing: bool,
    end: usize,
}

// The end of the tag at a place; none where the tag goes on.
fn close_at(text: &str, from: usize, behind: Behind) -> Option<Close>
    requires { IsCharBoundary text.now from }
    ensures boundary { IfSome result (λ e. IsCharBoundary text.now e.end) }
    ensures onward { IfSome result (λ e. from < e.end) }
    ensures read { IfSome result (λ e. piece text.now from e.end ≡ close_text e.self_closing) }
    ensures may { IfSome result (λ e. may_close behind e.self_closing ≡ true) }
{
    if let Some(end) = past(text, from, '>') {
        return Some(Close {
            self_closing: false,
            end,
        });
    }
    if matches!(behind, Behind::Value) {
        return None;
    }
    let Some(slash) = past(text, from, '/') else {
        return None;
    };
    match past(text, slash, '>') {
        None => None,
        Some(end) => Some(Close {
            self_closing: true,
            end,
        }),
    }
}

// The tag that begins at a place, whose characters may have a CR among them.
fn tag_at(alloc: Global, table: &Table, text: &str, from: usize) -> Result<Option<Whole>, NoMemory>
    requires { IsCharBoundary text.now from }
    ensures boundary { IfOk result (λ o. IfSome o (λ w. IsCharBoundary text.now w.end)) }
    ensures onward { IfOk result (λ o. IfSome o (λ w. from < w.end)) }
    ensures alone { IfOk result
        (λ o. IfSome o (λ w. MakesAlone table.now (piece text.now from w.end) w.token)) }
{
    let Some(head) = head_at(text, from) else {
        return Ok(None);
    };
    let Some(to) = name_end(text, head.name) else {
        return Ok(None);
    };
    let mut attributes = Attributes::new(alloc);
    let mut gap = gap_at(text, to, false);
    'attributes: loop {
        if let Some(close) = close_at(text, gap.at, gap.behind) {
            let name = &text[head.name..to];
            let token = tag_of(alloc, head.kind, name, attributes, close.self_closing)?;
            return Ok(Some(Whole {
                token,
                end: close.end,
            }));
        }
        if !matches!(gap.behind, Behind::Space) {
            return Ok(None);
        }
        let Some(found) = attribute_at(alloc, table, text, gap.at)? else {
            return Ok(None);
        };
        if attributes.has(&found.attribute.name) {
            return Ok(None);
        }
        attributes.push(found.attribute)?;
        gap = found.gap;
    }
}

/// The tag that begins at a place, and the place behind it; none where the text has none there, or
/// where it is not read so. A CR would be read as a line feed (13.2.3.5
/// #preprocessing-the-input-stream), so a tag with one is left to the tokenizer.
pub fn whole_tag(
    alloc: Global,
    table: &Table,
    text: &str,
    from: usize,
) -> Result<Option<Whole>, NoMemory>
    requires { IsCharBoundary text.now from }
    ensures boundary { IfOk result (λ o. IfSome o (λ w. IsCharBoundary text.now w.end)) }
    ensures onward { IfOk result (λ o. IfSome o (λ w. from < w.end)) }
    ensures alone { IfOk result
        (λ o. IfSome o (λ w. MakesAlone table.now (piece text.now from w.end) w.token)) }
    ensures no_cr { IfOk result (λ o. IfSome o (λ w. has_cr (piece text.now from w.end) ≡ false)) }
{
    let Some(whole) = tag_at(alloc, table, text, from)? else {
        return Ok(None);
    };
    if lacks_cr(&text[from..whole.end]) {
        Ok(Some(whole))
    } else {
        Ok(None)
    }
}

// The comment or the tag that begins at a place.
fn comment_or_tag(
    alloc: Global,
    table: &Table,
    text: &str,
    from: usize,
) -> Result<Option<Whole>, NoMemory>
    requires { IsCharBoundary text.now from }
    ensures boundary { IfOk result (λ o. IfSome o (λ w. IsCharBoundary text.now w.end)) }
    ensures onward { IfOk result (λ o. IfSome o (λ w. from < w.end)) }
    ensures alone { IfOk result
        (λ o. IfSome o (λ w. MakesAlone table.now (piece text.now from w.end) w.token)) }
    ensures no_cr { IfOk result (λ o. IfSome o (λ w. has_cr (piece text.now from w.end) ≡ false)) }
{
    if text.as_bytes().get(from.saturating_add(1)) != Some(&b'!') {
        return whole_tag(alloc, table, text, from);
    }
    let Some(comment) = whole_comment(alloc, text, from)? else {
        return Ok(None);
    };
    Ok(Some(Whole {
        token: Token::Comment(comment.text),
        end: comment.end,
    }))
}

// The numeric reference that begins at a place.
fn number_token(text: &str, from: usize) -> Option<Whole>
    requires { IsCharBoundary text.now from }
    ensures boundary { IfSome result (λ w. IsCharBoundary text.now w.end) }
    ensures onward { IfSome result (λ w. from < w.end) }
    ensures alone { IfSome result
        (λ w. (es : Entities) → MakesAlone es (piece text.now from w.end) w.token) }
    ensures no_cr { IfSome result (λ w. has_cr (piece text.now from w.end) ≡ false) }
{
    let Some(number) = whole_number(text, from) else {
        return None;
    };
    let character = number.character;
    Some(Whole {
        token: Token::Character(character),
        end: number.end,
    })
}

/// The tag, the comment or the numeric reference that begins at a place, and the place behind it;
/// none where the text has none there, or where it is not read so.
pub fn whole_token(
    alloc: Global,
    table: &Table,
    text: &str,
    from: usize,
) -> Result<Option<Whole>, NoMemory>
    requires { IsCharBoundary text.now from }
    ensures boundary { IfOk result (λ o. IfSome o (λ w. IsCharBoundary text.now w.end)) }
    ensures onward { IfOk result (λ o. IfSome o (λ w. from < w.end)) }
    ensures alone { IfOk result
        (λ o. IfSome o (λ w. MakesAlone table.now (piece text.now from w.end) w.token)) }
    ensures no_cr { IfOk result (λ o. IfSome o (λ w. has_cr (piece text.now from w.end) ≡ false)) }
{
    if text.as_bytes().get(from) == Some(&b'&') {
        Ok(number_token(text, from))
    } else {
        comment_or_tag(alloc, table, text, from)
    }
}
