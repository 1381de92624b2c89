//! A text read in pieces, against the whole of it.

ghost use Rattle.std.specs.Prelude.{IfOk};
ghost use Rattle.std.specs.Str.{IsCharBoundary};

use crate::spelling::{MANY, spelling};
use entity_table::Table;
use html_types::{NoMemory, RawText, TextState, TokState, Tokens, Word, char_at};
use std::alloc::Global;
use tokenizer::Tokenizer;

/// Where the tokenizer begins.
#[derive(Clone, Copy)]
pub enum Start {
    Data,
    /// RCDATA, in a title.
    Title,
    /// RAWTEXT, in a style.
    Style,
    /// Script data, in a script.
    Script,
}

/// In how many pieces a text is read.
#[derive(Clone, Copy)]
pub enum Cuts {
    /// In one, character by character, which is to give the tokens that are written.
    One,
    /// In two, wherever it is cut, which are to give what the whole gives.
    Two,
    Three,
}

/// Where the tokenizer begins, whether the adjusted current node isn't an HTML element, a text, and
/// its tokens as `spelling` writes them.
#[derive(Clone, Copy)]
pub struct Row {
    pub start: Start,
    pub foreign: bool,
    pub text: &'static str,
    pub tokens: &'static str,
}

/// How a text is read.
#[derive(Clone, Copy, PartialEq, Eq)]
enum Way {
    ByCharacter,
    /// What the state only adds to what it holds, or drops, is taken at once in front of each
    /// character.
    InRuns,
}

// A tokenizer, and the tokens that it gave.
#[derive(Drop)]
struct Reader {
    tokenizer: Tokenizer,
    tokens: Tokens,
}

fn raw(raw: RawText, word: Word) -> TokState {
    TokState::Text(TextState::Raw(raw, Some(word)))
}

impl Reader {
    fn begin(alloc: Global, start: Start) -> Reader {
        let mut tokenizer = Tokenizer::new(alloc);
        match start {
            Start::Data => {}
            Start::Title => tokenizer.load(raw(RawText::Rcdata, Word::Title)),
            Start::Style => tokenizer.load(raw(RawText::Rawtext, Word::Style)),
            Start::Script => tokenizer.load(raw(RawText::ScriptData, Word::Script)),
        }
        Reader {
            tokenizer,
            tokens: Tokens::new(alloc),
        }
    }

    // Takes the tokens that wait, of which there are few.
    fn take_waiting(&mut self) -> Result<(), NoMemory> {
        for _ in 0..MANY {
            let Some(token) = self.tokenizer.pop() else {
                break;
            };
            self.tokens.push(token)?;
        }
        Ok(())
    }

    // Takes what the state only adds to what it holds, or drops: up to where.
    fn append(&mut self, text: &str) -> Result<usize, NoMemory>
        ensures { IfOk result (λ end. IsCharBoundary text.now end) }
    {
        self.tokenizer.append(text, 0)
    }

    // The same, and gives the rest of the text.
    fn take_run<'a>(&mut self, text: &'a str) -> Result<&'a str, NoMemory> {
        let end = self.append(text)?;
        Ok(&text[end..])
    }

    // Reads a character. What that promises is long, and what stands behind it needs none of it.
    fn read_one(
        &mut self,
        alloc: Global,
        table: &Table,
        foreign: bool,
        c: char,
    ) -> Result<(), NoMemory> {
        self.tokenizer.read_character(alloc, table, foreign, c)?;
        self.take_waiting()
    }

    // Reads the first character of a text, and gives the rest; none where there is no character.
    fn take_character<'a>(
        &mut self,
        alloc: Global,
        table: &Table,
        foreign: bool,
        text: &'a str,
    ) -> Result<Option<&'a str>, NoMemory> {
        let Some((c, behind)) = char_at(text, 0) else {
            return Ok(None);
        };
        self.read_one(alloc, table, foreign, c)?;
        Ok(Some(&text[behind..]))
    }

    fn read(
        &mut self,
        alloc: Global,
        table: &Table,
        foreign: bool,
        way: Way,
        piece: &str,
    ) -> Result<(), NoMemory> {
        let mut rest = piece;
        for _ in 0..=piece.len() {
            if way == Way::InRuns {
                rest = self.take_run(rest)?;
            }
            let Some(behind) = self.take_character(alloc, table, foreign, rest)? else {
                break;
            };
            rest = behind;
        }
        Ok(())
    }

    fn finish(&mut self, alloc: Global, table: &Table, foreign: bool) -> Result<(), NoMemory> {
        self.tokenizer.finish(alloc, table, foreign)?;
        self.take_waiting()
    }
}

// What the pieces of a text give: the tokenizer before the end of the file, and the reader behind
// it.
#[derive(Drop)]
struct Given {
    before: Tokenizer,
    reader: Reader,
}

impl Given {
    fn same(&self, other: &Given) -> bool {
        self.reader.tokens.same(&other.reader.tokens)
            && self.before.same(&other.before)
            && self.reader.tokenizer.same(&other.reader.tokenizer)
    }
}

fn read_pieces(
    alloc: Global,
    table: &Table,
    row: &Row,
    way: Way,
    pieces: &[&str],
) -> Result<Given, NoMemory> {
    let mut reader = Reader::begin(alloc, row.start);
    for piece in pieces {
        reader.read(alloc, table, row.foreign, way, piece)?;
    }
    let before = reader.tokenizer.copy(alloc)?;
    reader.finish(alloc, table, row.foreign)?;
    Ok(Given { before, reader })
}

// What the whole text gives, character by character.
fn read_whole(alloc: Global, table: &Table, row: &Row) -> Result<Given, NoMemory> {
    read_pieces(alloc, table, row, Way::ByCharacter, &[row.text])
}

// Whether the whole text gives the row's tokens.
fn gives_tokens(alloc: Global, table: &Table, row: &Row) -> Result<bool, NoMemory> {
    let mut whole = read_whole(alloc, table, row)?;
    let spelled = spelling(alloc, &mut whole.reader.tokens)?;
    Ok(spelled.as_str() == row.tokens)
}

// Whether the pieces, read in runs, give what the whole text does.
fn agrees(
    alloc: Global,
    table: &Table,
    row: &Row,
    whole: &Given,
    pieces: &[&str],
) -> Result<bool, NoMemory> {
    let parts = read_pieces(alloc, table, row, Way::InRuns, pieces)?;
    Ok(parts.same(whole))
}

// Whether the text gives the same in two pieces, wherever it is cut.
fn gives_in_two(alloc: Global, table: &Table, row: &Row) -> Result<bool, NoMemory> {
    let whole = read_whole(alloc, table, row)?;
    for place in 0..=row.text.len() {
        if let Some((front, back)) = row.text.split_at_checked(place) {
            if !agrees(alloc, table, row, &whole, &[front, back])? {
                return Ok(false);
            }
        }
    }
    Ok(true)
}

// Whether the text gives the same in three pieces, the first of which is `front`, wherever the rest
// is cut.
fn agrees_behind(
    alloc: Global,
    table: &Table,
    row: &Row,
    whole: &Given,
    front: &str,
    rest: &str,
) -> Result<bool, NoMemory> {
    for place in 0..=rest.len() {
        if let Some((middle, back)) = rest.split_at_checked(place) {
            if !agrees(alloc, table, row, whole, &[front, middle, back])? {
                return Ok(false);
            }
        }
    }
    Ok(true)
}

// Whether the text gives the same in three pieces, wherever it is cut.
fn gives_in_three(alloc: Global, table: &Table, row: &Row) -> Result<bool, NoMemory> {
    let whole = read_whole(alloc, table, row)?;
    for place in 0..=row.text.len() {
        if let Some((front, rest)) = row.text.split_at_checked(place) {
            if !agrees_behind(alloc, table, row, &whole, front, rest)? {
                return Ok(false);
            }
        }
    }
    Ok(true)
}

/// Whether the text, cut so, gives what it is to give.
pub fn gives(alloc: Global, table: &Table, row: &Row, cuts: Cuts) -> Result<bool, NoMemory> {
    match cuts {
        Cuts::One => gives_tokens(alloc, table, row),
        Cuts::Two => gives_in_two(alloc, table, row),
        Cuts::Three => gives_in_three(alloc, table, row),
    }
}
