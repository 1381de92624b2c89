//! How the rows write tokens.

use html_types::{NoMemory, Tag, Token, Tokens};
use std::alloc::Global;

/// More tokens than a row has.
pub const MANY: usize = 100;

/// Tokens as the rows write them. A start tag is `<name a="v">` or `<name a="v"/>`, an end tag the
/// same with `</`, a comment `<!--x-->`, a doctype `<!name!>`, or `<!name?>` where its force-quirks
/// flag is set, and the end of the file `$`. A character stands for itself, but `<` is `&lt;` and
/// `&` is `&amp;`.
pub fn spelling(alloc: Global, tokens: &mut Tokens) -> Result<String, NoMemory> {
    let mut spelled = String::new(alloc);
    for _ in 0..MANY {
        match tokens.pop() {
            None => break,
            Some(token) => spell(&mut spelled, &token)?,
        }
    }
    Ok(spelled)
}

fn spell(spelled: &mut String, token: &Token) -> Result<(), NoMemory> {
    match token {
        Token::StartTag(tag) => spell_tag(spelled, "<", tag)?,
        Token::EndTag(tag) => spell_tag(spelled, "</", tag)?,
        Token::Character('<') => spelled.push_str("&lt;")?,
        Token::Character('&') => spelled.push_str("&amp;")?,
        Token::Character(c) => spelled.push(*c)?,
        Token::Comment(text) => spell_between(spelled, "<!--", text.as_str(), "-->")?,
        Token::Doctype { name, force_quirks } => spell_between(
            spelled,
            "<!",
            name.as_str(),
            if *force_quirks { "?>" } else { "!>" },
        )?,
        Token::EndOfFile => spelled.push('$')?,
    }
    Ok(())
}

fn spell_tag(spelled: &mut String, front: &str, tag: &Tag) -> Result<(), NoMemory> {
    spell_between(spelled, front, tag.name.as_str(), "")?;
    for attribute in tag.attributes.as_slice() {
        spell_between(spelled, " ", attribute.name.as_str(), "=")?;
        spell_between(spelled, "\"", attribute.value.as_str(), "\"")?;
    }
    spelled.push_str(if tag.self_closing { "/>" } else { ">" })?;
    Ok(())
}

fn spell_between(
    spelled: &mut String,
    front: &str,
    text: &str,
    back: &str,
) -> Result<(), NoMemory> {
    spelled.push_str(front)?;
    spelled.push_str(text)?;
    spelled.push_str(back)?;
    Ok(())
}
