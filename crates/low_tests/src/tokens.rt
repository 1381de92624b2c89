//! Texts whose tokens are the standard's, however the texts are cut: the rows. Their tokens are
//! written from the standard's rules (13.2.5 #tokenization).

use crate::cuts::{Cuts, Row, Start, gives};
use entity_table::{Table, TableFault};
use html_types::NoMemory;
use std::alloc::Global;
use std::test::Fail;

// Names with and without `;`, one that another begins, and one that stands for two characters.
const ENTITIES: &[u8] =
    b"{\"&amp;\":{\"codepoints\":[38]},\"&amp\":{\"codepoints\":[38]},\"&lt;\":{\"codepoints\":[60]},\"&lt\":{\"codepoints\":[60]},\"&not;\":{\"codepoints\":[172]},\"&not\":{\"codepoints\":[172]},\"&notin;\":{\"codepoints\":[8713]},\"&acE;\":{\"codepoints\":[8766,819]},\"&CounterClockwiseContourIntegral;\":{\"codepoints\":[8755]}}";

// Texts that are read alike, each with its tokens.
#[derive(Clone, Copy)]
struct Texts {
    start: Start,
    foreign: bool,
    rows: &'static [(&'static str, &'static str)],
}

const TEXTS: [Texts; 8] = [
    // Tags and attributes.
    Texts {
        start: Start::Data,
        foreign: false,
        rows: &[
            ("<p a=1 A='2' b>x</p>", "<p a=\"1\" b=\"\">x</p>$"),
            ("<DIV Class=X>", "<div class=\"X\">$"),
            ("<br/>", "<br/>$"),
            ("<a/ b>", "<a b=\"\">$"),
            ("<a =b>", "<a =b=\"\">$"),
            ("<a b=c/>", "<a b=\"c/\">$"),
            ("<a b = \"c\"d>", "<a b=\"c\" d=\"\">$"),
            ("<a b=>", "<a b=\"\">$"),
            ("<a\0 \0=\0>", "<a\u{FFFD} \u{FFFD}=\"\u{FFFD}\">$"),
            (
                "<p\u{E9}>\u{1F600}</P\u{E9} >",
                "<p\u{E9}>\u{1F600}</p\u{E9}>$",
            ),
            ("<", "&lt;$"),
            ("<\0", "&lt;\0$"),
            ("<1", "&lt;1$"),
            ("\0x", "\0x$"),
            ("</>", "$"),
            ("</ x>", "<!-- x-->$"),
            ("</", "&lt;/$"),
            ("x<p", "x$"),
            ("x<p a='b", "x$"),
            ("</p/", "$"),
        ],
    },
    // Character references.
    Texts {
        start: Start::Data,
        foreign: false,
        rows: &[
            ("&notit;", "\u{AC}it;$"),
            ("&notin;", "\u{2209}$"),
            ("&noti", "\u{AC}i$"),
            ("&notit; ", "\u{AC}it; $"),
            ("&foo bar", "&amp;foo bar$"),
            ("&CounterClockwiseContourIntegral;", "\u{2233}$"),
            (
                "&CounterClockwiseContourIntegral ",
                "&amp;CounterClockwiseContourIntegral $",
            ),
            ("<a b='&notit;'>", "<a b=\"&notit;\">$"),
            ("<a b='&lt='>", "<a b=\"&lt=\">$"),
            ("<a b='&lt'>", "<a b=\"<\">$"),
            ("<a b=&lt c=&lt;d>", "<a b=\"<\" c=\"<d\">$"),
            ("&amp;", "&amp;$"),
            ("&am", "&amp;am$"),
            ("&ampx", "&amp;x$"),
            ("&acE;", "\u{223E}\u{333}$"),
            ("&#128;", "\u{20AC}$"),
            ("&#x1F600;", "\u{1F600}$"),
            ("&#xD800;", "\u{FFFD}$"),
            ("&#1114112;", "\u{FFFD}$"),
            ("&#0;", "\u{FFFD}$"),
            ("a&#13;b", "a\rb$"),
            ("&#X4Az", "Jz$"),
            ("&#x;", "&amp;#x;$"),
            ("&#;", "&amp;#;$"),
            ("&;", "&amp;;$"),
            ("a&b", "a&amp;b$"),
        ],
    },
    // Comments and doctypes.
    Texts {
        start: Start::Data,
        foreign: false,
        rows: &[
            ("<!-->", "<!---->$"),
            ("<!--->", "<!---->$"),
            ("<!--a--!>", "<!--a-->$"),
            ("<!--a--!-->", "<!--a--!-->$"),
            ("<!--<!-- x -->", "<!--<!-- x -->$"),
            ("<!--\0--->", "<!--\u{FFFD}--->$"),
            ("<!--a-", "<!--a-->$"),
            ("<!-", "<!----->$"),
            ("<!x>", "<!--x-->$"),
            ("<?x>", "<!--?x-->$"),
            ("<!docx>", "<!--docx-->$"),
            ("<![CDATA[x]]>", "<!--[CDATA[x]]-->$"),
            ("<!DOCTYPE html>", "<!html!>$"),
            ("<!doctype HTML PUBLIC \"a\" 'b'>", "<!html!>$"),
            ("<!DOCTYPE x PUBLIC\"a\">", "<!x!>$"),
            ("<!DOCTYPE x SYSTEM 'a' b>", "<!x!>$"),
            ("<!DOCTYPE>", "<!?>$"),
            ("<!DOCTYPE", "<!?>$"),
            ("<!DOCTYPE x SYSTEM", "<!x?>$"),
            ("<!DOCTYPE x pub>", "<!x?>$"),
            ("<!DOCTYPE x \"y\">", "<!x?>$"),
            ("<!DOCTYPE x PUBLIC 'a>b", "<!x?>b$"),
        ],
    },
    // Runs of characters that a state only adds to what it holds or drops, with those among them at
    // which one ends.
    Texts {
        start: Start::Data,
        foreign: false,
        rows: &[
            (
                "<!--ab\rc\0d-e<f--g->h\u{E9}-->",
                "<!--ab\rc\u{FFFD}d-e<f--g->h\u{E9}-->$",
            ),
            ("<!xy\rz\0-<w\u{E9}>", "<!--xy\rz\u{FFFD}-<w\u{E9}-->$"),
            ("<!DOCTYPE h\rt\0M-l<\u{E9}>", "<!h\rt\u{FFFD}m-l<\u{E9}!>$"),
            (
                "<!DOCTYPE a PUBLIC \"x\ry\0-<'\u{E9}\" '-\r\0<\"'>",
                "<!a!>$",
            ),
            ("<!DOCTYPE a b\rc\0-<\"\u{E9}>", "<!a?>$"),
            (
                "<aB\rc\0-<\u{E9} dE\rf\0-<\u{E9}>",
                "<ab\rc\u{FFFD}-<\u{E9} de\rf\u{FFFD}-<\u{E9}=\"\">$",
            ),
            (
                "<a b=\"x\ry\0z-<'\u{E9}&\">",
                "<a b=\"x\ry\u{FFFD}z-<'\u{E9}&\">$",
            ),
            (
                "<a b='x\ry\0-<\"' c=x\ry\0-<\"'\u{E9}>",
                "<a b=\"x\ry\u{FFFD}-<\"\" c=\"x\ry\u{FFFD}-<\"'\u{E9}\">$",
            ),
            ("<a b=x b=\"y\r\0-<\" b='\r-' b=\r\0-<>", "<a b=\"x\">$"),
        ],
    },
    // The text of a title.
    Texts {
        start: Start::Title,
        foreign: false,
        rows: &[
            ("&lt;</titl></title>", "&lt;&lt;/titl></title>$"),
            ("\0</TITLE/>", "\u{FFFD}</title/>$"),
            ("</title", "&lt;/title$"),
        ],
    },
    // The text of a style.
    Texts {
        start: Start::Style,
        foreign: false,
        rows: &[
            ("&lt;</style >", "&amp;lt;</style>$"),
            ("<!--</style>-->", "&lt;!--</style>-->$"),
        ],
    },
    // The text of a script.
    Texts {
        start: Start::Script,
        foreign: false,
        rows: &[
            (
                "<!--<script></script>--></script>",
                "&lt;!--&lt;script>&lt;/script>--></script>$",
            ),
            ("<!-- --></script>", "&lt;!-- --></script>$"),
            ("</scrip></script>", "&lt;/scrip></script>$"),
            ("<!--</script>", "&lt;!--</script>$"),
            ("<!--<script></script", "&lt;!--&lt;script>&lt;/script$"),
            ("<!--<scripts></script>", "&lt;!--&lt;scripts></script>$"),
        ],
    },
    // CDATA sections.
    Texts {
        start: Start::Data,
        foreign: true,
        rows: &[
            ("<![CDATA[a<b]]>c", "a&lt;bc$"),
            ("<![CDATA[]]>", "$"),
            ("<![CDATA[]]]>", "]$"),
            ("<![CDATA[a]b]]c>]]]]>", "a]b]]c>]]$"),
            ("<![CDATA[\0&lt;]]>\0", "\0&amp;lt;\0$"),
            ("<![CDATA[x", "x$"),
            ("<![CDATA[x]", "x]$"),
            ("<![CDATA[x]]", "x]]$"),
            ("<![cdata[x]]>", "<!--[cdata[x]]-->$"),
            ("<![CDAT>", "<!--[CDAT-->$"),
            ("<![CDATA", "<!--[CDATA-->$"),
            ("<!--x--><!doctype y>", "<!--x--><!y!>$"),
            ("]]>", "]]>$"),
        ],
    },
];

// The entities in force. What the file comes to isn't to be worked out behind this.
fn entities(alloc: Global) -> Result<Table, TableFault> {
    Table::read(alloc, ENTITIES)
}

// The first of the texts that doesn't give its tokens, cut so. None where each does.
fn wrong_in(
    alloc: Global,
    table: &Table,
    texts: &Texts,
    cuts: Cuts,
) -> Result<Option<&'static str>, NoMemory> {
    for (text, tokens) in texts.rows {
        let row = Row {
            start: texts.start,
            foreign: texts.foreign,
            text: *text,
            tokens: *tokens,
        };
        if !gives(alloc, table, &row, cuts)? {
            return Ok(Some(row.text));
        }
    }
    Ok(None)
}

// The same of all texts.
fn wrong(alloc: Global, table: &Table, cuts: Cuts) -> Result<Option<&'static str>, NoMemory> {
    for texts in &TEXTS {
        let found = wrong_in(alloc, table, texts, cuts)?;
        if found.is_some() {
            return Ok(found);
        }
    }
    Ok(None)
}

#[test]
fn texts_give_their_tokens(rt: HostRuntime) -> Result<(), Fail> {
    let table = entities(rt.alloc())?;
    assert_eq!(rt; wrong(rt.alloc(), &table, Cuts::One)?, None);
    Ok(())
}

#[test]
fn texts_give_the_same_in_two(rt: HostRuntime) -> Result<(), Fail> {
    let table = entities(rt.alloc())?;
    assert_eq!(rt; wrong(rt.alloc(), &table, Cuts::Two)?, None);
    Ok(())
}

#[test]
fn texts_give_the_same_in_three(rt: HostRuntime) -> Result<(), Fail> {
    let table = entities(rt.alloc())?;
    assert_eq!(rt; wrong(rt.alloc(), &table, Cuts::Three)?, None);
    Ok(())
}
