//! Sets of words.

ghost use Rattle.std.specs.Prelude.{◌≡◌};
ghost use Rattle.standard.specs.Groups.{in_group, stops};

use html_types::word::Word;
use html_types::word::Word::*;
use html_types::{Group, Scope};

/// Whether the word is in the group.
pub fn is_in(group: Group, word: Word) -> bool
    ensures { result ≡ in_group group word }
{
    match group {
        Group::Headings => is_headings(word),
        Group::DefinitionItems => is_definition_items(word),
        Group::Special => is_special(word),
        Group::ClosedImplicitly => is_closed_implicitly(word),
        Group::ClosedThoroughly => is_closed_thoroughly(word),
        Group::TableContext => is_table_context(word),
        Group::TableBodyContext => is_table_body_context(word),
        Group::RowContext => is_row_context(word),
        Group::TableSections => is_table_sections(word),
        Group::Cells => is_cells(word),
        Group::TextTargets => is_text_targets(word),
        Group::FosterTargets => is_foster_targets(word),
        Group::PassedItems => is_passed_items(word),
    }
}

/// Whether an element of that name ends the search of "has an element in scope"
/// (13.2.4.2 #the-stack-of-open-elements).
pub fn stops_at(scope: Scope, word: Word) -> bool
    ensures { result ≡ stops scope word }
{
    match scope {
        Scope::Default => matches!(
            &word,
            Applet | Caption | Html | Table | Td | Th | Marquee | Object | Template
        ),
        Scope::ListItem => matches!(
            &word,
            Applet | Caption | Html | Table | Td | Th | Marquee | Object | Template | Ol | Ul
        ),
        Scope::Button => matches!(
            &word,
            Applet | Caption | Html | Table | Td | Th | Marquee | Object | Template | Button
        ),
        Scope::Table => matches!(&word, Html | Table | Template),
        Scope::Select => !matches!(&word, Optgroup | Option),
    }
}

fn is_headings(word: Word) -> bool
    ensures { result ≡ in_group Group.Headings word }
{
    matches!(&word, H1 | H2 | H3 | H4 | H5 | H6)
}

fn is_definition_items(word: Word) -> bool
    ensures { result ≡ in_group Group.DefinitionItems word }
{
    matches!(&word, Dd | Dt)
}

fn is_special(word: Word) -> bool
    ensures { result ≡ in_group Group.Special word }
{
    matches!(
        &word,
        Address
            | Applet
            | Area
            | Article
            | Aside
            | Base
            | Basefont
            | Bgsound
            | Blockquote
            | Body
            | Br
            | Button
            | Caption
            | Center
            | Col
            | Colgroup
            | Dd
            | Details
            | Dir
            | Div
            | Dl
            | Dt
            | Embed
            | Fieldset
            | Figcaption
            | Figure
            | Footer
            | Form
            | Frame
            | Frameset
            | H1
            | H2
            | H3
            | H4
            | H5
            | H6
            | Head
            | Header
            | Hgroup
            | Hr
            | Html
            | Iframe
            | Img
            | Input
            | Keygen
            | Li
            | Link
            | Listing
            | Main
            | Marquee
            | Menu
            | Meta
            | Nav
            | Noembed
            | Noframes
            | Noscript
            | Object
            | Ol
            | P
            | Param
            | Plaintext
            | Pre
            | Script
            | Search
            | Section
            | Select
            | Source
            | Style
            | Summary
            | Table
            | Tbody
            | Td
            | Template
            | Textarea
            | Tfoot
            | Th
            | Thead
            | Title
            | Tr
            | Track
            | Ul
            | Wbr
            | Xmp
    )
}

fn is_closed_implicitly(word: Word) -> bool
    ensures { result ≡ in_group Group.ClosedImplicitly word }
{
    matches!(
        &word,
        Dd | Dt | Li | Optgroup | Option | P | Rb | Rp | Rt | Rtc
    )
}

fn is_closed_thoroughly(word: Word) -> bool
    ensures { result ≡ in_group Group.ClosedThoroughly word }
{
    matches!(
        &word,
        Caption
            | Colgroup
            | Dd
            | Dt
            | Li
            | Optgroup
            | Option
            | P
            | Rb
            | Rp
            | Rt
            | Rtc
            | Tbody
            | Td
            | Tfoot
            | Th
            | Thead
            | Tr
    )
}

fn is_table_context(word: Word) -> bool
    ensures { result ≡ in_group Group.TableContext word }
{
    matches!(&word, Table | Template | Html)
}

fn is_table_body_context(word: Word) -> bool
    ensures { result ≡ in_group Group.TableBodyContext word }
{
    matches!(&word, Tbody | Tfoot | Thead | Template | Html)
}

fn is_row_context(word: Word) -> bool
    ensures { result ≡ in_group Group.RowContext word }
{
    matches!(&word, Tr | Template | Html)
}

fn is_table_sections(word: Word) -> bool
    ensures { result ≡ in_group Group.TableSections word }
{
    matches!(&word, Tbody | Tfoot | Thead)
}

fn is_cells(word: Word) -> bool
    ensures { result ≡ in_group Group.Cells word }
{
    matches!(&word, Td | Th)
}

fn is_text_targets(word: Word) -> bool
    ensures { result ≡ in_group Group.TextTargets word }
{
    matches!(&word, Table | Tbody | Template | Tfoot | Thead | Tr)
}

fn is_foster_targets(word: Word) -> bool
    ensures { result ≡ in_group Group.FosterTargets word }
{
    matches!(&word, Table | Tbody | Tfoot | Thead | Tr)
}

fn is_passed_items(word: Word) -> bool
    ensures { result ≡ in_group Group.PassedItems word }
{
    matches!(&word, Address | Div | P)
}
