//! Worked pages and texts: what the definitions in `standard` come to, by computation.
//! `specs/Pages` has the pages, each with what is written for it, a list a group; what doesn't fit
//! that form stands in `proofs/`.
#![tactic(auto)]

ghost use Rattle.standard_examples.specs.Pages.{AllWrite, blocks, scripts, moves, formatting};
ghost use Rattle.standard_examples.specs.Pages.{tables, foster_parenting, captions_and_columns};
ghost use Rattle.standard_examples.specs.Pages.{rows_and_cells, selects, templates, framesets};
ghost use Rattle.standard_examples.specs.Pages.{fragments, foreign_content};

/// Text, blocks and lists (13.2.6.4.1 #the-initial-insertion-mode to
/// 13.2.6.4.7 #parsing-main-inbody).
pub fn blocks()
    ensures { AllWrite blocks }
{}

/// Scripts: what they write, remove and read (the insertion point,
/// 13.2.6.4.8 #parsing-main-incdata).
pub fn scripts()
    ensures { AllWrite scripts }
{}

/// Scripts: the lines that they write, and the elements that they move
/// (DOM 4.2.6 #interface-parentnode, append).
pub fn moves()
    ensures { AllWrite moves }
{}

/// Formatting elements and the adoption agency algorithm
/// (13.2.4.3 #the-list-of-active-formatting-elements, 13.2.6.4.7 #parsing-main-inbody).
pub fn formatting()
    ensures { AllWrite formatting }
{}

/// Tables (13.2.6.4.9 #parsing-main-intable).
pub fn tables()
    ensures { AllWrite tables }
{}

/// Foster parenting (13.2.6.1 #creating-and-inserting-nodes) and pending text
/// (13.2.6.4.10 #parsing-main-intabletext).
pub fn foster_parenting()
    ensures { AllWrite foster_parenting }
{}

/// Captions and columns (13.2.6.4.11 #parsing-main-incaption,
/// 13.2.6.4.12 #parsing-main-incolgroup).
pub fn captions_and_columns()
    ensures { AllWrite captions_and_columns }
{}

/// Rows and cells (13.2.6.4.13 #parsing-main-intbody to 13.2.6.4.15 #parsing-main-intd).
pub fn rows_and_cells()
    ensures { AllWrite rows_and_cells }
{}

/// Select (13.2.6.4.16 #parsing-main-inselect, 13.2.6.4.17 #parsing-main-inselectintable).
pub fn selects()
    ensures { AllWrite selects }
{}

/// Templates (13.2.6.4.18 #parsing-main-intemplate).
pub fn templates()
    ensures { AllWrite templates }
{}

/// Framesets (13.2.6.4.20 #parsing-main-inframeset to
/// 13.2.6.4.23 #the-after-after-frameset-insertion-mode).
pub fn framesets()
    ensures { AllWrite framesets }
{}

/// Fragments (13.4 #parsing-html-fragments): what a script sets in an element.
pub fn fragments()
    ensures { AllWrite fragments }
{}

/// Foreign content: svg and math (13.2.6.5 #parsing-main-inforeign).
pub fn foreign_content()
    ensures { AllWrite foreign_content }
{}
