//! What a row of tree construction (13.2.6 #tree-construction) is made of.

use crate::name::Space;
use crate::operation::NodeId;
use crate::word::Word;

/// The insertion modes (13.2.4.1 #the-insertion-mode), and the rules for foreign content.
#[derive(Clone, Copy, PartialEq, Eq)]
pub enum Mode {
    Initial,
    BeforeHtml,
    BeforeHead,
    InHead,
    AfterHead,
    InBody,
    /// The mode "text".
    InText,
    InTable,
    InTableText,
    InCaption,
    InColumnGroup,
    InTableBody,
    InRow,
    InCell,
    InSelect,
    InSelectInTable,
    InTemplate,
    AfterBody,
    InFrameset,
    AfterFrameset,
    AfterAfterBody,
    AfterAfterFrameset,
    /// The rules for parsing tokens in foreign content (13.2.6.5 #parsing-main-inforeign): no
    /// insertion mode, and never entered.
    InForeign,
}

/// How the tokenizer reads on behind a start tag.
#[derive(Clone, Copy)]
pub enum TokenizerSwitch {
    Rcdata,
    Rawtext,
    ScriptData,
    Plaintext,
}

/// Where "has an element in scope" stops (13.2.4.2 #the-stack-of-open-elements).
#[derive(Clone, Copy)]
pub enum Scope {
    Default,
    ListItem,
    Button,
    Table,
    Select,
}

/// Sets of names that the rules speak of.
#[derive(Clone, Copy)]
pub enum Group {
    /// h1 to h6
    Headings,
    /// dd and dt
    DefinitionItems,
    /// The special category (13.2.4.2 #the-stack-of-open-elements).
    Special,
    /// The elements whose end tag is generated
    /// (13.2.6.3 #closing-elements-that-have-implied-end-tags).
    ClosedImplicitly,
    /// The elements whose end tag is generated where all implied end tags are, thoroughly
    /// (13.2.6.3 #closing-elements-that-have-implied-end-tags).
    ClosedThoroughly,
    /// Where "clear the stack back to a table context" stops (13.2.6.4.9 #parsing-main-intable).
    TableContext,
    /// Where "clear the stack back to a table body context" stops
    /// (13.2.6.4.13 #parsing-main-intbody).
    TableBodyContext,
    /// Where "clear the stack back to a table row context" stops (13.2.6.4.14 #parsing-main-intr).
    RowContext,
    /// tbody, tfoot and thead
    TableSections,
    /// td and th
    Cells,
    /// The current nodes at which "in table" keeps characters as pending ones
    /// (13.2.6.4.9 #parsing-main-intable).
    TextTargets,
    /// The targets from which a node is foster parented (13.2.6.1 #creating-and-inserting-nodes).
    FosterTargets,
    /// The special elements at which the search for a list item goes on.
    PassedItems,
}

/// Which elements an instruction means.
#[derive(Clone, Copy)]
pub enum Who {
    /// Those with the token's own name.
    Own,
    The(Word),
    Any(Group),
    Nobody,
}

/// A question about the open state.
#[derive(Clone, Copy)]
pub enum Test {
    InScope(Scope, Who),
    Current(Who),
    OnStack(Who),
    /// An entry of the list of active formatting elements behind the last marker.
    InFormatting(Who),
    Quirks,
    /// The second element of the stack is a body.
    SecondIsBody,
    FramesetOk,
    /// The doctype token's name isn't html, or its force-quirks flag is set.
    QuirkyDoctype,
    /// The form element pointer is set, and no template is open.
    InForm,
    /// The token's attribute `type` is `hidden`, in any ASCII case.
    HiddenInput,
    /// The stack of template insertion modes isn't empty.
    InTemplates,
    /// The mode is "in table", "in caption", "in table body", "in row" or "in cell".
    InTables,
    /// The current node is an option right below an optgroup.
    OptionInOptgroup,
    /// The token's self-closing flag is set.
    SelfClosing,
    /// The token is a start tag at which foreign content is left
    /// (13.2.6.5 #parsing-main-inforeign).
    BreaksOut,
    /// The parser was made for a fragment (13.4 #parsing-html-fragments): the open state has a
    /// context.
    InFragment,
}

/// An instruction of a row. One that leaves the row stands last.
#[derive(Clone, Copy)]
pub enum Instr {
    /// Only where the test holds is the token looked at any further.
    Need(Test),
    /// Only where it doesn't hold.
    Forbid(Test),
    /// The next instruction counts only where the test holds.
    When(Test),
    /// Only where it doesn't hold.
    Unless(Test),

    /// An element for the token, at the appropriate place, is pushed.
    Insert,
    /// The same for a start tag of that name without attributes.
    InsertA(Word),
    /// The html element for the token into the Document, pushed.
    InsertRoot,
    /// The same for a start tag `html` without attributes.
    InsertRootA,
    /// An element for the token, which is not left on the stack.
    InsertAndPop,
    /// The same for a start tag of that name without attributes.
    InsertAndPopA(Word),
    /// The same for a start tag of that name with the token's attributes.
    InsertAndPopAs(Word),
    /// A foreign element for the token (13.2.6.1 #creating-and-inserting-nodes) in the namespace of
    /// the adjusted current node, pushed; the names of tag and attributes are adjusted as that
    /// namespace has it.
    InsertForeign,
    /// The same in that namespace; the attributes' names are adjusted.
    InsertIn(Space),
    /// The character at the appropriate place.
    InsertText,
    /// U+FFFD at the appropriate place.
    InsertReplacement,
    /// The comment at the appropriate place.
    InsertComment,
    /// The comment at the end of the Document.
    CommentToPage,
    /// The comment at the end of the first element of the stack.
    CommentToRoot,
    /// The doctype into the Document.
    AppendDoctype,

    Pop,
    /// Popped until one of these is popped.
    PopUntil(Who),
    /// Popped while the current node is none of these.
    ClearBackTo(Group),
    /// Popped but for the first element.
    PopToRoot,
    /// Implied end tags.
    GenerateImplied,
    /// All implied end tags, thoroughly (13.2.6.3 #closing-elements-that-have-implied-end-tags).
    GenerateImpliedThoroughly,
    GenerateImpliedBut(Who),
    /// Where one of these is in scope: implied end tags but it, then until it.
    Close(Scope, Who),
    /// From the current node up to one of these, or to a special element that is no address, div or
    /// p.
    CloseItem(Who),
    /// "Any other end tag" of "in body".
    AnyOtherEnd,
    /// Popped while the current node is neither HTML nor an integration point; the token is then
    /// processed by the rules of the mode (13.2.6.5 #parsing-main-inforeign).
    BreakOut,
    /// "Any other end tag" of the rules for foreign content (13.2.6.5 #parsing-main-inforeign).
    ForeignEnd,

    /// Reconstruct the active formatting elements
    /// (13.2.4.3 #the-list-of-active-formatting-elements).
    Reconstruct,
    /// The current node, with the token's tag, becomes an entry of the list of active formatting
    /// elements. Where three entries behind the last marker have its name and its attributes, the
    /// earliest of them is dropped before.
    PushFormatting,
    PushMarker,
    ClearToMarker,
    /// That element is taken off the list of active formatting elements and off the stack.
    TakeOff(NodeId),

    /// The frameset-ok flag is "not ok".
    FramesetNotOk,
    /// The document is in quirks mode.
    BecomeQuirky,
    /// The next token is left out where it is a line feed.
    SkipLineFeed,
    /// The head element pointer is the current node.
    SetHeadPointer,
    /// The node that the head element pointer names is pushed.
    PushHead,
    /// It is taken off the stack, wherever it stands there.
    TakeHeadOff,
    /// The form element pointer is the current node.
    SetFormPointer,
    /// The end tag `form` (13.2.6.4.7 #parsing-main-inbody).
    EndForm,
    /// The token's attributes that the first element of the stack lacks are added to it.
    AddToFirst,
    /// The same for the second element.
    AddToSecond,
    /// The second element of the stack is taken out of its parent.
    DetachSecond,
    SwitchMode(Mode),
    /// The original mode is the mode as it is now.
    SaveMode,
    /// The mode is the original mode again.
    RestoreMode,
    /// The mode becomes the current template insertion mode.
    PushTemplateMode(Mode),
    PopTemplateMode,
    /// Reset the insertion mode appropriately (13.2.4.1 #the-insertion-mode).
    ResetMode,

    /// The character is added to the pending table character tokens.
    AppendPending,
    /// The pending table character tokens are inserted (13.2.6.4.10 #parsing-main-intabletext): as
    /// they are where all are white space, else each by the rules of "in body" with foster
    /// parenting on. There are none then.
    InsertPending,

    /// The adoption agency algorithm (13.2.6.4.7 #parsing-main-inbody) for the token's name.
    Adopt,
    /// The same for `a`; that element is then taken off, and the link is made.
    AdoptAnchor,
    /// The same for `nobr`, which is then made.
    AdoptNobr,
    /// The tokenizer reads on in another way.
    SwitchTokenizer(TokenizerSwitch),
    /// The token is processed by the rules of another mode.
    UsingRules(Mode),
    /// The token is processed by the rules of "in body", with foster parenting on.
    InBodyFostering,
    /// The token is processed once more, by the mode as it is now.
    Reprocess,
    /// The current node, a script, is popped, and the parser stops at it.
    StopAtScript,
    /// Parsing stops (13.2.7 #the-end).
    Finish,
}

/// What comes behind the adoption agency algorithm.
#[derive(Clone, Copy)]
pub enum Then {
    /// The token is done.
    Nothing,
    /// That element is taken off, and a link is made.
    Link(NodeId),
    /// A nobr is made.
    Nobr,
}

/// How the adoption agency algorithm goes on behind a turn.
#[derive(Clone, Copy)]
pub enum Turn {
    More,
    Over,
    /// No entry behind the last marker has the name: as "any other end tag"
    /// (13.2.6.4.7 #parsing-main-inbody).
    Other,
}

/// What is asked of the caller once a token's row is at its end.
#[derive(Clone, Copy)]
pub enum Next {
    Done,
    /// The adoption agency algorithm (13.2.6.4.7 #parsing-main-inbody), and what comes behind it.
    Adopt { name: Word, then: Then },
    /// Once more, by the mode as it is now.
    Reprocess,
    /// By the rules of that mode.
    UsingRules(Mode),
    /// By the rules of "in body", with foster parenting on.
    InBodyFostering,
    /// The tokenizer reads on in that way.
    SwitchTokenizer(TokenizerSwitch),
    /// The end tag of that script element was met.
    Script(NodeId),
    /// An element more than 512 would be open; it isn't made.
    Deep,
    Finished,
}

/// How a row goes on behind an instruction.
#[derive(Clone, Copy)]
pub enum Flow {
    On,
    /// The next instruction is left out.
    Skip,
    Leave(Next),
}

/// Why the parser stops in a text.
#[derive(Clone, Copy, PartialEq, Eq)]
pub enum Stop {
    /// All text is used.
    InputEnd,
    /// At the end tag of that script element.
    Script(NodeId),
    /// At a push that would open element 513.
    Deep,
}

/// What the end of the input comes to.
#[derive(Clone, Copy, PartialEq, Eq)]
pub enum Finish {
    /// Parsing stopped (13.2.7 #the-end).
    Finished,
    /// At a push that would open element 513.
    Deep,
}
