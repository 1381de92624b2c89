//! Reset the insertion mode appropriately (13.2.4.1 #the-insertion-mode).

ghost use Rattle.std.specs.Prelude.{◌≡◌, ◌||◌, [], ◌∷◌, unwrap_or, MatchOption};
ghost use Rattle.html_types.specs.declared.instruction.Group.TheVariants as group;
ghost use Rattle.standard.specs.Elements.{is_word, is_one_of};
ghost use Rattle.standard.specs.Instructions.{is_table_mode as is_of_table};
ghost use Rattle.standard.specs.Reset.{select_mode, template_mode, root_mode, told_mode};
ghost use Rattle.standard.specs.Reset.{context_mode, reset_mode};

use html_types::{Elements, Mode, Modes, Name, NodeId, OpenElement, Stack, Word};
use tag_sets::is_the;

/// Whether this is "in table", "in caption", "in table body", "in row" or "in cell".
pub fn is_table_mode(mode: Mode) -> bool
    ensures { result ≡ is_of_table mode }
{
    matches!(
        &mode,
        Mode::InTable | Mode::InCaption | Mode::InTableBody | Mode::InRow | Mode::InCell
    )
}

/// The mode of a select that stands right below the elements that are left of a walk: "in select in
/// table" where it stands in a table, with no template between.
fn mode_of_select(above: Elements<'_>) -> Mode
    ensures { result ≡ select_mode above.entry }
{
    for element in above {
        if is_the(Word::Template, &element.name) {
            return Mode::InSelect;
        }
        if is_the(Word::Table, &element.name) {
            return Mode::InSelectInTable;
        }
    }
    Mode::InSelect
}

/// The current template insertion mode. (There always is one where a template is open.)
fn current_template_mode(modes: &Modes) -> Mode
    ensures { result ≡ template_mode modes.now }
{
    match modes.as_slice().split_last() {
        None => Mode::InBody,
        Some((last, _)) => *last,
    }
}

/// The mode of the html element, by the head element pointer.
fn mode_of_root(head: Option<NodeId>) -> Mode
    ensures { result ≡ root_mode head }
{
    match head {
        None => Mode::BeforeHead,
        Some(_) => Mode::AfterHead,
    }
}

/// The mode that an element of that name tells, which stands right below the elements that are left
/// of a walk.
fn told_mode(name: &Name, above: &Elements<'_>, head: Option<NodeId>, modes: &Modes) -> Option<Mode>
    ensures { result
        ≡ told_mode name.now (select_mode above.now) (template_mode modes.now) (root_mode head) }
{
    let Name::Known(word) = name else {
        return None;
    };
    match *word {
        Word::Select => Some(mode_of_select(above.copy())),
        Word::Td | Word::Th => Some(Mode::InCell),
        Word::Tr => Some(Mode::InRow),
        Word::Tbody | Word::Thead | Word::Tfoot => Some(Mode::InTableBody),
        Word::Caption => Some(Mode::InCaption),
        Word::Colgroup => Some(Mode::InColumnGroup),
        Word::Table => Some(Mode::InTable),
        Word::Template => Some(current_template_mode(modes)),
        Word::Head => Some(Mode::InHead),
        Word::Body => Some(Mode::InBody),
        Word::Frameset => Some(Mode::InFrameset),
        Word::Html => Some(mode_of_root(head)),
        _ => None,
    }
}

/// Whether a context of that name tells no mode.
fn tells_none(name: &Name) -> bool
    ensures { result ≡ (is_one_of group.Cells name.now || is_word Word.Head name.now) }
{
    matches!(
        name,
        Name::Known(Word::Td) | Name::Known(Word::Th) | Name::Known(Word::Head)
    )
}

/// The mode that the context tells, where the first element of the stack stands for it: td, th and
/// head tell none.
fn mode_of_context(
    context: &OpenElement,
    above: &Elements<'_>,
    head: Option<NodeId>,
    modes: &Modes,
) -> Mode
    requires { above.now ≡ [] }
    ensures { result
        ≡ unwrap_or (context_mode context.now.name (template_mode modes.now) (root_mode head))
        Mode.InBody }
{
    if tells_none(&context.name) {
        return Mode::InBody;
    }
    told_mode(&context.name, above, head, modes).unwrap_or(Mode::InBody)
}

/// The mode that an element tells, right above which those stand that are left of a walk; in a
/// fragment the first element of the stack stands for the context, and then there is one in any
/// case.
fn mode_at(
    context: &Option<OpenElement>,
    element: &OpenElement,
    above: &Elements<'_>,
    head: Option<NodeId>,
    modes: &Modes,
) -> Option<Mode>
    ensures { let mode = reset_mode context.now (element.now ∷ above.now) head modes.now
        in MatchOption result
        (mode ≡ reset_mode context.now above.now head modes.now)
        (λ told. mode ≡ told) }
{
    if above.len() == 0 {
        if let Some(context) = context {
            return Some(mode_of_context(context, above, head, modes));
        }
    }
    told_mode(&element.name, above, head, modes)
}

/// The mode that resetting it comes to: that of the first element, from the current node on, that
/// tells one. In a fragment the first element of the stack stands for the context.
pub fn mode_to_reset_to(
    context: &Option<OpenElement>,
    stack: &Stack,
    head: Option<NodeId>,
    modes: &Modes,
) -> Mode
    ensures { result ≡ reset_mode context.now stack.now head modes.now }
{
    let mut walk = stack.walk();
    while let Some(element) = walk.next() {
        if let Some(mode) = mode_at(context, element, &walk, head, modes) {
            return mode;
        }
    }
    Mode::InBody
}
