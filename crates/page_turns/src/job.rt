// What is to be run.
use entity_table::Table;

/// A page that is to be run.
#[derive(Drop)]
pub struct Job<'a> {
    /// The page's path.
    pub page: String,
    /// The path of the scripts' folder.
    pub dir: String,
    /// The named character references.
    pub table: &'a Table,
    /// The most bytes of one read of the page: 1 to 65,536.
    pub piece: usize,
    /// How many requests may be sent ahead of their replies: 1 to 64.
    pub ahead: usize,
    /// Whether the tree's dump is written in place of its text.
    pub dump: bool,
    /// How many of the helpers fetch scripts before they are awaited: 0 to 8.
    pub preload: usize,
}
