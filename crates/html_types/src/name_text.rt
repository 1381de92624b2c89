//! The text of a name, which its copies share.

ghost use Rattle.std.specs.Prelude.{◌≡◌, ◌↔◌, IsTrue, IfOk};
ghost use Rattle.std.specs.Str.{chars};
ghost use Rattle.html_types.specs.Text.{same_text};

use crate::memory::NoMemory;
use crate::text::Text;
use std::marker::Model;
use std::sync::Arc;

/// The text of a name: a contract sees the list of its characters. A copy shares it.
#[derive(Drop)]
pub struct NameText {
    shared: Arc<Text>,
}

impl Model for NameText {
    ghost use Rattle.std.specs.Prelude.{List, ℕ};
    ghost use Rattle.std.specs.Arc.{arc_value};

    ghost Value = { List ℕ };

    ghost view = { λ n. arc_value n.shared };
}

impl NameText {
    /// That text.
    pub fn of(text: Text) -> Result<NameText, NoMemory>
        ensures { IfOk result (λ n. n ≡ text) }
    {
        let alloc = text.allocator();
        Ok(NameText {
            shared: Arc::new(alloc, text)?,
        })
    }

    /// The same characters as a `&str`.
    pub fn as_str(&self) -> &str
        ensures { chars result.now ≡ self.now }
    {
        self.shared.as_str()
    }

    /// Whether two texts are the same.
    pub fn same(&self, other: &NameText) -> bool
        ensures value { result ≡ same_text self.now other.now }
        ensures exact { IsTrue result ↔ (self.now ≡ other.now) }
    {
        self.shared.same(&other.shared)
    }

    /// A copy, which shares it.
    pub fn copy(&self) -> Result<NameText, NoMemory>
        ensures { IfOk result (λ n. n ≡ self.now) }
    {
        Ok(NameText {
            shared: self.shared.clone()?,
        })
    }
}
