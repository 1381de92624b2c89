//! The names of scripts.

ghost use Rattle.std.specs.Prelude.{◌≡◌, true, IfOk};
ghost use Rattle.std.specs.Str.{chars};
ghost use Rattle.html_types.specs.Text.{same_text};
ghost use Rattle.serial.specs.Scripts.{is_lawful};

use html_types::{NoMemory, Text};
use std::alloc::Global;
use std::marker::Model;

/// The name of a script, which is lawful. A contract sees its characters.
#[derive(Drop)]
pub struct ScriptName {
    text: Text,
}

impl Model for ScriptName {
    ghost use Rattle.std.specs.Prelude.{◌≡◌, true, List, ℕ};
    ghost use Rattle.serial.specs.Scripts.{is_lawful};

    ghost Value = { List ℕ };

    ghost view = { λ n. n.text };

    ghost invariant = { λ n. is_lawful n.text ≡ true };
}

impl ScriptName {
    /// The name that is written so.
    pub fn new(alloc: Global, text: &str) -> Result<ScriptName, NoMemory>
        requires { is_lawful (chars text.now) ≡ true }
        ensures { IfOk result (λ n. n ≡ chars text.now) }
    {
        let text = Text::from_str(alloc, text)?;
        Ok(ScriptName { text })
    }

    /// The name as it is written.
    pub fn as_str(&self) -> &str
        ensures text { chars result.now ≡ self.now }
        ensures lawful { is_lawful (chars result.now) ≡ true }
    {
        self.text.as_str()
    }

    /// Whether it is written so.
    pub fn is(&self, name: &str) -> bool
        ensures { result ≡ same_text self.now (chars name.now) }
    {
        self.text.is(name)
    }

    /// A copy.
    pub fn copy(&self, alloc: Global) -> Result<ScriptName, NoMemory>
        ensures same { IfOk result (λ n. n ≡ self.now) }
        ensures lawful { is_lawful self.now ≡ true }
    {
        let text = self.text.copy(alloc)?;
        Ok(ScriptName { text })
    }

    /// A copy of its text.
    pub fn to_text(&self, alloc: Global) -> Result<Text, NoMemory>
        ensures text { IfOk result (λ t. t ≡ self.now) }
        ensures lawful { is_lawful self.now ≡ true }
    {
        self.text.copy(alloc)
    }
}
