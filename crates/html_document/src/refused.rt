//! Why there is no tree.

use html_types::{NoMemory, Why};

/// Why a page or a fragment has no tree.
#[derive(Clone, Copy)]
pub enum Refused {
    /// Its parse is refused.
    Parse(Why),
    /// Nothing is said of it.
    NoMemory,
}

impl From<NoMemory> for Refused {
    ghost use Rattle.std.specs.Prelude.{◌≡◌};
    ghost use Rattle.html_document.specs.declared.refused.Refused.TheVariants as refused;

    ghost from_gives = { λ _ e. e ≡ refused.NoMemory };

    fn from(_error: NoMemory) -> Refused {
        Refused::NoMemory
    }
}
