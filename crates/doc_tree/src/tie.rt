//! What ties a template and its contents to each other, in four bytes.

ghost use Rattle.std.specs.Prelude.{◌≡◌, ◌<◌};
ghost use Rattle.doc_tree.specs.Codes.{no_ends, to_host, to_contents};

use std::marker::Model;

/// The template whose contents a node is, or the contents of the template that it is, or neither.
#[derive(Clone, Copy)]
pub struct Tie {
    // 0, or the template's number and one more, or the contents' number and 2^31 more.
    code: u32,
}

impl Model for Tie {
    ghost use Rattle.doc_tree.specs.Codes.{Ends, ends_of, code_of_ends, code_of_ends-ends_of};

    ghost Value = { Ends };

    ghost view = { λ t. ends_of t.code };

    ghost inverse = { λ e. record { code = code_of_ends e } };

    ghost inverse_ok = { λ a h. λ i. record { code = code_of_ends-ends_of a.code i } };
}

impl Tie {
    /// Neither.
    pub fn none() -> Tie
        ensures { result ≡ no_ends }
    {
        Tie { code: 0 }
    }

    /// The contents of that template.
    pub fn to_host(number: usize) -> Tie
        requires { number < 2147483647 }
        ensures { result ≡ to_host number }
    {
        Tie {
            code: number as u32 + 1,
        }
    }

    /// A template with those contents.
    pub fn to_contents(number: usize) -> Tie
        requires { number < 2147483648 }
        ensures { result ≡ to_contents number }
    {
        Tie {
            code: number as u32 + 2147483648,
        }
    }

    /// The template whose contents the node is.
    pub fn host(self) -> Option<usize>
        ensures { result ≡ self.host }
    {
        if self.code == 0 || self.code >= 2147483648 {
            None
        } else {
            Some(self.code as usize - 1)
        }
    }

    /// The contents of the template that the node is.
    pub fn contents(self) -> Option<usize>
        ensures { result ≡ self.contents }
    {
        if self.code >= 2147483648 {
            Some(self.code as usize - 2147483648)
        } else {
            None
        }
    }
}
