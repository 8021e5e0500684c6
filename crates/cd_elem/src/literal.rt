// Texts that a script or a list of calls owns.
ghost use Rattle.std.specs.Prelude.{◌≡◌, IfOk};

use crate::no_memory::NoMemory;
use std::alloc::Global;
use std::marker::Model;

/// A text, as a file's name, which contracts see as its bytes.
#[derive(Drop)]
pub struct Literal {
    text: String,
}

impl Model for Literal {
    ghost use Rattle.std.specs.Prelude.{List, ℕ, string_bytes};

    ghost Value = { List ℕ };

    ghost view = { λ a. string_bytes a.text };
}

impl From<String> for Literal {
    ghost use Rattle.std.specs.Prelude.{string_bytes};

    ghost from_gives = { λ text literal. literal ≡ string_bytes text };

    fn from(text: String) -> Literal {
        Literal { text }
    }
}

impl Literal {
    /// A copy of `text`, of any length.
    pub fn new(alloc: Global, text: &str) -> Result<Literal, NoMemory>
        ensures { IfOk result (λ literal. literal ≡ text.now) }
    {
        Ok(Literal {
            text: String::from_str(alloc, text)?,
        })
    }

    pub fn as_str(&self) -> &str
        ensures { result.now ≡ self.now }
    {
        self.text.as_str()
    }
}
