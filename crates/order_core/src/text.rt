ghost use Rattle.std.specs.Prelude.{◌≡◌, IfOk, string_bytes};

use crate::order::NoMemory;
use std::alloc::Global;
use std::marker::Model;

/// A `String` that contracts see as the list of its bytes.
#[derive(Debug, Drop)]
pub struct Text {
    text: String,
}

impl Model for Text {
    ghost use Rattle.std.specs.Prelude.{List, ℕ, string_bytes};

    ghost Value = { List ℕ };

    ghost view = { λ t. string_bytes t.text };
}

impl Text {
    /// The text of this string.
    pub fn of(text: String) -> Text
        ensures { result ≡ string_bytes text }
    {
        Text { text }
    }

    /// The text.
    pub fn as_str(&self) -> &str
        ensures { result.now ≡ self.now }
    {
        self.text.as_str()
    }

    /// A text equal to this one.
    pub fn copy(&self, alloc: Global) -> Result<Text, NoMemory>
        ensures { IfOk result (λ made. made ≡ self.now) }
    {
        match String::from_str(alloc, self.as_str()) {
            Ok(text) => Ok(Text { text }),
            Err(_) => Err(NoMemory),
        }
    }
}
