//! A text, and room for one that is known only later.
ghost use Rattle.std.specs.Prelude.{◌≡◌, ◌≤◌, ◌==◌, length, string_bytes, IfOk, IsUtf8};
ghost use Rattle.std.proofs.Common.{rules};
ghost use Rattle.std.specs.Cmp.Rules.{comparing};
ghost use lib.Pointwise.{pointwise};

use std::alloc::{AllocError, Global};
use std::marker::Model;

/// A text, which contracts see as the list of its bytes.
#[derive(Debug, Drop)]
pub struct Text {
    text: String,
}

impl Model for Text {
    ghost use Rattle.std.specs.Prelude.{ℕ, List, string_bytes};

    ghost Value = { List ℕ };

    ghost view = { λ t. string_bytes t.text };
}

impl Text {
    pub fn from_str(alloc: Global, text: &str) -> Result<Text, AllocError>
        ensures { IfOk result (λ t. t ≡ text.now) }
    {
        let text = String::from_str(alloc, text)?;
        Ok(Text { text })
    }

    pub fn from_string(text: String) -> Text
        ensures { result ≡ string_bytes text }
    {
        Text { text }
    }

    pub fn as_str(&self) -> &str
        ensures value { result.now ≡ self.now }
        ensures utf8 { IsUtf8 self.now }
    {
        self.text.as_str()
    }

    pub fn as_bytes(&self) -> &[u8]
        ensures value { result.now ≡ self.now }
        ensures utf8 { IsUtf8 self.now }
    {
        self.text.as_str().as_bytes()
    }

    /// The number of its bytes.
    pub fn len(&self) -> usize
        ensures { result ≡ length self.now }
    {
        self.text.len()
    }
}

impl Clone for Text {
    ghost is_clone = { λ t copy. copy ≡ t };

    fn clone(&self) -> Result<Text, AllocError> {
        let text = self.text.clone()?;
        Ok(Text { text })
    }
}

impl PartialEq for Text {
    ghost eq = { pointwise ◌==◌ };

    ghost laws = { Prim.search (comparing, rules) };

    fn eq(&self, other: &Text) -> bool {
        self.text.as_str() == other.text.as_str()
    }
}

impl Eq for Text {
    ghost laws = { Prim.search (comparing, rules) };
}

/// Room for a text of so many bytes, taken before it is known which text that will be. Contracts see the number.
#[derive(Drop)]
pub struct TextRoom {
    text: String,
}

impl Model for TextRoom {
    ghost use Rattle.std.specs.Prelude.{◌≡◌, ℕ, [], string_bytes, string_capacity};

    ghost Value = { ℕ };

    ghost view = { λ r. string_capacity r.text };

    ghost invariant = { λ r. string_bytes r.text ≡ [] };
}

impl TextRoom {
    pub fn new(alloc: Global, count: usize) -> Result<TextRoom, AllocError>
        ensures { IfOk result (λ room. count ≤ room) }
    {
        let text = String::with_capacity(alloc, count)?;
        Ok(TextRoom { text })
    }

    /// The text, in this room. It takes no memory.
    pub fn fill(self, text: &str) -> Text
        requires { length text.now ≤ self }
        ensures { result ≡ text.now }
    {
        let TextRoom { text: mut filled } = self;
        let _ = filled.push_str(text);
        Text { text: filled }
    }
}
