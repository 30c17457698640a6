ghost use Rattle.std.specs.Prelude.{◌≡◌, ◌<◌, All, IfOk};

use crate::memory::Memory;
use std::alloc::Global;
use std::marker::Model;

/// A text that contracts see as the list of its bytes. It keeps the allocator that it was made
/// with.
#[derive(Drop)]
pub struct Name {
    text: String,
}

impl Model for Name {
    ghost use Rattle.std.specs.Prelude.{List, ℕ, string_bytes};

    ghost Value = { List ℕ };

    ghost view = { λ n. string_bytes n.text };
}

impl Name {
    pub fn new(alloc: Global, text: &str) -> Result<Name, Memory>
        ensures { IfOk result (λ n. n ≡ text.now) }
    {
        match String::from_str(alloc, text) {
            Ok(text) => Ok(Name { text }),
            Err(_) => Err(Memory),
        }
    }

    /// The name with these bytes, which are all ASCII.
    pub fn from_ascii(alloc: Global, bytes: &[u8]) -> Result<Name, Memory>
        requires { All (λ b. b < 128) bytes.now }
        ensures { IfOk result (λ n. n ≡ bytes.now) }
    {
        match std::str::from_utf8(bytes) {
            Ok(text) => Name::new(alloc, text),
            Err(_) => unreachable!(),
        }
    }

    pub fn as_str(&self) -> &str
        ensures { result.now ≡ self.now }
    {
        self.text.as_str()
    }
}
