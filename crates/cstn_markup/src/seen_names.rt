//! The names of those attributes of a tag that were read so far.

ghost use Rattle.std.specs.Prelude.{◌≡◌, ◌==◌, ◌<◌, ◌++◌, ◌∷◌, [], length};
ghost use Rattle.std.specs.List.{list_any};
ghost use Rattle.cstn_markup.specs.Bytes.{is_same};

use std::marker::Model;

/// How many attributes a tag may have.
pub const MOST_ATTRIBUTES: usize = 32;

/// Names in the order in which they came.
#[derive(Drop)]
pub struct SeenNames<'a> {
    names: [&'a [u8]; 32],
    len: usize,
}

impl<'a> Model for SeenNames<'a> {
    ghost use Rattle.std.specs.Prelude.{ℕ, List, ◌≤◌, map, take};

    ghost Value = { List (List ℕ) };

    ghost view = { λ s. map (λ name. name.now) (take s.len s.names) };

    ghost invariant = { λ s. s.len ≤ 32 };
}

impl<'a> SeenNames<'a> {
    /// No name.
    pub fn new() -> SeenNames<'a>
        ensures { result ≡ [] }
    {
        SeenNames {
            names: [&[]; 32],
            len: 0,
        }
    }

    /// Whether there are as many as a tag may have.
    pub fn is_full(&self) -> bool
        ensures { result ≡ (length self.now == 32) }
    {
        self.len == MOST_ATTRIBUTES
    }

    /// Whether the name is among them.
    pub fn has(&self, name: &[u8]) -> bool
        ensures { result ≡ list_any (λ seen. is_same seen name.now) self.now }
    {
        self.names[..self.len].contains(&name)
    }

    /// Adds a name behind the others.
    pub fn push(&mut self, name: &'a [u8])
        requires { length self.old < 32 }
        ensures { self.new ≡ self.old ++ name.now ∷ [] }
    {
        self.names[self.len] = name;
        self.len += 1;
    }
}
