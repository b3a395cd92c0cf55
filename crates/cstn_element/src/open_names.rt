//! Elements that are open one inside the other.

ghost use Rattle.std.specs.Prelude.{◌≡◌, ◌==◌, ◌<◌, ◌≤◌, ◌∷◌, [], length};

use std::marker::Model;

/// The names of elements that are open one inside the other, at most 32, seen with the innermost first.
#[derive(Drop)]
pub struct OpenNames<'a> {
    names: [&'a [u8]; 32],
    len: usize,
}

impl<'a> Model for OpenNames<'a> {
    ghost use Rattle.std.specs.Prelude.{ℕ, List, ◌≤◌, map, take, reverse};

    ghost Value = { List (List ℕ) };

    ghost view = { λ o. map (λ name. name.now) (reverse (take o.len o.names)) };

    ghost invariant = { λ o. o.len ≤ 32 };
}

impl<'a> OpenNames<'a> {
    /// The element of this name alone.
    pub fn new(name: &'a [u8]) -> OpenNames<'a>
        ensures { result ≡ name.now ∷ [] }
    {
        OpenNames {
            names: [name; 32],
            len: 1,
        }
    }

    /// Whether no element is open.
    pub fn is_empty(&self) -> bool
        ensures { result ≡ (length self.now == 0) }
    {
        self.len == 0
    }

    /// How many elements are open.
    pub fn len(&self) -> usize
        ensures value { result ≡ length self.now }
        ensures within { result ≤ 32 }
    {
        self.len
    }

    /// Opens an element in the innermost one.
    pub fn push(&mut self, name: &'a [u8])
        requires { length self.old < 32 }
        ensures { self.new ≡ name.now ∷ self.old }
    {
        self.names[self.len] = name;
        self.len += 1;
    }

    /// Closes the innermost element, and answers its name.
    pub fn pop(&mut self) -> &'a [u8]
        requires { 0 < length self.old }
        ensures { self.old ≡ result.now ∷ self.new }
    {
        self.len -= 1;
        self.names[self.len]
    }
}
