//! The names of a network's time-points.

ghost use Rattle.std.specs.Prelude.{◌≡◌, ◌<◌, ◌^◌, ◌-◌, ◌++◌, ◌∷◌, ◌↔◌, ◌⊎◌, [], Contains, length, map, string_bytes, IfOk, IsTrue, OnErr, IsErrOf, ◌&&◌};
ghost use Rattle.std.specs.Prelude.{nat_lt, nat_le, slice_get, Some};
ghost use Rattle.std.specs.Option.{option_and_then};
ghost use Rattle.cstn_text.specs.Names.{AreNames, number_of};
ghost use Rattle.cstn_text.specs.PrintedNames.{name_read};

use crate::name_key::NameKey;
use crate::printed_names::{as_name, unprinted};
use cstn_label::NodeId;
use indexmap::IndexSet;
use std::alloc::{AllocError, Global};
use std::marker::Model;
use thiserror::Error;

/// Why a name was refused.
#[derive(Debug, Drop, Error)]
pub enum NameError {
    /// It has 0 bytes or more than 64.
    #[error("a name has 1 to 64 bytes")]
    Shape,
    /// It is in the list already.
    #[error("the name is in the list already")]
    Twice,
    /// Memory for it was refused.
    #[error(transparent)]
    Memory(#[from(alloc)] AllocError),
}

/// Different names of 1 to 64 bytes each, by number from 0.
#[derive(Drop)]
pub struct Names {
    alloc: Global,
    set: IndexSet<String, NameKey>,
}

impl Model for Names {
    ghost use Rattle.std.specs.Prelude.{ℕ, List, map, string_bytes};
    ghost use Rattle.cstn_text.specs.Names.{AreNames};

    ghost Value = { List (List ℕ) };

    ghost view = { λ n. map string_bytes n.set.keys };

    ghost invariant = { λ n. AreNames (map string_bytes n.set.keys) };
}

impl Names {
    /// An empty list, whose names will be hashed with the key.
    pub fn new(alloc: Global, key: NameKey) -> Names
        ensures new { result ≡ [] }
    {
        Names {
            alloc,
            set: IndexSet::with_hasher(alloc, key),
        }
    }

    /// How many names there are.
    pub fn count(&self) -> u32
        ensures count { result ≡ length self.now }
        ensures names { AreNames self.now }
    {
        self.set.len() as u32
    }

    /// The names, by number.
    pub fn as_slice(&self) -> &[String]
        ensures names { map string_bytes result.now ≡ self.now }
        ensures each { AreNames self.now }
    {
        self.set.as_slice()
    }

    /// The number of a name; none where it isn't in the list.
    #[tactic(auto, using(crate::proofs::NameLemmas::position_map))]
    pub fn find(&self, name: &str) -> Option<u32>
        ensures find { result ≡ number_of self.now name.now }
    {
        match self.set.get_index_of(name) {
            Some(i) => Some(i as u32),
            None => None,
        }
    }

    /// The number of the name whose printed form the bytes are; none where there is no such name in the list. It takes no
    /// memory.
    pub fn find_printed(&self, bytes: &[u8]) -> Option<u32>
        ensures find { result ≡ option_and_then (number_of self.now) (name_read bytes.now) }
    {
        let text = unprinted(bytes)?;
        let name = as_name(text.as_slice())?;
        self.find(name)
    }

    /// The name of a time-point, whose number must be below `count`.
    pub fn name(&self, x: NodeId) -> &str
        requires { x.0 < length self.now }
        ensures name { slice_get self.now x.0 ≡ Some result.now }
    {
        let name = self.set.get_index(x.index()).unwrap();
        name.as_str()
    }

    fn is_known(&self, name: &str) -> bool
        ensures { IsTrue result ↔ Contains self.now name.now }
    {
        self.set.contains(name)
    }

    /// Puts a name at the end of the list, and answers its number. It refuses a name as `Shape` where it has 0 bytes or more
    /// than 64, and else as `Twice` where it is in the list already. A name that is refused leaves the list as it was.
    pub fn push(&mut self, name: &str) -> Result<u32, NameError>
        requires { length self.old < 2 ^ 32 - 1 }
        ensures shape { IsErrOf result NameError.Shape ↔ ((length name.now ≡ 0) ⊎ (64 < length name.now)) }
        ensures twice { IsErrOf result NameError.Twice ↔ Contains self.old name.now }
        ensures pushed { IfOk result (λ k. (k ≡ length self.old) × (self.new ≡ self.old ++ name.now ∷ [])) }
        ensures refused { OnErr result (self.new ≡ self.old) }
    {
        let alloc = self.alloc;
        if !has_shape(name) {
            return Err(NameError::Shape);
        }
        if self.is_known(name) {
            return Err(NameError::Twice);
        }
        let Ok(owned) = String::from_str(alloc, name) else {
            return Err(NameError::Memory(AllocError));
        };
        let number = self.count();
        let Ok(_) = self.set.insert(owned) else {
            return Err(NameError::Memory(AllocError));
        };
        Ok(number)
    }
}

// Whether a text has 1 to 64 bytes.
pub(crate) fn has_shape(name: &str) -> bool
    ensures { result ≡ (nat_lt 0 (length name.now) && nat_le (length name.now) 64) }
{
    !name.is_empty() && name.len() <= 64
}
