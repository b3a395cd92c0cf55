//! The key with which a list of names is hashed.

ghost use Rattle.std.specs.Prelude.{◌≡◌};
ghost use Rattle.cstn_text.specs.NameKeys.{hasher_after_digest};

use sha2::{Digest, Sha512};
use std::hash::{BuildHasher, DefaultHasher, Hasher};

/// The key with which a list of names is hashed: SipHash that has taken in the SHA-512 digest of the text that the names come
/// from. So names cannot be chosen for a known key, since the key changes with them.
#[derive(Clone, Copy)]
pub struct NameKey {
    keyed: DefaultHasher,
}

impl NameKey {
    /// The key for the names of this text.
    pub fn new(text: &[u8]) -> NameKey
        ensures key { result.keyed ≡ hasher_after_digest text.now }
    {
        let digest = Sha512::digest(text);
        let mut keyed = DefaultHasher::new();
        keyed.write(digest.as_slice());
        NameKey { keyed }
    }
}

impl BuildHasher for NameKey {
    type Hasher = DefaultHasher;

    ghost build_hasher = { λ key. key.keyed };

    fn build_hasher(&self) -> DefaultHasher {
        self.keyed
    }
}
