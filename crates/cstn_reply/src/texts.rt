// Texts of answers, put into room that was taken before.
ghost use Rattle.std.specs.Prelude.{◌≡◌, ◌≤◌, ◌+◌, ◌++◌, ◌∷◌, [], length, decimal, IfOk, OnErr, OnOk};
ghost use Rattle.cstn_label.specs.Letters.{letter_of};
ghost use Rattle.cstn_text.specs.Numbers.{printed_value};
ghost use Rattle.cstn_lines.specs.LiveLines.{printed_truth};
ghost use Rattle.cstn_reply.specs.Texts.{line};
ghost use Rattle.cstn_reply.specs.Room.{HasRoom};

use cstn_label::Prop;
use itoa::Buffer;
use std::alloc::{AllocError, Global};
use std::marker::Model;

// How many bytes a text has room for: the names of 1,024 time-points, each after a space, and the words beside.
const ROOM: usize = 200_000;

/// The text that a session answers a line with. Room for 200,000 bytes is taken at its start.
#[derive(Drop)]
pub struct AnswerText {
    bytes: Vec<u8>,
}

impl Model for AnswerText {
    ghost use Rattle.std.specs.Prelude.{ℕ, List, ◌≤◌, vec_capacity};

    ghost Value = { List ℕ };

    ghost view = { λ t. t.bytes.items };

    ghost invariant = { λ t. 200000 ≤ vec_capacity t.bytes };
}

impl AnswerText {
    /// An empty text. Fails for want of memory alone.
    pub fn new(alloc: Global) -> Result<AnswerText, AllocError>
        ensures empty { IfOk result (λ text. text ≡ []) }
    {
        let bytes = Vec::with_capacity(alloc, ROOM)?;
        Ok(AnswerText { bytes })
    }

    /// The bytes that were put.
    pub fn as_bytes(&self) -> &[u8]
        ensures { result.now ≡ self.now }
    {
        self.bytes.as_slice()
    }

    /// Takes all bytes out.
    pub fn clear(&mut self)
        ensures { self.new ≡ [] }
    {
        self.bytes.clear();
    }

    /// Puts bytes, for which there is room.
    pub fn put(&mut self, bytes: &[u8])
        requires room { HasRoom self.old (length bytes.now) }
        ensures { self.new ≡ self.old ++ bytes.now }
    {
        self.bytes.extend_from_slice(bytes).unwrap();
    }

    /// Puts any number of bytes. Fails for want of memory alone, and puts none then.
    pub fn extend(&mut self, bytes: &[u8]) -> Result<(), AllocError>
        ensures whole { OnOk result (self.new ≡ self.old ++ bytes.now) }
        ensures kept { OnErr result (self.new ≡ self.old) }
    {
        self.bytes.extend_from_slice(bytes)
    }

    /// Puts the digits of a number, of at most 40 bytes.
    pub fn put_decimal(&mut self, number: u32)
        requires room { HasRoom self.old 40 }
        ensures digits { self.new ≡ self.old ++ decimal number }
        ensures short { length self.new ≤ length self.old + 40 }
    {
        let mut digits = Buffer::new();
        self.put(digits.format(number).as_bytes());
    }

    /// Puts a word and the end of a line.
    pub fn put_word(&mut self, word: &[u8])
        requires room { HasRoom self.old (length word.now + 1) }
        ensures { self.new ≡ self.old ++ line word.now }
    {
        self.put(word);
        self.put(b"\n");
    }

    /// Puts a line that ends with a number.
    pub fn put_number(&mut self, word: &[u8], number: u32)
        requires room { HasRoom self.old (length word.now + 41) }
        ensures { self.new ≡ self.old ++ line (word.now ++ decimal number) }
    {
        let mut digits = Buffer::new();
        self.put(word);
        self.put_word(digits.format(number).as_bytes());
    }

    /// Puts a line that ends with a value.
    pub fn put_value(&mut self, word: &[u8], value: i32)
        requires room { HasRoom self.old (length word.now + 41) }
        ensures { self.new ≡ self.old ++ line (word.now ++ printed_value value) }
    {
        let mut digits = Buffer::new();
        self.put(word);
        self.put_word(digits.format(value).as_bytes());
    }

    /// Puts a line that ends with a proposition.
    pub fn put_prop(&mut self, word: &[u8], prop: Prop)
        requires room { HasRoom self.old (length word.now + 2) }
        ensures { self.new ≡ self.old ++ line (word.now ++ letter_of prop.index ∷ []) }
    {
        self.put(word);
        self.put_word(&[prop.letter()]);
    }

    /// Puts a line that ends with a proposition and a value of it.
    pub fn put_outcome(&mut self, word: &[u8], prop: Prop, value: bool)
        requires room { HasRoom self.old (length word.now + 8) }
        ensures { self.new ≡ self.old ++ line (word.now ++ letter_of prop.index ∷ 32 ∷ printed_truth value) }
    {
        self.put(word);
        self.put(&[prop.letter(), b' ']);
        self.put_word(truth_word(value));
    }
}

/// The word for a value of a proposition, of at most 5 bytes.
pub fn truth_word(value: bool) -> &'static [u8]
    ensures truth { result.now ≡ printed_truth value }
    ensures short { length result.now ≤ 5 }
{
    if value { b"true" } else { b"false" }
}
