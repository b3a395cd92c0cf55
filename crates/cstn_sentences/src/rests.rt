//! The rest of a rule or of a step, from `after` or `if` on.

ghost use Rattle.std.specs.Prelude.{◌≡◌, ◌++◌, ◌∷◌, [], IfOk, OnOk, codes};
ghost use Rattle.cstn_markup.specs.Bytes.{when};
ghost use Rattle.cstn_sentences.specs.declared.lines.Reference.TheVariants.{Outcome};
ghost use Rattle.cstn_sentences.specs.Words.{words_of};
ghost use Rattle.cstn_sentences.specs.Spelling.{is_prop_word};
ghost use Rattle.cstn_sentences.specs.declared.lines.Expects.TheVariants.{Since, AndOrIf, Asserted};
ghost use Rattle.cstn_sentences.specs.Grammar.{is, rest_begun, expecting, with_reference, with_literal_read, with_point, after_word, may_end, rest_read};
ghost use Rattle.cstn_sentences.specs.Seen.{GivesRead, the_rest};

use crate::faults::LineFault;
use crate::lines::{Expects, Literal, Point, Reference, Side, Word};
use crate::spelling::{is_prop_word, read_name_word};
use crate::words::{count_words, next_word};
use std::alloc::{AllocError, Global};

/// What was read of the rest of a line, and what may follow.
#[derive(Drop)]
pub struct Rest {
    pub since: Vec<Reference>,
    pub label: Vec<Literal>,
    pub expects: Expects,
}

/// Nothing yet of the rest of a line.
pub fn rest_begun(alloc: Global, expects: Expects) -> Rest
    ensures { the_rest result ≡ rest_begun expects }
{
    Rest {
        since: Vec::new(alloc),
        label: Vec::new(alloc),
        expects,
    }
}

fn put_reference(reference: Reference, rest: &mut Rest) -> Result<(), AllocError>
    ensures { OnOk result (the_rest rest.new ≡ with_reference reference (the_rest rest.old)) }
{
    rest.since.push(reference)?;
    rest.expects = Expects::AndOrIf;
    Ok(())
}

fn put_literal(alloc: Global, holds: bool, word: &[u8], rest: &mut Rest) -> Result<bool, AllocError>
    ensures { IfOk result (λ put. when put (the_rest rest.new) ≡ when (is_prop_word word.now) (with_literal_read holds word.now (the_rest rest.old))) }
{
    if !is_prop_word(word) {
        return Ok(false);
    }
    let prop = Word::new(alloc, word)?;
    rest.label.push(Literal { prop, holds })?;
    rest.expects = Expects::And;
    Ok(true)
}

fn put_point(alloc: Global, side: Side, word: &[u8], rest: &mut Rest) -> Result<bool, AllocError>
    ensures { IfOk result (λ put. when put (the_rest rest.new) ≡ with_point side word.now (the_rest rest.old)) }
{
    let Some(name) = read_name_word(alloc, word)? else {
        return Ok(false);
    };
    put_reference(Reference::Moment(Point { name, side }), rest)?;
    Ok(true)
}

fn put_outcome(alloc: Global, word: &[u8], rest: &mut Rest) -> Result<bool, AllocError>
    ensures { IfOk result (λ put. when put (the_rest rest.new) ≡ when (is_prop_word word.now) (with_reference (Outcome word.now) (the_rest rest.old))) }
{
    if !is_prop_word(word) {
        return Ok(false);
    }
    let prop = Word::new(alloc, word)?;
    put_reference(Reference::Outcome(prop), rest)?;
    Ok(true)
}

/// Whether the word is this keyword, behind which this may follow.
fn put_keyword(word: &[u8], keyword: &[u8], expects: Expects, rest: &mut Rest) -> bool
    ensures { when result (the_rest rest.new) ≡ when (is keyword.now word.now) (expecting expects (the_rest rest.old)) }
{
    if word != keyword {
        return false;
    }
    rest.expects = expects;
    true
}

fn put_since(alloc: Global, word: &[u8], rest: &mut Rest) -> Result<bool, AllocError>
    ensures { IfOk result (λ put. when put (the_rest rest.new) ≡ after_word Since word.now (the_rest rest.old)) }
{
    if word == b"end".as_slice() {
        rest.expects = Expects::OfSide(Side::Last);
        return Ok(true);
    }
    if word == b"start".as_slice() {
        rest.expects = Expects::OfSide(Side::First);
        return Ok(true);
    }
    if word == b"result".as_slice() {
        rest.expects = Expects::OfOutcome;
        return Ok(true);
    }
    put_point(alloc, Side::Alone, word, rest)
}

fn put_and_or_if(word: &[u8], rest: &mut Rest) -> bool
    ensures { when result (the_rest rest.new) ≡ after_word AndOrIf word.now (the_rest rest.old) }
{
    if word == b"and".as_slice() {
        rest.expects = Expects::Since;
        return true;
    }
    put_keyword(word, b"if", Expects::Asserted, rest)
}

fn put_asserted(alloc: Global, word: &[u8], rest: &mut Rest) -> Result<bool, AllocError>
    ensures { IfOk result (λ put. when put (the_rest rest.new) ≡ after_word Asserted word.now (the_rest rest.old)) }
{
    if word == b"not".as_slice() {
        rest.expects = Expects::Negated;
        return Ok(true);
    }
    put_literal(alloc, true, word, rest)
}

/// Puts in one word more, and answers whether it may stand there.
fn put_rest_word(alloc: Global, word: &[u8], rest: &mut Rest) -> Result<bool, AllocError>
    ensures { IfOk result (λ put. when put (the_rest rest.new) ≡ after_word rest.old.expects word.now (the_rest rest.old)) }
{
    match rest.expects {
        Expects::Since => put_since(alloc, word, rest),
        Expects::OfSide(side) => Ok(put_keyword(word, b"of", Expects::NameOf(side), rest)),
        Expects::NameOf(side) => put_point(alloc, side, word, rest),
        Expects::OfOutcome => Ok(put_keyword(word, b"of", Expects::OutcomeOf, rest)),
        Expects::OutcomeOf => put_outcome(alloc, word, rest),
        Expects::AndOrIf => Ok(put_and_or_if(word, rest)),
        Expects::If => Ok(put_keyword(word, b"if", Expects::Asserted, rest)),
        Expects::Asserted => put_asserted(alloc, word, rest),
        Expects::Negated => put_literal(alloc, false, word, rest),
        Expects::And => Ok(put_keyword(word, b"and", Expects::Asserted, rest)),
    }
}

fn may_end(expects: Expects) -> bool
    ensures { result ≡ may_end expects }
{
    match expects {
        Expects::AndOrIf => true,
        Expects::If => true,
        Expects::And => true,
        Expects::Since => false,
        Expects::OfSide(_) => false,
        Expects::NameOf(_) => false,
        Expects::OfOutcome => false,
        Expects::OutcomeOf => false,
        Expects::Asserted => false,
        Expects::Negated => false,
    }
}

/// Reads the words that are left as the rest of a line, behind what was read of it.
#[tactic(auto, unfolding(crate::specs::Grammar::rest_read))]
pub fn read_rest(alloc: Global, left: &[u8], rest: &mut Rest) -> Result<(), LineFault>
    ensures { GivesRead (λ u. the_rest rest.new) result (rest_read (the_rest rest.old) (words_of left.now)) }
{
    let mut left = left;
    while let Some((word, later)) = next_word(left) {
        if !put_rest_word(alloc, word, rest)? {
            return Err(LineFault::Wrong {
                left: count_words(left),
            });
        }
        left = later;
    }
    if !may_end(rest.expects) {
        return Err(LineFault::Wrong { left: 0 });
    }
    Ok(())
}
