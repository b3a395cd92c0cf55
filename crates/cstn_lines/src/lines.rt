// The lines of a live source.
ghost use Rattle.std.specs.Prelude.{◌≡◌, ◌≢◌, ◌⊎◌, ◌≤◌, ◌<◌, ◌+◌, ◌-◌, ◌^◌, ◌++◌, ℕ, List, Some, None, [], true, false, length, take, drop, IfOk, IfSome};
ghost use Rattle.std.specs.Prelude.{IfNone, OnOk, OnErr, MatchResult};
ghost use Rattle.cstn_io.specs.Causes.{Rose, HasCause};
ghost use Rattle.cstn_io.specs.Contents.{after_bytes, IsAtEnd};
ghost use Rattle.cstn_lines.specs.Pieces.{IsCut, HasEnd, HasNoEnd, between};
ghost use Rattle.cstn_lines.specs.Steps.{LinesState, LineSteps, ReadsOn, IsPast, wrong_at};

use crate::places::first_place;
use cstn_io::{Failed, Source};
use std::alloc::{AllocError, Global};
use std::marker::Model;

// How many bytes a line has at most, without its LF.
const LONGEST: usize = 4096;

// Room for the longest line and one byte more, which tells a longer one.
const ROOM: usize = LONGEST + 1;

// How many lines there are at most.
const MOST: u32 = 16_777_216;

/// What a step through the lines of a source says. Lines are numbered from 1.
#[derive(Clone, Copy, Debug, PartialEq, Eq)]
pub enum Next {
    /// The next line, which `Lines::line` lends.
    Line { number: u32 },
    /// There is no line left.
    End,
    /// The next line has more than 4,096 bytes, or would be line 16,777,217.
    Wrong { number: u32 },
    /// A read failed, and the source counted the fault. The bytes taken of the line are kept.
    Fault,
}

/// Cuts a source into lines. Each ends with LF, but the last may lack it.
// `bytes` has the line handed out from `first` to `last`, and what is kept from `start` to `end`. No byte of the
// latter before `searched` is LF.
#[derive(Drop)]
pub struct Lines {
    bytes: Vec<u8>,
    first: usize,
    last: usize,
    start: usize,
    searched: usize,
    end: usize,
    count: u32,
    ended: bool,
}

impl Model for Lines {
    ghost use Rattle.std.specs.Prelude.{◌≡◌, ◌≤◌, ◌^◌, nat_lt, vec_len};
    ghost use Rattle.cstn_lines.specs.Pieces.{HasNoEnd, between};
    ghost use Rattle.cstn_lines.specs.Steps.{LinesState};

    ghost Value = { LinesState };

    ghost view = { λ s. record {
      line = between s.first s.last s.bytes.items;
      whole = nat_lt s.last s.start;
      kept = between s.start s.end s.bytes.items;
      count = s.count;
      ended = s.ended;
    } };

    ghost invariant = { λ s. (s.first ≤ s.last) × (s.last ≤ s.end) × (s.start ≤ s.searched) × (s.searched ≤ s.end) × (s.end ≤ 4097)
        × (vec_len s.bytes ≡ 4097) × HasNoEnd (between s.start s.searched s.bytes.items) × (s.count ≤ 2 ^ 24) };
}

impl Lines {
    /// The state before the first line of a source. Takes memory for the longest line, and none later. Fails for
    /// want of memory alone.
    pub fn start(alloc: Global) -> Result<Lines, AllocError>
        ensures { IfOk result (λ s. s ≡ record { line = []; whole = false; kept = []; count = 0; ended = false }) }
    {
        let bytes = vec![in alloc; 0u8; ROOM]?;
        Ok(Lines {
            bytes,
            first: 0,
            last: 0,
            start: 0,
            searched: 0,
            end: 0,
            count: 0,
            ended: false,
        })
    }

    /// The line that the last step handed out, without its LF. After a step that handed out none these bytes
    /// mean nothing.
    pub fn line(&self) -> &[u8]
        ensures { result.now ≡ self.now.line }
    {
        &self.bytes[self.first..self.last]
    }

    /// Whether the line that the last step handed out had its LF, which only the last line of a source may lack. After a
    /// step that handed out none this means nothing.
    pub fn is_whole(&self) -> bool
        ensures { result ≡ self.now.whole }
    {
        self.last < self.start
    }

    // How many bytes are kept.
    fn kept_len(&self) -> usize
        ensures count { result ≡ length self.now.kept }
        ensures most { result ≤ 4097 }
    {
        self.end - self.start
    }

    // Where the first line of what is kept ends. What was searched before isn't searched again.
    fn find_end(&mut self) -> Option<usize>
        ensures cut { IfSome result (IsCut self.old.kept) }
        ensures none { IfNone result (HasNoEnd self.old.kept) }
        ensures same { self.new ≡ self.old }
    {
        match first_end(&self.bytes[self.searched..self.end]) {
            Some(i) => Some(self.searched - self.start + i),
            None => {
                self.searched = self.end;
                None
            }
        }
    }

    // What a step answers from the bytes that are kept: their first line where that is whole, `Wrong` where it is
    // too long or too late, and none where more bytes are wanted.
    fn cut(&mut self) -> Option<Next>
        ensures past { IsPast self.old → (result ≡ Some (wrong_at (self.old.count + 1))) × (self.new ≡ self.old) }
        ensures steps { IfSome result (LineSteps self.old.kept self.old.count self.new) }
        ensures some { IfSome result (λ _. 0 < length self.old.kept) }
        ensures same { IfNone result (self.new ≡ self.old) }
        ensures none { IfNone result (HasNoEnd self.old.kept) }
        ensures short { IfNone result (length self.old.kept ≤ 4096) }
        ensures count { IfNone result (0 < length self.old.kept → self.old.count < 2 ^ 24) }
        ensures ended { self.new.ended ≡ self.old.ended }
        ensures fault { result ≢ Some Next.Fault }
    {
        let len = self.kept_len();
        if len == 0 {
            return None;
        }
        if self.count == MOST {
            return Some(Next::Wrong { number: MOST + 1 });
        }
        match self.find_end() {
            Some(i) => Some(self.hand_out(i)),
            None if len > LONGEST => Some(Next::Wrong {
                number: self.count + 1,
            }),
            None => None,
        }
    }

    // Hands out the first line of what is kept, which has `len` bytes and then its LF.
    fn hand_out(&mut self, len: usize) -> Next
        requires cut { IsCut self.old.kept len }
        requires count { self.old.count < 2 ^ 24 }
        ensures steps { LineSteps self.old.kept self.old.count self.new result }
        ensures ended { self.new.ended ≡ self.old.ended }
        ensures line { result ≡ Next.Line (self.old.count + 1) }
    {
        self.first = self.start;
        self.last = self.start + len;
        self.start = self.last + 1;
        self.searched = self.start;
        self.count += 1;
        Next::Line { number: self.count }
    }

    // Hands out what is kept as the last line, which lacks its LF; `End` where nothing is kept.
    fn finish(&mut self) -> Next
        requires none { HasNoEnd self.old.kept }
        requires short { length self.old.kept ≤ 4096 }
        requires count { 0 < length self.old.kept → self.old.count < 2 ^ 24 }
        requires ended { self.old.ended ≡ true }
        ensures steps { LineSteps self.old.kept self.old.count self.new result }
        ensures ended { self.new.ended ≡ true }
        ensures again { self.old.kept ≡ [] → (result ≡ Next.End) × (self.new ≡ self.old) }
        ensures fault { result ≢ Next.Fault }
    {
        if self.kept_len() == 0 {
            return Next::End;
        }
        self.first = self.start;
        self.last = self.end;
        self.start = self.end;
        self.searched = self.end;
        self.count += 1;
        Next::Line { number: self.count }
    }

    // Takes more bytes, by one read.
    fn fill<S: Source>(&mut self, source: &mut S) -> Result<usize, Failed>
        requires short { length self.old.kept ≤ 4096 }
        requires ended { self.old.ended ≡ false }
        ensures taken { (taken : List ℕ) × (self.new.kept ≡ self.old.kept ++ taken) × (S.left source.old ≡ after_bytes taken (S.left source.new))
            × MatchResult result (λ n. n ≡ length taken) (λ _. taken ≡ []) }
        ensures count { self.new.count ≡ self.old.count }
        ensures ended { self.new.ended ≡ true → IsAtEnd (S.left source.new) }
        ensures zero { IfOk result (λ n. n ≡ 0 → self.new.ended ≡ true) }
        ensures more { IfOk result (λ n. 0 < n → self.new.ended ≡ false) }
        ensures going { OnErr result (self.new.ended ≡ false) }
        ensures reads { S.reads source.new ≤ S.reads source.old + 1 }
        ensures cause { HasCause (S.faults source.old) (S.faults source.new) result }
    {
        move_to_front(&mut self.bytes, self.start, self.end);
        self.first = 0;
        self.last = 0;
        self.searched -= self.start;
        self.end -= self.start;
        self.start = 0;
        match source.read(&mut self.bytes[self.end..]) {
            Ok(0) => {
                self.ended = true;
                Ok(0)
            }
            Ok(count) => {
                self.end += count;
                Ok(count)
            }
            Err(Failed) => Err(Failed),
        }
    }

    // Reads until the next line is whole, too long or too late, the source ends, or a read fails.
    fn read_on<S: Source>(&mut self, source: &mut S) -> Next
        requires none { HasNoEnd self.old.kept }
        requires short { length self.old.kept ≤ 4096 }
        requires count { 0 < length self.old.kept → self.old.count < 2 ^ 24 }
        requires ended { self.old.ended ≡ false }
        ensures steps { (taken : List ℕ) × (S.left source.old ≡ after_bytes taken (S.left source.new))
            × ReadsOn self.old.kept self.old.count taken (S.reads source.old) (S.reads source.new)
            × LineSteps (self.old.kept ++ taken) self.old.count self.new result }
        ensures ended { self.new.ended ≡ true → IsAtEnd (S.left source.new) }
        ensures later { S.faults source.old ≤ S.faults source.new }
        ensures fault { result ≡ Next.Fault → Rose (S.faults source.old) (S.faults source.new) }
    {
        'pieces: loop {
            match self.fill(source) {
                Ok(0) => return self.finish(),
                Ok(_) => {}
                Err(Failed) => return Next::Fault,
            }
            if let Some(next) = self.cut() {
                return next;
            }
        }
    }

    /// The next line. Nothing is read where it is kept whole, is already `Wrong`, or where the source has ended;
    /// else reads go on until one brings the end of the line, makes it `Wrong`, answers 0 or fails. After `End` and
    /// `Wrong` each step says the same again.
    pub fn step<S: Source>(&mut self, source: &mut S) -> Next
        ensures steps { (taken : List ℕ) × (S.left source.old ≡ after_bytes taken (S.left source.new)) × (self.old.ended ≡ true → taken ≡ [])
            × LineSteps (self.old.kept ++ taken) self.old.count self.new result }

        ensures stays { self.old.ended ≡ true → self.new.ended ≡ true }
        ensures ended { (self.old.ended ≡ true → IsAtEnd (S.left source.old)) → self.new.ended ≡ true → IsAtEnd (S.left source.new) }

        ensures idle { self.old.ended ≡ true → source.new ≡ source.old }
        ensures idle_whole { HasEnd self.old.kept → source.new ≡ source.old }
        ensures idle_past { IsPast self.old → source.new ≡ source.old }
        ensures reads { (source.new ≡ source.old)
            ⊎ ((taken : List ℕ) × (S.left source.old ≡ after_bytes taken (S.left source.new))
            × ReadsOn self.old.kept self.old.count taken (S.reads source.old) (S.reads source.new)
            × LineSteps (self.old.kept ++ taken) self.old.count self.new result) }

        ensures end_again { self.old.ended ≡ true → self.old.kept ≡ [] → (result ≡ Next.End) × (self.new ≡ self.old) }
        ensures wrong_again { IsPast self.old → (result ≡ wrong_at (self.old.count + 1)) × (self.new ≡ self.old) }

        ensures later { S.faults source.old ≤ S.faults source.new }
        ensures fault { result ≡ Next.Fault → Rose (S.faults source.old) (S.faults source.new) }
    {
        match self.cut() {
            Some(next) => next,
            None if self.ended => self.finish(),
            None => self.read_on(source),
        }
    }
}

// Moves the bytes from a place to another to the front.
fn move_to_front(bytes: &mut [u8], start: usize, end: usize)
    requires order { start ≤ end }
    requires inside { end ≤ length bytes.old }
    ensures moved { take (end - start) bytes.new ≡ between start end bytes.old }
    ensures len { length bytes.new ≡ length bytes.old }
{
    if start > 0 {
        bytes.copy_within(start..end, 0);
    }
}

// The place of the first LF; none where there is none.
#[tactic(auto, using(crate::proofs::PieceLemmas::cut_if, crate::proofs::PieceLemmas::open_if))]
fn first_end(bytes: &[u8]) -> Option<usize>
    ensures cut { IfSome result (IsCut bytes.now) }
    ensures none { IfNone result (HasNoEnd bytes.now) }
{
    first_place(bytes, b'\n')
}
