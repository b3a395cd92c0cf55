ghost use Rattle.std.specs.Prelude.{◌≡◌, ◌⊎◌, ◌<◌, ◌≤◌, ◌+◌, ◌++◌, ◌∷◌, [], ℕ, Some, None, length, replicate, IfOk, slice_get, slice_index_or, slice_set};
ghost use Rattle.std.specs.Prelude.{vec_capacity, IsPermutation, All};
ghost use Rattle.cstn_minset.specs.declared.page.Page.{Page as ThePage};
ghost use Rattle.cstn_minset.specs.declared.columns.Record.{Record};
ghost use Rattle.cstn_minset.specs.Chains.{IsFirstKey};
ghost use Rattle.cstn_minset.specs.Links.{AreLinks, SameSize};
ghost use Rattle.cstn_pool.specs.Slots.{padded};
ghost use Rattle.cstn_minset.specs.Pages.{IsPage, IsPageOf, on_page, held_records, homes, numbered_pages, most_pages, AreOpened, StartsWith, SameRows};

use crate::columns::Record;
use crate::links::Links;
use crate::page::{LEAST, Page, ROOM};
use std::alloc::{AllocError, Global};
use std::marker::Model;
use std::mem;

/// For each head a row of records, in pages. A row has no order; the least values of a page are told by its range.
///
/// Each head has a first page of its own, into which records go. Once that is full, what it has becomes another page of the row,
/// and it begins again. A page that loses a record gets one of the first page, so every page but the first lacks one record at
/// most. So at most `capacity` records find room, and no call but [`Rows::start`] takes memory: 39 bytes for each record of the
/// capacity, and 2,424 bytes for each head. Pages that were never used are not written.
#[derive(Drop)]
pub struct Rows {
    // The first pages are those of the heads.
    pages: Vec<Page>,
    // The pages of each row by rising number, and behind them those of no row.
    links: Links,
    heads: u32,
    capacity: u32,
}

impl Model for Rows {
    ghost use Rattle.std.specs.Prelude.{vec_capacity};
    ghost use Rattle.cstn_minset.specs.Pages.{Paged, IsPaged};

    ghost Value = { Paged };

    ghost view = { λ r. record { heads = r.heads; capacity = r.capacity; pages = r.pages.items } };

    ghost invariant = { λ r. IsPaged r.heads r.capacity r.pages.items r.links (vec_capacity r.pages) };
}

impl Rows {
    /// Empty rows for these heads, with room for this many records. Fails for want of memory alone.
    pub fn start(alloc: Global, heads: u16, capacity: u32) -> Result<Rows, AllocError>
        ensures size { IfOk result (λ rows. (rows.heads ≡ heads) × (rows.capacity ≡ capacity)) }
        ensures empty { IfOk result (λ rows. held_records rows.pages ≡ []) }
    {
        let heads = heads as u32;
        let total = heads + capacity / LEAST as u32 + 1;
        let mut links = Links::start(alloc, heads + 1, total)?;
        let mut pages = Vec::with_capacity(alloc, total as usize)?;
        open_all(&mut links, &mut pages, heads);
        Ok(Rows {
            pages,
            links,
            heads,
            capacity,
        })
    }

    /// The first page of the head's row; None where there is no such head.
    pub fn first(&self, head: u32) -> Option<u32>
        ensures first { IsFirstKey (numbered_pages self.now) head 0 result }
        ensures own { head < self.now.heads → IsPageOf self.now.pages head head }
    {
        self.links.first(head)
    }

    /// The page of the same row with the next number; None behind the last.
    pub fn next(&self, page: u32) -> Option<u32>
        requires { page < length self.now.pages }
        ensures { (h : ℕ) → IsPageOf self.now.pages h page → IsFirstKey (numbered_pages self.now) h (page + 1) result }
    {
        self.links.next(page)
    }

    /// A page.
    pub fn page(&self, page: u32) -> &Page
        requires { page < length self.now.pages }
        ensures page { Some result.now ≡ slice_get self.now.pages page }
        ensures is { IsPage result.now }
    {
        &self.pages[page as usize]
    }

    /// All pages by their numbers: those of every row, and those of none, which are empty.
    pub fn pages(&self) -> &[Page]
        ensures pages { result.now ≡ self.now.pages }
        ensures few { All (λ p. p.head < 65536) result.now }
    {
        &self.pages
    }

    /// Puts a record into the head's row.
    pub fn put(&mut self, head: u32, added: Record)
        requires head { head < self.old.heads }
        requires room { length (held_records self.old.pages) < self.old.capacity }
        ensures size { SameRows self.old self.new }
        ensures put { IsPermutation ((head, added) ∷ held_records self.old.pages) (held_records self.new.pages) }
    {
        self.make_room(head);
        self.pages[head as usize].add(added);
    }

    /// Takes a record out of a page.
    pub fn take(&mut self, page: u32, index: usize) -> Record
        requires page { page < length self.old.pages }
        requires index { (p : ThePage) → slice_get self.old.pages page ≡ Some p → index < length p.records.items }
        ensures size { SameRows self.old self.new }
        ensures value { (p : ThePage) → slice_get self.old.pages page ≡ Some p → result ≡ slice_index_or p.records.items index result }
        ensures taken { (p : ThePage) → slice_get self.old.pages page ≡ Some p →
            IsPermutation (held_records self.old.pages) ((p.head, result) ∷ held_records self.new.pages) }
    {
        let page = self.page_to_take_from(page);
        self.pages[page as usize].take(index)
    }

    /// Takes all records out.
    pub fn clear(&mut self)
        ensures size { SameRows self.old self.new }
        ensures empty { held_records self.new.pages ≡ [] }
    {
        self.links.clear();
        self.pages.clear();
        open_all(&mut self.links, &mut self.pages, self.heads);
    }

    // Leaves room on the first page of the head's row.
    fn make_room(&mut self, head: u32)
        requires head { head < self.old.heads }
        requires room { length (held_records self.old.pages) < self.old.capacity }
        ensures size { SameRows self.old self.new }
        ensures page { (p : ThePage) × (slice_get self.new.pages head ≡ Some p) × (p.head ≡ head) × (length p.records.items < 64) }
        ensures same { IsPermutation (held_records self.old.pages) (held_records self.new.pages) }
    {
        if self.pages[head as usize].records.len() == ROOM {
            self.pass_on(head);
        }
    }

    // Makes what is on the full first page of the head's row another page of the row, and leaves the first page empty.
    fn pass_on(&mut self, head: u32)
        requires head { head < self.old.heads }
        requires full { (p : ThePage) → slice_get self.old.pages head ≡ Some p → length p.records.items ≡ 64 }
        requires room { length (held_records self.old.pages) < self.old.capacity }
        ensures size { SameRows self.old self.new }
        ensures page { (p : ThePage) × (slice_get self.new.pages head ≡ Some p) × (p.head ≡ head) × (length p.records.items < 64) }
        ensures same { IsPermutation (held_records self.old.pages) (held_records self.new.pages) }
    {
        let none = Page::empty(head);
        let full = mem::replace(&mut self.pages[head as usize], none);
        self.install(full);
    }

    // Makes a page one of the row that it names.
    fn install(&mut self, page: Page) -> u32
        requires row { page.head < self.old.heads }
        requires full { length page.records.items ≡ 64 }
        requires is { IsPage page }
        requires room { length (held_records self.old.pages) ≤ self.old.capacity }
        ensures size { SameRows self.old self.new }
        ensures there { slice_get self.new.pages result ≡ Some page }
        ensures kept { (k : ℕ) (p : ThePage) → slice_get self.old.pages k ≡ Some p → p.head < self.old.heads → slice_get self.new.pages k ≡ Some p }
        ensures same { IsPermutation (on_page page ++ held_records self.old.pages) (held_records self.new.pages) }
    {
        match self.links.first(self.heads) {
            Some(number) => {
                self.reuse(number, page);
                number
            }
            None => self.append(page),
        }
    }

    // Makes a page that is of no row the given one.
    fn reuse(&mut self, number: u32, page: Page)
        requires free { IsPageOf self.old.pages self.old.heads number }
        requires row { page.head < self.old.heads }
        requires full { length page.records.items ≡ 64 }
        requires is { IsPage page }
        ensures { self.new ≡ record self.old { pages = slice_set self.old.pages number page } }
    {
        self.links.remove(number);
        let before = self.links.last_below(page.head, number);
        self.links.insert(number, before);
        self.pages[number as usize] = page;
    }

    // Makes the next page that was never used the given one.
    fn append(&mut self, page: Page) -> u32
        requires few { length self.old.pages < most_pages self.old.heads self.old.capacity }
        requires row { page.head < self.old.heads }
        requires full { length page.records.items ≡ 64 }
        requires is { IsPage page }
        ensures number { result ≡ length self.old.pages }
        ensures pages { self.new ≡ record self.old { pages = self.old.pages ++ page ∷ [] } }
    {
        let number = self.pages.len() as u32;
        let before = self.links.last_below(page.head, number);
        self.links.insert(number, before);
        self.pages.push_reserved(page);
        number
    }

    // A page that has the records of this one at the same places, and that may lose one of them: a page that lacks one already
    // gets one from the row's first page, or becomes that page where it is empty.
    fn page_to_take_from(&mut self, page: u32) -> u32
        requires page { page < length self.old.pages }
        requires some { (p : ThePage) → slice_get self.old.pages page ≡ Some p → 0 < length p.records.items }
        ensures size { SameRows self.old self.new }
        ensures front { (p : ThePage) → slice_get self.old.pages page ≡ Some p
            → (q : ThePage) × (slice_get self.new.pages result ≡ Some q) × (q.head ≡ p.head) × StartsWith p.records.items q.records.items }
        ensures spare { (q : ThePage) → slice_get self.new.pages result ≡ Some q → (result < self.new.heads) ⊎ (63 < length q.records.items) }
        ensures same { IsPermutation (held_records self.old.pages) (held_records self.new.pages) }
    {
        if page < self.heads || self.pages[page as usize].records.len() > LEAST {
            return page;
        }
        let first = self.pages[page as usize].head;
        if self.pages[first as usize].records.is_empty() {
            self.make_first(page, first);
            return first;
        }
        self.refill(page, first);
        page
    }

    // Brings a record from the first page of a row to another page of it.
    fn refill(&mut self, page: u32, first: u32)
        requires behind { self.old.heads ≤ page }
        requires row { first < self.old.heads }
        requires page { (p : ThePage) × (slice_get self.old.pages page ≡ Some p) × (p.head ≡ first) × (length p.records.items ≤ 63) }
        requires some { (p : ThePage) → slice_get self.old.pages first ≡ Some p → 0 < length p.records.items }
        ensures size { SameRows self.old self.new }
        ensures filled { (p : ThePage) → slice_get self.old.pages page ≡ Some p
            → (q : ThePage) × (moved : Record) × (slice_get self.new.pages page ≡ Some q) × (q.head ≡ p.head)
            × (q.records.items ≡ p.records.items ++ moved ∷ []) }
        ensures same { IsPermutation (held_records self.old.pages) (held_records self.new.pages) }
    {
        let moved = self.pages[first as usize].take(0);
        self.pages[page as usize].add(moved);
    }

    // Makes a page the first of its row, whose first page is empty.
    fn make_first(&mut self, page: u32, first: u32)
        requires behind { self.old.heads ≤ page }
        requires row { first < self.old.heads }
        requires page { IsPageOf self.old.pages first page }
        requires empty { (p : ThePage) → slice_get self.old.pages first ≡ Some p → p.records.items ≡ [] }
        ensures size { SameRows self.old self.new }
        ensures made { (p : ThePage) → slice_get self.old.pages page ≡ Some p → slice_get self.new.pages first ≡ Some p }
        ensures same { IsPermutation (held_records self.old.pages) (held_records self.new.pages) }
    {
        self.links.remove(page);
        let before = self.links.last_below(self.heads, page);
        self.links.insert(page, before);
        let none = Page::empty(self.heads);
        let full = mem::replace(&mut self.pages[page as usize], none);
        self.pages[first as usize] = full;
    }
}

// Gives each head its first page.
fn open_all(links: &mut Links, pages: &mut Vec<Page>, heads: u32)
    requires linked { AreLinks links.old (replicate links.old.slots None) }
    requires empty { pages.old.items ≡ [] }
    requires heads { (heads < links.old.heads) × (heads ≤ links.old.slots) × (heads ≤ vec_capacity pages.old) }
    ensures size { SameSize links.old links.new × (vec_capacity pages.new ≡ vec_capacity pages.old) }
    ensures opened { AreOpened heads pages.new.items }
    ensures linked { AreLinks links.new (padded None links.new.slots (homes 0 pages.new.items)) }
{
    for head in 0..heads {
        let end = links.end(head);
        links.insert(head, end);
        pages.push_reserved(Page::empty(head));
    }
}
