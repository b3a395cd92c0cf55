// The list of a log: its entries in order, kept in a pool with their premises named by slots.
ghost use Rattle.std.specs.Prelude.{ℕ, ◌≡◌, ◌≢◌, ◌<◌, ◌≤◌, ◌+◌, ◌^◌, ◌++◌, ◌∷◌, ◌↔◌, [], List, Some, None, length, map, replicate, slice_get, slice_index_or};
ghost use Rattle.std.specs.Prelude.{slice_set, vec_capacity, IfOk, IfNone, IfSome, IsErr, IsTrue, OnErr};
ghost use Rattle.cstn_net.specs.Limits.{most_load};
ghost use Rattle.cstn_rules.specs.declared.entries.Entry.{Entry as TheEntry};
ghost use Rattle.cstn_pool.specs.Slots.{live_of};
ghost use Rattle.cstn_log.specs.Entries.{HasId, IsBoundAt, the_entries};
ghost use Rattle.cstn_log.specs.Kept.{IsIdAt, AreLeft, AreStored, IsPooled, renewed};
ghost use Rattle.cstn_log.specs.Cuts.{PremisesBelow, AllEarlier, IsClosedUnder, replaced, chosen};
ghost use Rattle.cstn_log.specs.Lists.{Listing, AreApart, IsFiled, ids_in};

use crate::caps::Cap;
use cstn_label::Bound;
use cstn_pool::{Full, Pool, SlotId};
use cstn_rules::{Entry, Why};
use std::alloc::{AllocError, Global};
use std::marker::Model;

// Entries in order, each in a slot of a pool.
//
// Places change when entries are taken out, and slots don't. So the pool's entries name their premises by slots, and a table
// tells the place of the entry in each.
#[derive(Drop)]
pub struct EntryList {
    pool: Pool<Entry>,
    // The slot of each entry.
    slots: Vec<u32>,
    // The place of the entry in each slot, up to the highest slot that was used. What it has for a slot without an entry means
    // nothing.
    places: Vec<u32>,
    cap: u32,
}

impl Model for EntryList {
    ghost use Rattle.std.specs.Prelude.{map, vec_capacity};
    ghost use Rattle.cstn_log.specs.Lists.{Listing, IsListed, placed, stored_in, ids_in};

    ghost Value = { Listing };

    ghost view = { λ l. record {
      entries = map (placed l.places.items) (stored_in l.pool.slots l.slots.items);
      ids = ids_in l.pool.slots l.slots.items;
      cap = l.cap;
      pool = l.pool;
    } };

    ghost invariant = { λ l. IsListed l.places.items l.slots.items l.pool.slots l.cap (vec_capacity l.slots) (vec_capacity l.places) };
}

impl EntryList {
    // A list with no entry, and room for this many.
    pub fn empty(alloc: Global, cap: Cap) -> Result<EntryList, AllocError>
        ensures { IfOk result (λ list. list ≡ record {
          entries = [];
          ids = [];
          cap = cap.entries;
          pool = record { slots = replicate cap.entries None; births = 0 };
        }) }
    {
        let pool = Pool::start(alloc, cap.entries)?;
        let slots = Vec::with_capacity(alloc, cap.entries as usize)?;
        let places = Vec::with_capacity(alloc, cap.entries as usize)?;
        Ok(EntryList {
            pool,
            slots,
            places,
            cap: cap.entries,
        })
    }

    // How many entries there may be.
    pub fn cap(&self) -> u32
        ensures { result ≡ self.now.cap }
    {
        self.cap
    }

    // The pool, which holds each entry under its id, with its premises named by slots.
    pub fn pool(&self) -> &Pool<Entry>
        ensures pool { result.now ≡ self.now.pool }
        ensures stored { AreStored self.now.pool.slots self.now.entries self.now.ids }
    {
        &self.pool
    }

    // How many entries there are.
    pub fn len(&self) -> usize
        ensures len { result ≡ length self.now.entries }
        ensures ids { length self.now.ids ≡ length self.now.entries }
        ensures most { length self.now.entries ≤ self.now.cap }
        ensures few { self.now.cap ≤ most_load }
        ensures earlier { AllEarlier (the_entries self.now.entries) }
    {
        self.slots.len()
    }

    // The entry at a place.
    pub fn entry(&self, k: usize) -> Entry
        requires { k < length self.now.entries }
        ensures entry { slice_get self.now.entries k ≡ Some result }
        ensures premises { PremisesBelow k result.why }
    {
        let stored = *self.pool.at(self.slots[k]);
        placed(stored, &self.places)
    }

    // The bound of the entry at a place.
    pub fn bound(&self, k: usize) -> Bound
        requires { k < length self.now.entries }
        ensures { IsBoundAt self.now.entries k result }
    {
        self.pool.at(self.slots[k]).bound
    }

    // The id of the entry at a place.
    pub fn id(&self, k: usize) -> SlotId
        requires { k < length self.now.entries }
        ensures { slice_get self.now.ids k ≡ Some result }
    {
        self.pool.id(self.slots[k])
    }

    // The place of the entry with this id, if one has it.
    pub fn place(&self, id: SlotId) -> Option<u32>
        ensures place { IfSome result (λ k. slice_get self.now.ids k ≡ Some id) }
        ensures none { IfNone result (¬ HasId self.now.ids id) }
    {
        match self.places.get(id.slot as usize) {
            Some(place) if self.is_id(*place, id) => Some(*place),
            _ => None,
        }
    }

    // The place of the entry in a slot that has one.
    pub fn place_in(&self, slot: u32) -> u32
        requires { (birth k : ℕ) × IsIdAt self.now.ids slot birth k }
        ensures { (birth k : ℕ) → IsIdAt self.now.ids slot birth k → result ≡ k }
    {
        self.places[slot as usize]
    }

    // Whether the entry at a place has this id.
    fn is_id(&self, k: u32, id: SlotId) -> bool
        ensures { IsTrue result ↔ (slice_get self.now.ids k ≡ Some id) }
    {
        match self.slots.get(k as usize) {
            Some(slot) => self.pool.id(*slot) == id,
            None => false,
        }
    }

    // Appends an entry under a new id. Where the pool is full, refuses it and stays as it was.
    pub fn push(&mut self, e: Entry) -> Result<SlotId, Full>
        requires premises { PremisesBelow (length self.old.entries) e.why }
        requires births { self.old.pool.births < 2 ^ 63 }
        ensures full { IsErr result ↔ (live_of self.old.pool.slots ≡ length self.old.pool.slots) }
        ensures refused { OnErr result (self.new ≡ self.old) }
        ensures empty { IfOk result (λ id. slice_get self.old.pool.slots id.slot ≡ Some None) }
        ensures birth { IfOk result (λ id. id.birth ≡ self.old.pool.births) }
        ensures pushed { IfOk result (λ id. (x : TheEntry) × (x.bound ≡ e.bound) × (self.new ≡ record self.old {
          entries = self.old.entries ++ e ∷ [];
          ids = self.old.ids ++ id ∷ [];
          pool = record { slots = slice_set self.old.pool.slots id.slot (Some (id.birth, x)); births = self.old.pool.births + 1 };
        })) }
    {
        let place = self.slots.len() as u32;
        let id = self.pool.take(placed(e, &self.slots))?;
        self.slots.push(id.slot).unwrap();
        write_place(&mut self.places, id.slot, place);
        Ok(id)
    }

    // Keeps the marked entries alone, and gives the slots of the others back.
    pub fn keep(&mut self, marks: &[bool])
        requires pooled { IsPooled self.old.pool.slots self.old.pool.births self.old.entries self.old.ids }
        requires size { length marks.now ≡ length self.old.entries }
        requires closed { IsClosedUnder marks.now (the_entries self.old.entries) }
        ensures kept { self.new ≡ record self.old {
          entries = chosen marks.now (map (renewed marks.now) self.old.entries);
          ids = chosen marks.now self.old.ids;
          pool = self.new.pool;
        } }
        ensures left { AreLeft marks.now self.old.ids (length self.old.ids) self.old.pool.slots self.new.pool.slots }
        ensures births { self.new.pool.births ≡ self.old.pool.births }
    {
        give_rest(&mut self.pool, &self.slots, marks);
        choose(&mut self.slots, marks);
        write_places(&mut self.places, &self.slots);
    }

    // Takes every entry out.
    pub fn clear(&mut self)
        ensures { self.new ≡ record self.old {
          entries = [];
          ids = [];
          pool = record { slots = replicate (length self.old.pool.slots) None; births = self.old.pool.births };
        } }
    {
        self.pool.clear();
        self.slots.clear();
        self.places.clear();
    }
}

// The entry, with each premise replaced by what a table has for it.
pub fn placed(e: Entry, table: &[u32]) -> Entry
    requires { PremisesBelow (length table.now) e.why }
    ensures bound { result.bound ≡ e.bound }
    ensures why { result.why ≡ replaced table.now e.why }
{
    let why = match e.why {
        Why::Base => Why::Base,
        Why::Chain {
            constraint,
            premise,
        } => Why::Chain {
            constraint,
            premise: table[premise as usize],
        },
        Why::Wait { seen, premise } => Why::Wait {
            seen: table[seen as usize],
            premise: table[premise as usize],
        },
    };
    Entry {
        bound: e.bound,
        why,
    }
}

// Gives back the slots of the entries that aren't marked.
fn give_rest(pool: &mut Pool<Entry>, slots: &[u32], marks: &[bool])
    requires pooled { (entries : List TheEntry) × IsPooled pool.old.slots pool.old.births entries (ids_in pool.old.slots slots.now) }
    requires size { length marks.now ≡ length slots.now }
    ensures left { AreLeft marks.now (ids_in pool.old.slots slots.now) (length slots.now) pool.old.slots pool.new.slots }
    ensures births { pool.new.births ≡ pool.old.births }
{
    for k in 0..slots.len() {
        if !marks[k] {
            let id = pool.id(slots[k]);
            pool.give(id);
        }
    }
}

// Writes the place of the entry in a slot.
fn write_place(places: &mut Vec<u32>, slot: u32, place: u32)
    requires room { (length places.old.items ≤ vec_capacity places.old) × (slot < vec_capacity places.old) }
    ensures here { slice_index_or places.new.items slot 0 ≡ place }
    ensures others { (s : ℕ) → s < length places.old.items → s ≢ slot → slice_index_or places.new.items s 0 ≡ slice_index_or places.old.items s 0 }
    ensures longer { (length places.old.items ≤ length places.new.items) × (slot < length places.new.items) }
    ensures most { (n : ℕ) → length places.old.items ≤ n → slot < n → length places.new.items ≤ n }
    ensures room { vec_capacity places.old ≤ vec_capacity places.new }
{
    let count = places.len().max(slot as usize + 1);
    places.resize(count, 0).unwrap();
    places[slot as usize] = place;
}

// Writes the place of each entry under its slot.
fn write_places(places: &mut Vec<u32>, slots: &[u32])
    requires inside { (k s : ℕ) → slice_get slots.now k ≡ Some s → s < length places.old.items }
    requires apart { AreApart slots.now }
    requires few { length slots.now ≤ most_load }
    ensures filed { IsFiled places.new.items slots.now }
    ensures size { length places.new.items ≡ length places.old.items }
    ensures room { vec_capacity places.old ≤ vec_capacity places.new }
{
    for k in 0..slots.len() {
        places[slots[k] as usize] = k as u32;
    }
}

// Keeps the values at marked places alone.
fn choose<T: Copy>(values: &mut Vec<T>, marks: &[bool])
    requires { length marks.now ≡ length values.old.items }
    ensures chosen { values.new.items ≡ chosen marks.now values.old.items }
    ensures room { vec_capacity values.old ≤ vec_capacity values.new }
{
    let mut count = 0;
    for k in 0..values.len() {
        if marks[k] {
            values[count] = values[k];
            count += 1;
        }
    }
    values.truncate(count);
}
