ghost use Rattle.std.specs.Prelude.{List, ◌≡◌, ◌⊎◌, ◌<◌, ◌≤◌, ◌+◌, ◌^◌, ◌++◌, ◌∷◌, [], ◌↔◌, ◌*◌, pos, ℕ, Some, None, true, false, length, take, IsTrue};
ghost use Rattle.std.specs.Prelude.{IfNone, IfOk, IfSome, IsErr, IsOk, OnErr, slice_get, slice_index_or};
ghost use Rattle.cstn_label.specs.Read.{the_bound, marks};
ghost use Rattle.std.specs.List.{Contains};
ghost use Rattle.cstn_net.specs.Limits.{most_load};
ghost use Rattle.cstn_net.specs.Networks.{Network as TheNetwork, Constraint, IsNetwork, count};
ghost use Rattle.cstn_net.specs.Strategies.{Table, IsStrategy};
ghost use Rattle.cstn_net.specs.Bounds.{HoldsIn};
ghost use Rattle.cstn_net.specs.Read.{the_network};
ghost use Rattle.cstn_rules.specs.Rules.{base};
ghost use Rattle.cstn_rules.specs.Derivations.{Follows, IsDerivation, IsRefutation};
ghost use Rattle.cstn_minset.specs.Sets.{IsPlaced, IsSoughtAbove};
ghost use Rattle.cstn_log.specs.Entries.{State, HasId, AreBornFrom, the_entries, IsBoundAt, IsDominator};
ghost use Rattle.cstn_log.specs.Entries.{IsCoveredBy, IsLive, HasLeast, AllNew, bases, first_entries};
ghost use Rattle.cstn_log.specs.Cuts.{PremisesBelow, is_place_marked as is_marked_at, chosen, marked_staying, with_ancestors, last_marked, cut};
ghost use Rattle.cstn_log.specs.Cuts.{last_with_ancestors, dropped};
ghost use Rattle.cstn_log.specs.Kept.{IsIdAt, AreStored};
ghost use Rattle.cstn_log.specs.Agendas.{has_place};
ghost use Rattle.cstn_label.specs.Labels.{IsMarked, without};

use crate::agenda::Agenda;
use crate::caps::Cap;
use crate::cutting::{count_marked, cut, mark_ancestors, mark_staying};
use crate::list::EntryList;
use crate::putting::{clear, place_all, put_down};
use cstn_label::{Bound, Label, NodeId, Prop, domination_is_an_order};
use cstn_minset::MinSet;
use cstn_net::Network;
use cstn_pool::{Full, Pool, SlotId};
use cstn_rules::{Entry, Why, derivations_are_sound};
use std::alloc::{AllocError, Global};
use std::marker::Model;

/// Entries in the order in which they were pushed. None is dominated by an earlier one.
///
/// An entry is live while no later one dominates it. A pool has the bound of each entry, and a minimal set those of the live
/// ones, each under the id that [`Log::slot`] answers. An entry keeps its id while entries before it are taken out, and only
/// its place changes: premises are kept by slot, and a table tells the place of each. All memory of the log is taken by
/// [`Log::start`]: 111.5 bytes for each entry that there may be, so 468 MB for the largest cap of 4,194,304, and 2,424 bytes for each
/// time-point. Of these, 4 bytes an entry are written only as far as a time-point has live entries, and one byte an entry is used
/// by [`Log::retract`] alone.
#[derive(Drop)]
pub struct Log {
    minimal: MinSet,
    list: EntryList,
    // Places that are still to be tried.
    agenda: Agenda,
    // Slots that were looked for.
    found: Vec<u32>,
    // Which entries stay when some are taken out.
    marks: Vec<bool>,
}

impl Model for Log {
    ghost use Rattle.std.specs.Prelude.{◌*◌, length, vec_capacity};
    ghost use Rattle.cstn_log.specs.Entries.{State};
    ghost use Rattle.cstn_log.specs.Kept.{IsLog};

    ghost Value = { State };

    ghost view = { λ l. record {
      entries = l.list.entries;
      ids = l.list.ids;
      births = l.list.pool.births;
      cap = l.list.cap;
      nodes = l.minimal.nodes;
      agenda = l.agenda;
    } };

    ghost invariant = { λ l. IsLog l.list.pool.slots l.list.pool.births l.minimal.table l.list.entries l.list.ids l.minimal.nodes
        l.list.cap (record { for_marks = vec_capacity l.marks; for_slots = vec_capacity l.found; for_places = 4096 * length l.agenda }) };
}

impl Log {
    /// The log that has the base bounds of the network, or nothing where `cap` is below their
    /// number. Fails for want of memory alone.
    pub fn start(alloc: Global, net: &Network, cap: Cap) -> Result<Log, AllocError>
        ensures start { IfOk result (λ log. the_entries log.entries ≡ first_entries (the_network net.now) cap.entries) }
        ensures size { IfOk result (λ log. (log.cap ≡ cap.entries) × (log.nodes ≡ count (the_network net.now))) }
        ensures births { IfOk result (λ log. log.births ≤ count (the_network net.now)) }
        ensures derivation { IfOk result (λ log. IsDerivation (the_network net.now) (the_entries log.entries)) }
    {
        let nodes = net.count();
        let mut log = Log::empty(alloc, nodes, cap)?;
        if nodes as u32 <= cap.entries {
            log.push_bases(net);
        }
        Ok(log)
    }

    // A log with no entry.
    fn empty(alloc: Global, nodes: u16, cap: Cap) -> Result<Log, AllocError>
        ensures entries { IfOk result (λ log. (log.entries ≡ []) × (log.ids ≡ []) × (log.births ≡ 0)) }
        ensures size { IfOk result (λ log. (log.cap ≡ cap.entries) × (log.nodes ≡ nodes)) }
    {
        let minimal = MinSet::start(alloc, nodes, cap.entries)?;
        let list = EntryList::empty(alloc, cap)?;
        let agenda = Agenda::start(alloc, cap)?;
        let found = Vec::with_capacity(alloc, cap.entries as usize)?;
        let marks = Vec::with_capacity(alloc, cap.entries as usize)?;
        Ok(Log {
            minimal,
            list,
            agenda,
            found,
            marks,
        })
    }

    // Pushes the base bound of each time-point, in order.
    fn push_bases(&mut self, net: &Network)
        requires net { self.old.nodes ≡ count (the_network net.now) }
        requires room { count (the_network net.now) ≤ self.old.cap }
        requires empty { self.old.entries ≡ [] }
        requires no_ids { self.old.ids ≡ [] }
        requires births { self.old.births < 2 ^ 62 }
        ensures bases { the_entries self.new.entries ≡ bases (count (the_network net.now)) }
        ensures size { (self.new.cap ≡ self.old.cap) × (self.new.nodes ≡ self.old.nodes) }
        ensures births { self.new.births ≡ self.old.births + count (the_network net.now) }
        ensures ids { AreBornFrom self.old.births self.new.ids }
        ensures derivation { IsDerivation (the_network net.now) (the_entries self.new.entries) }
    {
        for node in 0..net.count() {
            self.push(net, base_entry(NodeId(node))).unwrap();
        }
    }

    /// Appends an entry that follows by its rule and that no entry dominates, and answers its place, from 0. Where the log has
    /// as many entries as its cap, it refuses the entry and stays as it was.
    pub fn push(&mut self, net: &Network, e: Entry) -> Result<u32, Full>
        requires net { self.old.nodes ≡ count (the_network net.now) }
        requires follows { Follows (the_network net.now) (the_entries self.old.entries) (length self.old.entries) e.why (the_bound e.bound) }
        requires uncovered { ¬ IsCoveredBy self.old.entries e.bound }
        requires births { self.old.births < 2 ^ 63 }

        ensures full { IsErr result ↔ (length self.old.entries ≡ self.old.cap) }
        ensures refused { OnErr result (self.new ≡ self.old) }

        ensures place { IfOk result (λ k. k ≡ length self.old.entries) }
        ensures pushed { IsOk result → (slot : ℕ)
            × (self.new ≡ record self.old {
              entries = self.old.entries ++ e ∷ [];
              ids = self.old.ids ++ record { slot = slot; birth = self.old.births } ∷ [];
              births = self.old.births + 1;
            }) }
        ensures derivation { IsDerivation (the_network net.now) (the_entries self.old.entries)
            → IsDerivation (the_network net.now) (the_entries self.new.entries) }
    {
        domination_is_an_order();
        let count = net.count();
        let place = self.list.len() as u32;
        let id = self.list.push(e)?;
        // A bound that follows by a rule is at a time-point of the network.
        prove!(e.bound.node.0 < count);
        self.minimal.place(&e.bound, id);
        Ok(place)
    }

    /// Whether some entry dominates the bound.
    pub fn covered(&self, b: &Bound) -> bool
        ensures covered { IsTrue result ↔ IsCoveredBy self.now.entries b.now }
    {
        self.minimal.covers(b)
    }

    /// The place of an entry that dominates the bound; None exactly where no entry does.
    pub fn cover(&self, b: &Bound) -> Option<u32>
        ensures cover { IfSome result (λ k. IsDominator self.now.entries k b.now) }
        ensures none { IfNone result (¬ IsCoveredBy self.now.entries b.now) }
    {
        match self.minimal.cover(b) {
            Some(id) => self.list.place(id),
            None => None,
        }
    }

    /// Whether no later entry dominates the one at this place.
    pub fn live(&self, k: u32) -> bool
        requires { k < length self.now.entries }
        ensures live { IsTrue result ↔ IsLive self.now.entries k }
    {
        self.minimal.holds(self.list.id(k as usize))
    }

    /// How many entries there are.
    pub fn len(&self) -> u32
        ensures len { result ≡ length self.now.entries }
        ensures at_most { result ≤ self.now.cap }
        ensures largest { self.now.cap ≤ most_load }
        ensures all_new { AllNew self.now.entries }
    {
        self.list.len() as u32
    }

    /// The entry at a place. It holds in every strategy of each network of which the log is a
    /// derivation.
    pub fn entry(&self, k: u32) -> Entry
        requires { k < length self.now.entries }
        ensures entry { slice_get self.now.entries k ≡ Some result }
        ensures node { result.bound.node.0 < self.now.nodes }
        ensures premises { PremisesBelow k result.why }
        ensures holds { (net : TheNetwork) (table : Table) → IsNetwork net → IsStrategy net table → IsDerivation net (the_entries self.now.entries)
            → HoldsIn net table (the_bound result.bound) }
    {
        derivations_are_sound();
        self.list.entry(k as usize)
    }

    /// The bound of the entry at a place, without the rule that gave it. It takes less time than the whole entry.
    pub fn bound(&self, k: u32) -> Bound
        requires { k < length self.now.entries }
        ensures bound { IsBoundAt self.now.entries k result }
        ensures node { result.node.0 < self.now.nodes }
    {
        self.list.bound(k as usize)
    }

    /// The last entry and its ancestors, in order, with premises as places in the answer. They are a derivation of each network
    /// of which the log is one, and a refutation where the log is one. Fails for want of memory alone.
    pub fn part(&self, alloc: Global) -> Result<Vec<Entry>, AllocError>
        requires { 0 < length self.now.entries }
        ensures part { IfOk result (λ steps. the_entries steps.items ≡ last_with_ancestors (the_entries self.now.entries)) }
        ensures derivation { (net : TheNetwork) → IsDerivation net (the_entries self.now.entries)
            → IfOk result (λ steps. IsDerivation net (the_entries steps.items)) }
        ensures refutation { (net : TheNetwork) → IsRefutation net (the_entries self.now.entries)
            → IfOk result (λ steps. IsRefutation net (the_entries steps.items)) }
    {
        self.part_upto(alloc, self.len())
    }

    /// The last of the first `count` entries and its ancestors, in order, with premises as places in the answer. Fails for want
    /// of memory alone.
    pub fn part_upto(&self, alloc: Global, count: u32) -> Result<Vec<Entry>, AllocError>
        requires some { 0 < count }
        requires upto { count ≤ length self.now.entries }
        ensures part { IfOk result (λ steps. the_entries steps.items ≡ last_with_ancestors (the_entries (take count self.now.entries))) }
    {
        self.last_and_ancestors(alloc, count as usize)
    }

    fn last_and_ancestors(&self, alloc: Global, count: usize) -> Result<Vec<Entry>, AllocError>
        requires some { 0 < count }
        requires upto { count ≤ length self.now.entries }
        ensures { IfOk result (λ steps. the_entries steps.items
            ≡ cut (with_ancestors (the_entries self.now.entries) count (last_marked count)) (the_entries (take count self.now.entries))) }
    {
        let mut marks = vec![in alloc; false; count]?;
        marks[count - 1] = true;
        mark_ancestors(&self.list, &mut marks);
        let mut places = Vec::with_capacity(alloc, count)?;
        let mut steps = Vec::with_capacity(alloc, count_marked(&marks))?;
        cut(&self.list, &marks, &mut places, &mut steps);
        Ok(steps)
    }

    /// Takes out the entries that the constraint of this id gave, and their descendants, gives their slots back, and answers
    /// how many they were. The others keep their ids. Where the log was a derivation of a network, it still is one of any
    /// network that has the other constraints and is the same in all else.
    pub fn retract(&mut self, constraint: u32) -> u32
        ensures dropped { the_entries self.new.entries ≡ dropped (the_entries self.old.entries) constraint }
        ensures ids { self.new.ids ≡ chosen (marked_staying constraint [] (the_entries self.old.entries)) self.old.ids }
        ensures gone { (k : ℕ) (id : SlotId) → slice_get self.old.ids k ≡ Some id
            → is_marked_at (marked_staying constraint [] (the_entries self.old.entries)) k ≡ false → ¬ HasId self.new.ids id }
        ensures answer { result + length self.new.entries ≡ length self.old.entries }
        ensures unchanged { result ≡ 0 → self.new ≡ self.old }
        ensures births { self.new.births ≡ self.old.births }
        ensures size { (self.new.cap ≡ self.old.cap) × (self.new.nodes ≡ self.old.nodes) }
        ensures derivation { (net : TheNetwork) (constraints : List Constraint)
            → ((c : Constraint) → Contains net.constraints c → (c.id ≡ constraint → ⊥) → Contains constraints c)
            → IsDerivation net (the_entries self.old.entries) → IsDerivation (record net { constraints = constraints }) (the_entries self.new.entries) }
    {
        self.marks.clear();
        mark_staying(&self.list, constraint, &mut self.marks);
        let before = self.list.len();
        let staying = count_marked(&self.marks);
        if staying == before {
            return 0;
        }
        self.list.keep(&self.marks);
        self.minimal.clear();
        place_all(&mut self.minimal, &self.list);
        (before - staying) as u32
    }

    /// Starts again: the log has the base bounds of the network, or nothing where its cap is below
    /// their number. They have new ids, and those that the log had are gone for good.
    pub fn restart(&mut self, net: &Network)
        requires net { self.old.nodes ≡ count (the_network net.now) }
        requires births { self.old.births < 2 ^ 62 }
        ensures restart { the_entries self.new.entries ≡ first_entries (the_network net.now) self.old.cap }
        ensures ids { AreBornFrom self.old.births self.new.ids }
        ensures gone { (id : SlotId) → HasId self.old.ids id → ¬ HasId self.new.ids id }
        ensures births { (self.old.births ≤ self.new.births) × (self.new.births ≤ self.old.births + count (the_network net.now)) }
        ensures size { (self.new.cap ≡ self.old.cap) × (self.new.nodes ≡ self.old.nodes) }
        ensures derivation { IsDerivation (the_network net.now) (the_entries self.new.entries) }
    {
        self.take_all_out();
        if net.count() as u32 <= self.list.cap() {
            self.push_bases(net);
        }
    }

    fn take_all_out(&mut self)
        ensures empty { self.new ≡ record self.old { entries = []; ids = [] } }
        ensures born { (id : SlotId) → HasId self.old.ids id → id.birth < self.old.births }
    {
        clear(&mut self.minimal, &mut self.list);
    }

    /// A least value of an entry at the time-point whose label is within this one, or 0. It is the greatest of these.
    pub fn floor(&self, x: NodeId, label: Label) -> i32
        ensures floor { (result ≡ pos 0) ⊎ HasLeast self.now.entries x.0 (marks label) result }
    {
        self.minimal.floor(x, label)
    }

    /// For each proposition a least value of an entry at the time-point whose label is within this one without the proposition, or
    /// 0. Where the label marks the proposition, it is the greatest of these.
    pub fn floors(&self, x: NodeId, label: Label) -> [i32; 52]
        ensures floors { (p : ℕ) → p < 52 → (slice_index_or result p (pos 0) ≡ pos 0)
            ⊎ HasLeast self.now.entries x.0 (without (marks label) p) (slice_index_or result p (pos 0)) }
    {
        self.minimal.floors(x, label)
    }

    /// Whether a live entry at the time-point may mark the proposition.
    pub fn may_mark(&self, x: NodeId, p: Prop) -> bool
        ensures none { result ≡ false → (k : ℕ) (e : Entry) → slice_get self.now.entries k ≡ Some e → IsLive self.now.entries k
            → e.bound.node.0 ≡ x.0 → ¬ IsMarked (marks e.bound.label) p.index }
    {
        self.minimal.may_mark(x, p)
    }

    /// Puts on the agenda the places up to `upto` of the live entries at the time-point with a least value above the floor, and
    /// of those alone that mark a proposition, if one is given.
    pub fn put_down(&mut self, x: NodeId, floor: i32, marking: Option<Prop>, upto: u32)
        requires upto { upto < length self.old.entries }
        ensures stays { self.new ≡ record self.old { agenda = self.new.agenda } }
        ensures kept { (k : ℕ) → has_place self.old.agenda k ≡ true → has_place self.new.agenda k ≡ true }
        ensures added { (k : ℕ) (e : Entry) → slice_get self.old.entries k ≡ Some e → IsLive self.old.entries k → k ≤ upto
            → IsSoughtAbove x.0 floor marking e.bound → has_place self.new.agenda k ≡ true }
        ensures upto { (k : ℕ) → has_place self.new.agenda k ≡ true → (has_place self.old.agenda k ≡ true) ⊎ (k ≤ upto) }
    {
        self.minimal.slots_above(x, floor, marking, &mut self.found);
        put_down(&self.list, &self.found, upto, &mut self.agenda);
    }

    /// Takes the least place off the agenda, and answers it; None exactly where it has none.
    pub fn take_next(&mut self) -> Option<u32>
        ensures stays { self.new ≡ record self.old { agenda = self.new.agenda } }
        ensures here { IfSome result (λ k. has_place self.old.agenda k ≡ true) }
        ensures least { IfSome result (λ k. (m : ℕ) → m < k → has_place self.old.agenda m ≡ false) }
        ensures gone { IfSome result (λ k. has_place self.new.agenda k ≡ false) }
        ensures others { IfSome result (λ k. (m : ℕ) → (m ≡ k → ⊥) → has_place self.new.agenda m ≡ has_place self.old.agenda m) }
        ensures none { IfNone result ((m : ℕ) → has_place self.old.agenda m ≡ false) }
    {
        self.agenda.take_first()
    }

    /// Takes all places off the agenda.
    pub fn clear_agenda(&mut self)
        ensures stays { self.new ≡ record self.old { agenda = self.new.agenda } }
        ensures none { (k : ℕ) → has_place self.new.agenda k ≡ false }
    {
        self.agenda.clear();
    }

    /// The id under which the pool keeps the entry at a place. A later entry has an id of a greater birth.
    pub fn slot(&self, k: u32) -> SlotId
        requires { k < length self.now.entries }
        ensures slot { slice_get self.now.ids k ≡ Some result }
        ensures ascending { (j : ℕ) (jd : SlotId) → k < j → slice_get self.now.ids j ≡ Some jd → result.birth < jd.birth }
        ensures born { result.birth < self.now.births }
    {
        self.list.id(k as usize)
    }

    /// The place of the entry that has this id, if one has.
    pub fn place(&self, id: SlotId) -> Option<u32>
        ensures place { IfSome result (λ k. slice_get self.now.ids k ≡ Some id) }
        ensures none { IfNone result (¬ HasId self.now.ids id) }
    {
        self.list.place(id)
    }

    /// Whether some entry has this id. The id of an entry that was taken out is given to no entry again.
    pub fn holds(&self, id: SlotId) -> bool
        ensures holds { IsTrue result ↔ HasId self.now.ids id }
    {
        self.place(id).is_some()
    }

    /// The pool, which holds each entry under its id, with its premises named by their slots, and nothing else.
    pub fn pool(&self) -> &Pool<Entry>
        ensures births { result.now.births ≡ self.now.births }
        ensures held { AreStored result.now.slots self.now.entries self.now.ids }
        ensures exactly { (s : ℕ) (e : ℕ × Entry) → slice_index_or result.now.slots s None ≡ Some e → (k : ℕ) × IsIdAt self.now.ids s e.0 k }
    {
        self.list.pool()
    }

    /// The minimal set, which holds exactly the bounds of the live entries, each under its id.
    pub fn minimal(&self) -> &MinSet
        ensures nodes { result.now.nodes ≡ self.now.nodes }
        ensures live { (k : ℕ) (id : SlotId) (e : Entry) → slice_get self.now.ids k ≡ Some id → slice_get self.now.entries k ≡ Some e
            → IsLive self.now.entries k → IsPlaced result.now.table id.slot (id.birth, e.bound) }
        ensures exactly { (s : ℕ) (b : ℕ × Bound) → IsPlaced result.now.table s b
            → (k : ℕ) × (e : Entry) × IsIdAt self.now.ids s b.0 k × (slice_get self.now.entries k ≡ Some e) × IsLive self.now.entries k × (e.bound ≡ b.1) }
    {
        &self.minimal
    }
}

// The base bound of a time-point.
fn base_entry(node: NodeId) -> Entry
    ensures bound { the_bound result.bound ≡ base node.0 }
    ensures why { result.why ≡ Why.Base }
{
    Entry {
        bound: Bound {
            node,
            least: 0,
            label: Label::empty(),
        },
        why: Why::Base,
    }
}
