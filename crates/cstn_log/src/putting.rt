// Empties the list and the minimal set of a log, and fills the set with the bounds of the entries that are left.
ghost use Rattle.std.specs.Prelude.{ℕ, ◌≡◌, ◌⊎◌, ◌<◌, ◌≤◌, ◌*◌, true, [], List, Option, Some, length, slice_get, slice_index_or, None};
ghost use Rattle.cstn_rules.specs.declared.entries.Entry.{Entry as TheEntry};
ghost use Rattle.cstn_log.specs.Entries.{AllNew};
ghost use Rattle.cstn_log.specs.Kept.{IsIdAt, IsLogKept, IsPooled, IsTabled};
ghost use Rattle.cstn_log.specs.Agendas.{has_place};
ghost use Rattle.std.specs.List.{All, Contains};

use crate::agenda::Agenda;
use crate::list::EntryList;
use cstn_label::domination_is_an_order;
use cstn_minset::MinSet;

// Takes every entry out.
pub fn clear(minimal: &mut MinSet, list: &mut EntryList)
    requires { length minimal.old.table ≡ length list.old.pool.slots }
    ensures kept { IsLogKept list.new.pool.slots list.new.pool.births minimal.new.table list.new.entries list.new.ids minimal.new.nodes }
    ensures empty { list.new ≡ record list.old { entries = []; ids = []; pool = list.new.pool } }
    ensures births { list.new.pool.births ≡ list.old.pool.births }
    ensures size { (length list.new.pool.slots ≡ length list.old.pool.slots) × (minimal.new.nodes ≡ minimal.old.nodes) }
{
    minimal.clear();
    list.clear();
}

// Places the bound of each entry in the empty set, under its id.
pub fn place_all(minimal: &mut MinSet, list: &EntryList)
    requires empty { (s : ℕ) → slice_index_or minimal.old.table s None ≡ None }
    requires pooled { (slots : List (Option (ℕ × TheEntry))) × (births : ℕ) × IsPooled slots births list.now.entries list.now.ids
        × (length slots ≡ length minimal.old.table) }
    requires new { AllNew list.now.entries }
    requires nodes { (k : ℕ) (e : TheEntry) → slice_get list.now.entries k ≡ Some e → e.bound.node.0 < minimal.old.nodes }
    ensures tabled { IsTabled minimal.new.table list.now.entries list.now.ids }
    ensures size { (length minimal.new.table ≡ length minimal.old.table) × (minimal.new.nodes ≡ minimal.old.nodes) }
{
    domination_is_an_order();
    for k in 0..list.len() {
        minimal.place(&list.bound(k), list.id(k));
    }
}

// Puts on the agenda the places up to `upto` of the entries in some slots.
pub fn put_down(list: &EntryList, slots: &[u32], upto: u32, agenda: &mut Agenda)
    requires held { All (λ s. (birth k : ℕ) × IsIdAt list.now.ids s birth k) slots.now }
    requires room { upto < 4096 * length agenda.old }
    ensures kept { (k : ℕ) → has_place agenda.old k ≡ true → has_place agenda.new k ≡ true }
    ensures added { (s birth k : ℕ) → Contains slots.now s → IsIdAt list.now.ids s birth k → k ≤ upto → has_place agenda.new k ≡ true }
    ensures upto { (k : ℕ) → has_place agenda.new k ≡ true → (has_place agenda.old k ≡ true) ⊎ (k ≤ upto) }
    ensures size { length agenda.new ≡ length agenda.old }
{
    for at in 0..slots.len() {
        let place = list.place_in(slots[at]);
        if place <= upto {
            agenda.insert(place);
        }
    }
}
