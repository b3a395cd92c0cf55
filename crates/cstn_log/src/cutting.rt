// Marks the entries of a list that are to be kept, and cuts the list to the marked ones.
ghost use Rattle.std.specs.Prelude.{◌≡◌, ◌<◌, ◌≤◌, ◌^◌, [], length, take, vec_capacity};
ghost use Rattle.cstn_log.specs.Entries.{the_entries};
ghost use Rattle.cstn_log.specs.Cuts.{PremisesBelow, rank, with_premises, with_ancestors, stays, marked_staying, cut};

use crate::list::{EntryList, placed};
use cstn_rules::{Entry, Why};

// Marks the ancestors of the marked entries, among the first ones, which the marks are of.
pub fn mark_ancestors(list: &EntryList, marks: &mut [bool])
    requires size { length marks.old ≤ length list.now.entries }
    ensures marked { marks.new ≡ with_ancestors (the_entries list.now.entries) (length marks.old) marks.old }
    ensures size { length marks.new ≡ length marks.old }
{
    let mut k = marks.len();
    while 0 < k {
        k -= 1;
        if marks[k] {
            mark_premises(list.entry(k).why, marks);
        }
    }
}

// Marks the premises of a rule.
fn mark_premises(why: Why, marks: &mut [bool])
    requires { PremisesBelow (length marks.old) why }
    ensures { marks.new ≡ with_premises why marks.old }
{
    match why {
        Why::Base => {}
        Why::Chain { premise, .. } => marks[premise as usize] = true,
        Why::Wait { seen, premise } => {
            marks[seen as usize] = true;
            marks[premise as usize] = true;
        }
    }
}

// Marks the entries that a constraint didn't give, and that have no ancestor that it gave.
pub fn mark_staying(list: &EntryList, constraint: u32, marks: &mut Vec<bool>)
    requires empty { marks.old.items ≡ [] }
    requires room { length list.now.entries ≤ vec_capacity marks.old }
    ensures marked { marks.new.items ≡ marked_staying constraint [] (the_entries list.now.entries) }
    ensures size { length marks.new.items ≡ length list.now.entries }
    ensures room { vec_capacity marks.old ≤ vec_capacity marks.new }
{
    for k in 0..list.len() {
        let stays = is_staying(list.entry(k).why, constraint, marks);
        marks.push(stays).unwrap();
    }
}

// Whether an entry stays when those that a constraint gave are taken out. `why` is its rule, and `marks` says which of the
// entries before it stay.
fn is_staying(why: Why, constraint: u32, marks: &[bool]) -> bool
    requires { PremisesBelow (length marks.now) why }
    ensures { result ≡ stays constraint marks.now why }
{
    match why {
        Why::Base => true,
        Why::Chain {
            constraint: by,
            premise,
        } => by != constraint && marks[premise as usize],
        Why::Wait { seen, premise } => marks[seen as usize] && marks[premise as usize],
    }
}

// Appends the marked entries to `steps`, with their premises at the new places. The marks are of the first entries.
pub fn cut(list: &EntryList, marks: &[bool], places: &mut Vec<u32>, steps: &mut Vec<Entry>)
    requires size { length marks.now ≤ length list.now.entries }
    requires few { length marks.now < 2 ^ 32 }
    requires empty { (places.old.items ≡ []) × (steps.old.items ≡ []) }
    requires room { (length marks.now ≤ vec_capacity places.old) × (rank marks.now (length marks.now) ≤ vec_capacity steps.old) }
    ensures cut { the_entries steps.new.items ≡ cut marks.now (the_entries (take (length marks.now) list.now.entries)) }
{
    for k in 0..marks.len() {
        places.push(steps.len() as u32).unwrap();
        if marks[k] {
            steps.push(placed(list.entry(k), places)).unwrap();
        }
    }
}

// How many places are marked.
pub fn count_marked(marks: &[bool]) -> usize
    ensures { result ≡ rank marks.now (length marks.now) }
{
    let mut count = 0;
    for k in 0..marks.len() {
        if marks[k] {
            count += 1;
        }
    }
    count
}
