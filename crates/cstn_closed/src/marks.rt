// The bounds of a list by the propositions that they mark.
ghost use Rattle.std.specs.Prelude.{◌≡◌, ◌<◌, ◌^◌, length, map, IfOk};
ghost use Rattle.cstn_label.specs.Read.{the_bound, marks};
ghost use Rattle.cstn_label.specs.Marks.{is_marked};
ghost use Rattle.cstn_closed.specs.Marking.{items, marking, markings};

use cstn_label::{Bound, Mark, Prop};
use std::alloc::{AllocError, Global};

// For each proposition the places of the bounds that mark it, in ascending order.
#[derive(Debug, Drop)]
pub(crate) struct Marking {
    pub lists: Vec<Vec<u32>>,
}

impl Marking {
    // The places of these bounds, by the propositions that they mark.
    pub fn of(alloc: Global, bounds: &[Bound]) -> Result<Marking, AllocError>
        requires few { length bounds.now < 2 ^ 32 }
        ensures lists { IfOk result (λ m. map items m.lists.items ≡ markings (map the_bound bounds.now)) }
    {
        let mut lists = Vec::with_capacity(alloc, Prop::COUNT as usize)?;
        for index in 0..Prop::COUNT {
            let places = places_marking(alloc, bounds, Prop { index })?;
            lists.push(places)?;
        }
        Ok(Marking { lists })
    }
}

// The places of the bounds that mark p.
fn places_marking(alloc: Global, bounds: &[Bound], p: Prop) -> Result<Vec<u32>, AllocError>
    requires few { length bounds.now < 2 ^ 32 }
    ensures places { IfOk result (λ places. places.items ≡ marking p.index (map the_bound bounds.now)) }
{
    let mut places = Vec::new(alloc);
    for (place, b) in bounds.iter().enumerate() {
        if is_marked(b, p) {
            places.push(place as u32)?;
        }
    }
    Ok(places)
}

// Whether the bound marks p.
fn is_marked(b: &Bound, p: Prop) -> bool
    ensures marked { result ≡ is_marked (marks b.now.label p.index) }
{
    match b.label.mark(p) {
        Mark::Absent => false,
        Mark::Yes | Mark::No | Mark::Unknown => true,
    }
}
