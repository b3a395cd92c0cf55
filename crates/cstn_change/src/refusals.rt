// Why changes are refused.
ghost use Rattle.std.specs.Prelude.{ℕ, ℤ, false, ◌≡◌, ◌≢◌, ◌<◌, ◌≤◌, ◌↔◌, length, Some, IfNone};
ghost use Rattle.std.specs.List.{All};
ghost use Rattle.std.specs.Option.{option_map};
ghost use Rattle.cstn_label.specs.declared.props.Prop.{Prop as DeclaredProp};
ghost use Rattle.cstn_label.specs.Labels.{IsPlain};
ghost use Rattle.cstn_label.specs.Read.{marks};
ghost use Rattle.cstn_net.specs.Limits.{most_edits};
ghost use Rattle.cstn_net.specs.Networks.{IsValue, IsLeastUnobserved};
ghost use Rattle.cstn_net.specs.Read.{the_network};
ghost use Rattle.cstn_change.specs.Changes.{adds, removes, revalues, refusal, has_constraint, CanAdd, CanChange};
ghost use Rattle.cstn_change.specs.Read.{the_change, the_change_refusal};

use crate::changes::Change;
use crate::errors::EditError;
use cstn_label::{Label, labels_are_their_marks};
use cstn_net::{MAX_EDITS, Network, is_value};

/// The first reason for which a change of the network is refused, where `edits` changes were accepted before and there may be
/// `room` constraints; none where it can be made.
pub fn refusal(net: &Network, edits: u32, room: u32, change: Change) -> Option<EditError>
    ensures refusal { (fresh : ℕ) → option_map the_change_refusal result
        ≡ refusal room (record { net = the_network net.now; fresh = fresh; edits = edits }) (the_change change) }
    ensures below { IfNone result (edits < most_edits) }
    ensures possible { IfNone result (CanChange room (the_network net.now) (the_change change)) }
{
    match change {
        Change::Add { most, label, .. } => add_refusal(net, edits, room, most, label),
        Change::Remove { id } => remove_refusal(net, edits, id),
        Change::Revalue { id, most } => revalue_refusal(net, edits, id, most),
    }
}

/// Why a constraint with this value and label can't be added.
pub fn add_refusal(
    net: &Network,
    edits: u32,
    room: u32,
    most: i32,
    label: Label,
) -> Option<EditError>
    ensures limit { (result ≡ Some EditError.EditLimit) ↔ (most_edits ≤ edits) }
    ensures no_room { (n : ℕ) → ((result ≡ Some (EditError.NoRoom n)) ↔ ((edits < most_edits) × (room ≤ length net.now.constraints) × (n ≡ room))) }
    ensures value { (v : ℤ) → ((result ≡ Some (EditError.ValueRange v))
        ↔ ((edits < most_edits) × (length net.now.constraints < room) × (IsValue most → ⊥) × (v ≡ most))) }
    ensures plain { (result ≡ Some EditError.NotPlain)
        ↔ ((edits < most_edits) × (length net.now.constraints < room) × IsValue most × (IsPlain (marks label) → ⊥)) }
    ensures observed { (p : DeclaredProp) → ((result ≡ Some (EditError.NotObserved p))
        ↔ ((edits < most_edits) × (length net.now.constraints < room) × IsValue most × IsPlain (marks label)
        × IsLeastUnobserved (the_network net.now) (marks label) p.index)) }
    ensures refusal { (fresh x y : ℕ) → option_map the_change_refusal result
        ≡ refusal room (record { net = the_network net.now; fresh = fresh; edits = edits }) (adds x y most (marks label)) }
    ensures below { IfNone result (edits < most_edits) }
    ensures possible { IfNone result (CanAdd room (the_network net.now) most (marks label)) }
{
    labels_are_their_marks();
    if edits >= MAX_EDITS {
        return Some(EditError::EditLimit);
    }
    if net.constraints().len() as u32 >= room {
        return Some(EditError::NoRoom { room });
    }
    if !is_value(most) {
        return Some(EditError::ValueRange { most });
    }
    if !label.is_plain() {
        return Some(EditError::NotPlain);
    }
    match net.unobserved(label) {
        Some(prop) => Some(EditError::NotObserved { prop }),
        None => None,
    }
}

/// Why the constraint with this id can't be removed.
pub fn remove_refusal(net: &Network, edits: u32, id: u32) -> Option<EditError>
    ensures limit { (result ≡ Some EditError.EditLimit) ↔ (most_edits ≤ edits) }
    ensures none { (other : ℕ) → ((result ≡ Some (EditError.NoSuch other))
        ↔ ((edits < most_edits) × All (λ c. c.id ≢ id) net.now.constraints × (other ≡ id))) }
    ensures refusal { (room fresh : ℕ) → option_map the_change_refusal result
        ≡ refusal room (record { net = the_network net.now; fresh = fresh; edits = edits }) (removes id) }
    ensures below { IfNone result (edits < most_edits) }
    ensures present { IfNone result (All (λ c. c.id ≢ id) net.now.constraints → ⊥) }
{
    if edits >= MAX_EDITS {
        return Some(EditError::EditLimit);
    }
    if !has_constraint(net, id) {
        return Some(EditError::NoSuch { id });
    }
    None
}

/// Why the constraint with this id can't get this value.
pub fn revalue_refusal(net: &Network, edits: u32, id: u32, most: i32) -> Option<EditError>
    ensures limit { (result ≡ Some EditError.EditLimit) ↔ (most_edits ≤ edits) }
    ensures none { (other : ℕ) → ((result ≡ Some (EditError.NoSuch other))
        ↔ ((edits < most_edits) × All (λ c. c.id ≢ id) net.now.constraints × (other ≡ id))) }
    ensures value { (v : ℤ) → ((result ≡ Some (EditError.ValueRange v))
        ↔ ((edits < most_edits) × (All (λ c. c.id ≢ id) net.now.constraints → ⊥) × (IsValue most → ⊥) × (v ≡ most))) }
    ensures refusal { (room fresh : ℕ) → option_map the_change_refusal result
        ≡ refusal room (record { net = the_network net.now; fresh = fresh; edits = edits }) (revalues id most) }
    ensures below { IfNone result (edits < most_edits) }
    ensures possible { IfNone result (IsValue most) }
{
    if edits >= MAX_EDITS {
        return Some(EditError::EditLimit);
    }
    if !has_constraint(net, id) {
        return Some(EditError::NoSuch { id });
    }
    if !is_value(most) {
        return Some(EditError::ValueRange { most });
    }
    None
}

// Whether some constraint has the id.
fn has_constraint(net: &Network, id: u32) -> bool
    ensures absent { (result ≡ false) ↔ All (λ c. c.id ≢ id) net.now.constraints }
    ensures by_definition { result ≡ has_constraint (the_network net.now) id }
{
    net.place_of(id).is_some()
}
