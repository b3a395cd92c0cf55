ghost use Rattle.std.specs.Prelude.{ℕ, ◌≡◌, ◌<◌, ◌≤◌, ◌↔◌, length, Err, true, false, IsSome, IsNone, IfOk, IfNone, IfSome, MatchOption};
ghost use Rattle.cstn_label.specs.Labels.{Scenario};
ghost use Rattle.cstn_net.specs.Networks.{count};
ghost use Rattle.cstn_net.specs.Strategies.{IsConsistent, IsStrategy, IsLeast};
ghost use Rattle.cstn_net.specs.Read.{the_network};
ghost use Rattle.cstn_table.specs.declared.errors.TableError.TheVariants.{TooManyProps};
ghost use Rattle.cstn_table.specs.Tables.{observed_props};
ghost use Rattle.cstn_table.specs.Read.{the_table};
ghost use Rattle.cstn_table.specs.Raises.{AreObserved, IsLow, IsWalk, IsSettled, HasLeastRows};

use crate::errors::TableError;
use crate::pairs::raise_by_scenarios;
use crate::raises::raise_by_constraints;
use crate::rows::{count_props, props_of, rows_of};
use crate::tables::Table;
use cstn_label::Prop;
use cstn_net::{Network, dynamic_is_one_sided};
use std::alloc::{AllocError, Global};

const MOST_PROPS: usize = 8;

/// Decides a network of at most 8 observed propositions, and refuses one of more. The answer is none where the network has no
/// strategy, and else the strategy in which every time-point is at its least moment in every scenario. A table takes four
/// bytes for each moment.
pub fn decide(alloc: Global, net: &Network) -> Result<Option<Table>, TableError>
    ensures many { (result ≡ Err TooManyProps) ↔ (8 < length (observed_props (the_network net.now).observes)) }
    ensures none { IfOk result (λ o. IsNone o ↔ (IsConsistent (the_network net.now) → ⊥)) }
    ensures some { IfOk result (λ o. IsSome o ↔ IsConsistent (the_network net.now)) }
    ensures count { IfOk result (λ o. IfSome o (λ t. t.points ≡ count (the_network net.now))) }
    ensures strategy { IfOk result (λ o. IfSome o (λ t. IsStrategy (the_network net.now) (the_table t))) }
    ensures least { IfOk result (λ o. IfSome o
        (λ t. (s : Scenario) (x : ℕ) → x < count (the_network net.now) → IsLeast (the_network net.now) s x (the_table t s x))) }
{
    if count_props(net) > MOST_PROPS {
        return Err(TableError::TooManyProps);
    }
    match least_table(alloc, net) {
        Ok(table) => Ok(table),
        Err(e) => Err(TableError::Memory(e)),
    }
}

fn least_table(alloc: Global, net: &Network) -> Result<Option<Table>, AllocError>
    requires few { length (observed_props (the_network net.now).observes) ≤ 8 }
    ensures { IfOk result (λ o. MatchOption o (IsConsistent (the_network net.now) → ⊥) (HasLeastRows (the_network net.now))) }
{
    dynamic_is_one_sided();
    let props = props_of(alloc, net)?;
    let mut moments = zeros(alloc, net, &props)?;
    if settle(net, &props, &mut moments) {
        Ok(Some(Table::new(props, net.count(), moments)))
    } else {
        Ok(None)
    }
}

// The moments of a table in which every time-point is at 0 in every scenario.
fn zeros(alloc: Global, net: &Network, props: &[Prop]) -> Result<Vec<u32>, AllocError>
    requires props { AreObserved (the_network net.now) props.now }
    ensures { IfOk result (λ v. IsLow (the_network net.now) v.items) }
{
    vec![in alloc; 0; rows_of(props) * net.count() as usize]
}

// Raises moments until no constraint and no pair of scenarios raises one; false where one would pass its limit.
fn settle(net: &Network, props: &[Prop], moments: &mut [u32]) -> bool
    requires props { AreObserved (the_network net.now) props.now }
    requires low { IsLow (the_network net.now) moments.old }
    ensures no { result ≡ false → IsConsistent (the_network net.now) → ⊥ }
    ensures low { result ≡ true → IsLow (the_network net.now) moments.new }
    ensures settled { result ≡ true → IsSettled (the_network net.now) moments.new }
{
    loop {
        match raise_all(net, props, moments) {
            None => return false,
            Some(false) => return true,
            Some(true) => {}
        }
    }
}

// Raises moments by every constraint and every pair of scenarios, and answers whether any was raised; none where one would
// pass its limit.
fn raise_all(net: &Network, props: &[Prop], moments: &mut [u32]) -> Option<bool>
    requires props { AreObserved (the_network net.now) props.now }
    requires low { IsLow (the_network net.now) moments.old }
    ensures none { IfNone result (IsConsistent (the_network net.now) → ⊥) }
    ensures some { IfSome result (IsWalk (the_network net.now) (IsSettled (the_network net.now)) moments.old moments.new) }
{
    let by_constraints = raise_by_constraints(net, props, moments)?;
    let by_scenarios = raise_by_scenarios(net, props, moments)?;
    Some(by_constraints || by_scenarios)
}
