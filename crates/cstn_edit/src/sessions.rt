ghost use Rattle.std.specs.Prelude.{ℕ, ℤ, true, false, ◌≡◌, ◌≢◌, ◌<◌, ◌≤◌, ◌+◌, ◌-◌, ◌^◌, ◌++◌, ◌∷◌, [], ◌↔◌, List, length, map, Some, None, IfOk, OnErr};
ghost use Rattle.std.specs.Prelude.{IsOk, IsErrOf};
ghost use Rattle.std.specs.List.{All};
ghost use Rattle.cstn_label.specs.declared.props.Prop.{Prop as DeclaredProp};
ghost use Rattle.cstn_label.specs.Labels.{IsPlain};
ghost use Rattle.cstn_label.specs.Read.{marks};
ghost use Rattle.cstn_net.specs.Limits.{most_constraints, most_edits};
ghost use Rattle.cstn_net.specs.Networks.{IsValue, IsWellFormed, count, IsLeastUnobserved};
ghost use Rattle.cstn_net.specs.Strategies.{IsConsistent};
ghost use Rattle.cstn_net.specs.Read.{the_network, without_id, with_most};
ghost use Rattle.cstn_rules.specs.Derivations.{Entry, IsDerivation, IsRefutation};
ghost use Rattle.cstn_log.specs.Entries.{bases, the_entries};
ghost use Rattle.cstn_log.specs.Cuts.{chosen, dropped, marked_staying, last_with_ancestors};
ghost use Rattle.cstn_check.specs.declared.verdicts.Verdict.{Verdict};
ghost use Rattle.cstn_check.specs.Growth.{grow, load_of};
ghost use Rattle.cstn_refute.specs.Refutations.{FitsText, the_steps};
ghost use Rattle.cstn_check.specs.Spent.{most_tries};
ghost use Rattle.cstn_check.specs.Turns.{KeepIds};
ghost use Rattle.cstn_edit.specs.Fresh.{fresh_with, constraint_ids};
ghost use Rattle.cstn_change.specs.Changes.{adds, removes, revalues, id_above, refusal};
ghost use Rattle.cstn_change.specs.Read.{change_refusal};
ghost use Rattle.cstn_change.specs.declared.errors.EditError.{EditError};
ghost use Rattle.cstn_edit.specs.Sessions.{kept_of, kept_after, new_outcome};
ghost use Rattle.cstn_edit.specs.Edits.{the_session, edited_of, begun_session, with_change, outcome_at, with_verdict};

use crate::answers::answer;
use crate::cuts::forget;
use crate::fresh::is_yes;
use crate::outcomes::Outcome;
use cstn_change::{EditError, add_refusal, id_above, remove_refusal, revalue_refusal};
use cstn_label::{Label, NodeId};
use cstn_log::{Cap, Log};
use cstn_net::{Constraint, Network, network_is_well_formed};
use cstn_refute::Refutation;
use cstn_rules::{Tries, derivations_move};
use std::alloc::{AllocError, Global};
use std::marker::Model;

/// A network that is edited, with the list of bounds that is kept between its verdicts.
///
/// After a yes, as long as no entry of the list was taken out, a verdict tries only rules that use a new entry or a
/// constraint that was added or changed since. [`Session::start`] takes all memory, except that of the refutations which
/// [`Session::refutation`] hands out.
#[derive(Drop)]
pub struct Session {
    net: Network,
    log: Log,
    tries: Tries,
    room: u32,
    edits: u32,
    next: u32,
    last: Option<Outcome>,
    // The ids of the constraints that were added or changed since the last verdict, and a vector to pick the next ones into.
    fresh: Vec<u32>,
    list: Vec<u32>,
    // Whether the last verdict was yes, and no entry of the log was taken out since.
    settled: bool,
}

impl Model for Session {
    ghost use Rattle.std.specs.Prelude.{vec_capacity};
    ghost use Rattle.cstn_edit.specs.Fresh.{IsFreshened};
    ghost use Rattle.cstn_edit.specs.Sessions.{EditSessionParts, IsEditSession};

    ghost Value = { EditSessionParts };

    ghost view = { λ s. record {
      net = s.net;
      entries = s.log.entries;
      ids = s.log.ids;
      cap = s.log.cap;
      room = s.room;
      edits = s.edits;
      next = s.next;
      last = s.last;
      tries = s.tries.count;
      fresh = s.fresh.items;
      settled = s.settled;
    } };

    ghost invariant = { λ s. IsEditSession s.net s.log s.room s.edits s.next s.last
        × IsFreshened s.net s.log s.room s.fresh.items s.settled (vec_capacity s.fresh) (vec_capacity s.list) };
}

impl Session {
    /// A session on the network, whose list may have up to `cap` entries and which may have up to `room` constraints. Fails
    /// for want of memory alone, and drops the network then.
    pub fn start(alloc: Global, net: Network, cap: Cap, room: u32) -> Result<Session, AllocError>
        requires room { length net.constraints ≤ room }
        requires most_room { room ≤ most_constraints }
        requires ids { All (λ c. c.id < 2 ^ 31) net.constraints }
        ensures network { IfOk result (λ s. (s.net.deadline ≡ net.deadline) × (s.net.points ≡ net.points) × (s.net.constraints ≡ net.constraints)) }
        ensures size { IfOk result (λ s. (s.cap ≡ cap.entries) × (s.room ≡ room)) }
        ensures kept { IfOk result (λ s. kept_of s ≡ bases (count (the_network net))) }
        ensures edits { IfOk result (λ s. s.edits ≡ 0) }
        ensures tries { IfOk result (λ s. s.tries ≡ 0) }
        ensures next { IfOk result (λ s. s.next ≡ id_above (the_network net).constraints) }
        ensures last { IfOk result (λ s. s.last ≡ None) }
        ensures fresh { IfOk result (λ s. (s.fresh ≡ []) × (s.settled ≡ false)) }
        ensures session { IfOk result (λ s. the_session s ≡ begun_session (the_network net)) }
    {
        let mut net = net;
        net.reserve(room)?;
        let log = Log::start(alloc, &net, cap)?;
        let next = id_above(&net);
        let fresh = Vec::with_capacity(alloc, room as usize)?;
        let list = Vec::with_capacity(alloc, room as usize)?;
        Ok(Session {
            net,
            log,
            tries: Tries { count: 0 },
            room,
            edits: 0,
            next,
            last: None,
            fresh,
            list,
            settled: false,
        })
    }

    /// Adds a constraint, by which `to` is at most `most` ticks after `from` where the label holds, and returns its id: one
    /// above the highest ever used, or 0. The kept list stays. Refuses for each reason but [`EditError::NoSuch`], and then
    /// changes nothing.
    pub fn add(
        &mut self,
        from: NodeId,
        to: NodeId,
        most: i32,
        label: Label,
    ) -> Result<u32, EditError>
        requires from { from.0 < count (the_network self.old.net) }
        requires to { to.0 < count (the_network self.old.net) }
        ensures limit { IsErrOf result EditError.EditLimit ↔ (self.old.edits ≡ most_edits) }
        ensures no_room { (room : ℕ) → (IsErrOf result (EditError.NoRoom room)
            ↔ ((self.old.edits < most_edits) × (length self.old.net.constraints ≡ self.old.room) × (room ≡ self.old.room))) }
        ensures value { (v : ℤ) → (IsErrOf result (EditError.ValueRange v)
            ↔ ((self.old.edits < most_edits) × (length self.old.net.constraints < self.old.room) × (IsValue most → ⊥) × (v ≡ most))) }
        ensures plain { IsErrOf result EditError.NotPlain
            ↔ ((self.old.edits < most_edits) × (length self.old.net.constraints < self.old.room) × IsValue most × (IsPlain (marks label) → ⊥)) }
        ensures observed { (p : DeclaredProp)
            → (IsErrOf result (EditError.NotObserved p)
            ↔ ((self.old.edits < most_edits) × (length self.old.net.constraints < self.old.room) × IsValue most × IsPlain (marks label)
            × IsLeastUnobserved (the_network self.old.net) (marks label) p.index)) }
        ensures refusal { change_refusal result ≡ refusal self.old.room (edited_of (the_session self.old)) (adds from.0 to.0 most (marks label)) }
        ensures id { IfOk result (λ id. id ≡ self.old.next) }
        ensures added { IfOk result (λ id. self.new
            ≡ record self.old {
              net = record self.old.net {
                constraints = self.old.net.constraints
                    ++ record { id = id; from = from; to = to; most = most; label = label } ∷ [];
                spare = self.old.net.spare - 1;
              };
              edits = self.old.edits + 1;
              next = self.old.next + 1;
              last = None;
              fresh = self.old.fresh ++ id ∷ [];
            }) }
        ensures session { IsOk result → the_session self.new ≡ with_change (the_session self.old) (adds from.0 to.0 most (marks label)) }
        ensures refused { OnErr result (self.new ≡ self.old) }
    {
        derivations_move();
        if let Some(error) = add_refusal(&self.net, self.edits, self.room, most, label) {
            return Err(error);
        }
        let id = self.next;
        self.net.insert(Constraint {
            id,
            from,
            to,
            most,
            label,
        });
        self.fresh.push(id).unwrap();
        self.next += 1;
        self.edits += 1;
        self.last = None;
        Ok(id)
    }

    /// Takes the constraint with this id out of the network, and the entries that it gave and those that descend from them
    /// out of the kept list, whose others keep their ids. Refuses past the limit of edits and where no constraint has the id, and then changes nothing.
    pub fn remove(&mut self, id: u32) -> Result<(), EditError>
        ensures limit { IsErrOf result EditError.EditLimit ↔ (self.old.edits ≡ most_edits) }
        ensures none { (other : ℕ) → (IsErrOf result (EditError.NoSuch other)
            ↔ ((self.old.edits < most_edits) × All (λ c. c.id ≢ id) self.old.net.constraints × (other ≡ id))) }
        ensures refusal { change_refusal result ≡ refusal self.old.room (edited_of (the_session self.old)) (removes id) }
        ensures removed { IsOk result → self.new
            ≡ record self.old {
              net = record self.old.net { constraints = without_id id self.old.net.constraints; spare = self.old.net.spare + 1 };
              entries = self.new.entries;
              ids = self.new.ids;
              edits = self.old.edits + 1;
              last = None;
              fresh = fresh_with id self.old.fresh (constraint_ids self.new.net.constraints);
              settled = self.new.settled;
            } }
        ensures kept { IsOk result → kept_of self.new ≡ dropped (kept_of self.old) id }
        ensures ids { IsOk result → self.new.ids ≡ chosen (marked_staying id [] (the_entries self.old.entries)) self.old.ids }
        ensures settled { IsOk result → ((self.new.settled ≡ true) ↔ ((self.old.settled ≡ true) × (self.new.entries ≡ self.old.entries))) }
        ensures session { IsOk result → the_session self.new ≡ with_change (the_session self.old) (removes id) }
        ensures refused { OnErr result (self.new ≡ self.old) }
    {
        network_is_well_formed(&self.net);
        if let Some(error) = remove_refusal(&self.net, self.edits, id) {
            return Err(error);
        }
        self.net.take_out(id);
        self.settled = forget(
            &self.net,
            &mut self.log,
            &mut self.fresh,
            &mut self.list,
            self.settled,
            id,
        );
        self.edits += 1;
        self.last = None;
        Ok(())
    }

    /// Gives the constraint with this id the value `most`, in ticks, and takes the entries that it gave and those that
    /// descend from them out of the kept list. Refuses past the limit of edits, where no constraint has the id, and where the
    /// value is out of range, and then changes nothing.
    pub fn change(&mut self, id: u32, most: i32) -> Result<(), EditError>
        ensures limit { IsErrOf result EditError.EditLimit ↔ (self.old.edits ≡ most_edits) }
        ensures none { (other : ℕ) → (IsErrOf result (EditError.NoSuch other)
            ↔ ((self.old.edits < most_edits) × All (λ c. c.id ≢ id) self.old.net.constraints × (other ≡ id))) }
        ensures value { (v : ℤ) → (IsErrOf result (EditError.ValueRange v)
            ↔ ((self.old.edits < most_edits) × (All (λ c. c.id ≢ id) self.old.net.constraints → ⊥) × (IsValue most → ⊥) × (v ≡ most))) }
        ensures refusal { change_refusal result ≡ refusal self.old.room (edited_of (the_session self.old)) (revalues id most) }
        ensures changed { IsOk result → self.new
            ≡ record self.old {
              net = record self.old.net { constraints = map (with_most id most) self.old.net.constraints };
              entries = self.new.entries;
              ids = self.new.ids;
              edits = self.old.edits + 1;
              last = None;
              fresh = fresh_with id self.old.fresh (constraint_ids self.new.net.constraints);
              settled = self.new.settled;
            } }
        ensures kept { IsOk result → kept_of self.new ≡ dropped (kept_of self.old) id }
        ensures ids { IsOk result → self.new.ids ≡ chosen (marked_staying id [] (the_entries self.old.entries)) self.old.ids }
        ensures settled { IsOk result → ((self.new.settled ≡ true) ↔ ((self.old.settled ≡ true) × (self.new.entries ≡ self.old.entries))) }
        ensures session { IsOk result → the_session self.new ≡ with_change (the_session self.old) (revalues id most) }
        ensures refused { OnErr result (self.new ≡ self.old) }
    {
        if let Some(error) = revalue_refusal(&self.net, self.edits, id, most) {
            return Err(error);
        }
        self.net.set_most(id, most);
        self.settled = forget(
            &self.net,
            &mut self.log,
            &mut self.fresh,
            &mut self.list,
            self.settled,
            id,
        );
        self.edits += 1;
        self.last = None;
        Ok(())
    }

    /// The verdict of the network as edited. The kept list is grown for it, or the log of the network afresh where that list
    /// gets longer than the cap. The outcome stands until the next accepted edit.
    pub fn verdict(&mut self) -> Outcome
        ensures outcome { self.old.last ≡ None → result ≡ new_outcome (the_network self.old.net) self.old.cap (kept_of self.old) }
        ensures kept { self.old.last ≡ None → kept_of self.new ≡ kept_after (the_network self.old.net) self.old.cap (kept_of self.old) }
        ensures same { self.new ≡ record self.old {
          entries = self.new.entries;
          ids = self.new.ids;
          last = Some result;
          tries = self.new.tries;
          fresh = self.new.fresh;
          settled = self.new.settled;
        } }
        ensures fresh { self.old.last ≡ None → self.new.fresh ≡ [] }
        ensures settled { self.old.last ≡ None → ((self.new.settled ≡ true) ↔ ((load : ℕ) × (result.verdict ≡ Verdict.Yes load))) }
        ensures by_definition { result ≡ outcome_at self.old.cap (the_session self.old) }
        ensures session { the_session self.new ≡ with_verdict self.old.cap (the_session self.old) }
        ensures again { (o : Outcome) → self.old.last ≡ Some o → (result ≡ o) × (self.new ≡ self.old) }

        ensures yes { (load : ℕ) → result.verdict ≡ Verdict.Yes load → IsConsistent (the_network self.old.net) }
        ensures no { (load : ℕ) → result.verdict ≡ Verdict.No load → IsConsistent (the_network self.old.net) → ⊥ }
        ensures full { self.old.last ≡ None →
            (result.verdict ≡ Verdict.Full ↔
            ((self.old.cap < length (grow (the_network self.old.net) (kept_of self.old))) × (self.old.cap < load_of (the_network self.old.net)))) }
        ensures load { (load : ℕ) → result.verdict ≡ Verdict.No load → load ≡ length (kept_of self.new) }
        ensures prefix { result.afresh ≡ false → (more : List Entry) × (kept_of self.old ++ more ≡ kept_of self.new) }
        ensures ids { result.afresh ≡ false → KeepIds self.old.ids self.new.ids }
        ensures tries { self.old.tries ≤ self.new.tries }
        ensures most_tries { self.old.last ≡ None → self.old.settled ≡ true → result.afresh ≡ false
            → self.new.tries ≤ self.old.tries + most_tries (length self.old.net.constraints) (length self.old.fresh) (length self.old.entries)
            (length self.new.entries) }
    {
        network_is_well_formed(&self.net);
        if let Some(outcome) = self.last {
            return outcome;
        }
        let outcome = answer(
            &self.net,
            &mut self.log,
            &self.fresh,
            self.settled,
            &mut self.tries,
        );
        self.last = Some(outcome);
        self.fresh.clear();
        self.settled = is_yes(outcome);
        outcome
    }

    /// What refutes the network, where the last verdict was no and no edit was accepted since: the last entry of the kept
    /// list with its ancestors, and how long the list is. Fails for want of memory alone.
    pub fn refutation(&self, alloc: Global) -> Result<Refutation, AllocError>
        requires no { (o : Outcome) × (load : ℕ) × (self.now.last ≡ Some o) × (o.verdict ≡ Verdict.No load) }
        ensures part { IfOk result (λ r. the_steps r ≡ last_with_ancestors (kept_of self.now)) }
        ensures load { IfOk result (λ r. r.load ≡ length (kept_of self.now)) }
        ensures refutes { IfOk result (λ r. IsRefutation (the_network self.now.net) (the_steps r)) }

        // It can be printed with the names of the time-points, and its text gives it back.
        ensures named { IfOk result (λ r. All (λ e. e.bound.node.0 < count (the_network self.now.net)) r.steps) }
        ensures text { IfOk result FitsText }
    {
        network_is_well_formed(&self.net);
        let load = self.log.len();
        let steps = self.log.part(alloc)?;
        Ok(Refutation::new(load, steps))
    }

    /// How many rules the session has tried since its start.
    pub fn tries(&self) -> u64
        ensures tries { result ≡ self.now.tries }
    {
        self.tries.count
    }

    /// The network as edited.
    pub fn network(&self) -> &Network
        ensures network { result.now ≡ self.now.net }
        ensures well_formed { IsWellFormed (the_network result.now) }
    {
        network_is_well_formed(&self.net);
        &self.net
    }

    /// The kept list, or an empty one where there is no room for the base bounds.
    pub fn kept(&self) -> &Log
        ensures kept { count (the_network self.now.net) ≤ self.now.cap → the_entries result.now.entries ≡ kept_of self.now }
        ensures empty { self.now.cap < count (the_network self.now.net) → the_entries result.now.entries ≡ [] }
        ensures derivation { IsDerivation (the_network self.now.net) (the_entries result.now.entries) }
        ensures size { (result.now.cap ≡ self.now.cap) × (result.now.entries ≡ self.now.entries) × (result.now.ids ≡ self.now.ids) }
    {
        &self.log
    }
}
