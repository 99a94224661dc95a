ghost use Rattle.std.specs.Prelude.{◌≡◌, ◌↔◌, ◌+◌, ◌<◌, suc, [], IsTrue, IfOk, OnOk, OnErr, IfSome, filter, not, reverse, slice_get};
ghost use Rattle.std.specs.Option.{option_copied};
ghost use Rattle.order_core.specs.Chains.{EndsChain, IsLeastEnd, IsMonotone};
ghost use Rattle.order_core.specs.Members.{IsMember};
ghost use Rattle.order_core.specs.Order.{are_incomparable};
ghost use Rattle.antichain.specs.Basis.{IsBasis, IsRaise};
ghost use Rattle.antichain.specs.Minima.{inserted_all};
ghost use Rattle.kleene_loop.specs.Ascent.{AreFound, FirstHas, IsAnswered, IsAscent, IsRaisedBy, Moves};
ghost use Rattle.kleene_loop.specs.New.{IsNew};

use crate::points::{insert_all_reserved, remove_above_any};
use crate::relation::Relation;
use antichain::{all_bounds, remove_above, some_below};
use order_core::{List, NoMemory, Order};
use std::alloc::Global;
use std::collections::VecDeque;
use std::marker::Model;

/// An ascent: the points of the present round, and what is known of the next one.
///
/// Its user asks for the next point, works out the outcomes of the relation there, and answers with them.
#[derive(Drop)]
pub struct Climb<O: Order, R: Relation<Item = O::Item>> {
    alloc: Global,
    order: O,
    relation: R,
    round: u32,
    todo: VecDeque<O::Item>,
    kept: Vec<O::Item>,
    raised: Vec<O::Item>,
    left: Vec<O::Item>,
}

impl<O: Order, R: Relation<Item = O::Item>> Model for Climb<O, R> {
    ghost use Rattle.kleene_loop.specs.Ascent.{IsClimb};
    ghost use Rattle.kleene_loop.specs.Held.{Held};

    ghost Value = { Held O R O.Item };

    ghost view = { λ c. record {
      order = c.order;
      relation = c.relation;
      round = c.round;
      todo = c.todo.items;
      kept = c.kept.items;
      raised = c.raised.items;
      left = c.left.items;
    } };

    ghost invariant = { λ c. IsClimb (O.is_value c.order) (O.leq c.order) (R.leads c.relation) c.round c.todo.items c.kept.items c.raised.items c.left.items };
}

/// What an ascent hands out.
#[derive(Debug, Drop)]
pub struct Ascent<T> {
    /// The least points that stay for ever: each steps to itself.
    pub settled: List<T>,
    /// The other least points of the next round.
    pub fresh: List<T>,
    /// The least points of this round that end no longer chain.
    pub left: List<T>,
}

impl<O: Order + Drop, R: Relation<Item = O::Item> + Drop> Climb<O, R> {
    /// Begins with the least values of the order, in round 0.
    pub fn begin(alloc: Global, order: O, relation: R) -> Result<Climb<O, R>, NoMemory>
        requires { IsMonotone (O.is_value order) (O.leq order) (R.leads relation) }

        ensures order { IfOk result (λ c. c.order ≡ order) }
        ensures relation { IfOk result (λ c. c.relation ≡ relation) }
        ensures round { IfOk result (λ c. c.round ≡ 0) }
        ensures todo { IfOk result (λ c. (x : O.Item) → IsMember x c.todo ↔ IsLeastEnd (O.is_value order) (O.leq order) (R.leads relation) 0 x) }
        ensures kept { IfOk result (λ c. c.kept ≡ []) }
        ensures raised { IfOk result (λ c. c.raised ≡ []) }
        ensures left { IfOk result (λ c. c.left ≡ []) }
    {
        let todo = VecDeque::from(order.least(alloc)?.into_vec());
        Ok(Climb {
            alloc,
            order,
            relation,
            round: 0,
            todo,
            kept: Vec::new(alloc),
            raised: Vec::new(alloc),
            left: Vec::new(alloc),
        })
    }

    /// The order.
    pub fn order(&self) -> &O
        ensures { result.now ≡ self.now.order }
    {
        &self.order
    }

    /// The relation.
    pub fn relation(&self) -> &R
        ensures { result.now ≡ self.now.relation }
    {
        &self.relation
    }

    /// The round.
    pub fn round(&self) -> u32
        ensures { result ≡ self.now.round }
    {
        self.round
    }

    /// The first point to ask, or none where all are asked.
    ///
    /// Each point to ask is a least end that was none in the round before, and no two of them are comparable, so that none stands there twice.
    pub fn next(&self) -> Option<&O::Item>
        ensures first { option_copied result ≡ slice_get self.now.todo 0 }
        ensures value { IfSome (option_copied result) (λ x. IsTrue (O.is_value self.now.order x)) }
        ensures least { (x : O.Item) → IsMember x self.now.todo → IsLeastEnd (O.is_value self.now.order) (O.leq self.now.order) (R.leads self.now.relation) self.now.round x }
        ensures new { (x : O.Item) → IsMember x self.now.todo → IsNew (O.is_value self.now.order) (O.leq self.now.order) (R.leads self.now.relation) self.now.round x }
        ensures once { IsTrue (are_incomparable (O.leq self.now.order) self.now.todo) }
    {
        self.todo.front()
    }

    /// Takes the outcomes at the first point: incomparable ones, so that each outcome there is above one of them.
    pub fn answer(&mut self, outcomes: List<O::Item>) -> Result<(), NoMemory>
        requires { FirstHas self.old.todo (λ x. IsBasis (O.leq self.old.order) (R.leads self.old.relation x) outcomes) }

        ensures order { self.new.order ≡ self.old.order }
        ensures relation { self.new.relation ≡ self.old.relation }
        ensures round { self.new.round ≡ self.old.round }
        ensures answered { OnOk result (IsAnswered (O.leq self.old.order) outcomes self.old.todo self.old.kept self.old.left self.new.todo self.new.kept self.new.left) }
        ensures raised { OnOk result (FirstHas self.old.todo (λ x. IsRaisedBy (O.leq self.old.order) (IsRaise (O.is_value self.old.order) (O.leq self.old.order) x outcomes) self.new.kept self.old.raised self.new.raised)) }
        ensures err { OnErr result (self.new ≡ self.old) }
    {
        let Some(point) = self.todo.front() else {
            unreachable!()
        };
        if some_below(&self.order, outcomes.items(), point) {
            return self.keep();
        }
        let mut found = all_bounds(self.alloc, &self.order, outcomes.items(), point)?;
        remove_above_any(&self.order, &mut found, &self.kept);
        self.let_go(found)
    }

    /// Moves the first point, which leads to itself, to those that stay.
    fn keep(&mut self) -> Result<(), NoMemory>
        requires { FirstHas self.old.todo (λ x. R.leads self.old.relation x x) }

        ensures order { self.new.order ≡ self.old.order }
        ensures relation { self.new.relation ≡ self.old.relation }
        ensures round { self.new.round ≡ self.old.round }
        ensures kept { OnOk result (Moves self.old.todo self.new.todo self.old.kept self.new.kept) }
        ensures raised { OnOk result (FirstHas self.old.todo (λ x. self.new.raised ≡ filter (λ r. not (O.leq self.old.order x r)) self.old.raised)) }
        ensures left { self.new.left ≡ self.old.left }
        ensures err { OnErr result (self.new ≡ self.old) }
    {
        if self.kept.reserve(1).is_err() {
            return Err(NoMemory);
        }
        let Some(point) = self.todo.pop_front() else {
            unreachable!()
        };
        remove_above(&self.order, &mut self.raised, &point);
        match self.kept.push(point) {
            Ok(()) => Ok(()),
            Err(_) => unreachable!(),
        }
    }

    /// Moves the first point, which ends no longer chain, to those that go, and raises the values that were found.
    fn let_go(&mut self, found: Vec<O::Item>) -> Result<(), NoMemory>
        requires goes { FirstHas self.old.todo (λ x. EndsChain (O.is_value self.old.order) (O.leq self.old.order) (R.leads self.old.relation) (suc self.old.round) x → ⊥) }
        requires found { FirstHas self.old.todo (λ x. AreFound (O.is_value self.old.order) (O.leq self.old.order) (R.leads self.old.relation) x self.old.kept found.items) }

        ensures order { self.new.order ≡ self.old.order }
        ensures relation { self.new.relation ≡ self.old.relation }
        ensures round { self.new.round ≡ self.old.round }
        ensures kept { self.new.kept ≡ self.old.kept }
        ensures raised { OnOk result (self.new.raised ≡ inserted_all (O.leq self.old.order) self.old.raised (reverse found.items)) }
        ensures left { OnOk result (Moves self.old.todo self.new.todo self.old.left self.new.left) }
        ensures err { OnErr result (self.new ≡ self.old) }
    {
        if self.left.reserve(1).is_err() {
            return Err(NoMemory);
        }
        if self.raised.reserve(found.len()).is_err() {
            return Err(NoMemory);
        }
        insert_all_reserved(&self.order, &mut self.raised, found);
        let Some(point) = self.todo.pop_front() else {
            unreachable!()
        };
        match self.left.push(point) {
            Ok(()) => Ok(()),
            Err(_) => unreachable!(),
        }
    }

    /// Goes on to the next round: what was raised is asked next.
    pub fn turn(&mut self)
        requires done { self.old.todo ≡ [] }
        requires round { self.old.round < 999999 }

        ensures order { self.new.order ≡ self.old.order }
        ensures relation { self.new.relation ≡ self.old.relation }
        ensures round { self.new.round ≡ self.old.round + 1 }
        ensures todo { self.new.todo ≡ self.old.raised }
        ensures kept { self.new.kept ≡ self.old.kept }
        ensures raised { self.new.raised ≡ [] }
        ensures left { self.new.left ≡ [] }
    {
        self.round += 1;
        let raised = std::mem::replace(&mut self.raised, Vec::new(self.alloc));
        self.todo = VecDeque::from(raised);
        self.left.clear();
    }

    /// Hands out the points, where all are asked.
    pub fn finish(self) -> Result<Ascent<O::Item>, NoMemory>
        requires { self.todo ≡ [] }

        ensures settled { IfOk result (λ a. a.settled ≡ self.kept) }
        ensures fresh { IfOk result (λ a. a.fresh ≡ self.raised) }
        ensures left { IfOk result (λ a. a.left ≡ self.left) }
        ensures ascent { IfOk result (λ a. IsAscent (O.is_value self.order) (O.leq self.order) (R.leads self.relation) self.round a.settled a.fresh a.left) }
    {
        let Climb {
            kept,
            raised,
            left,
            ..
        } = self;
        Ok(Ascent {
            settled: List::of(kept),
            fresh: List::of(raised),
            left: List::of(left),
        })
    }
}
