ghost use Rattle.std.specs.Prelude.{◌≡◌, ◌+◌, ◌-◌, ◌<◌, ◌≤◌, [], IsTrue, IfOk, OnOk};
ghost use Rattle.order_core.specs.Chains.{IsMonotone};
ghost use Rattle.antichain.specs.Basis.{IsBasis};
ghost use Rattle.kleene_loop.specs.Ascent.{IsAscent};

use kleene_loop::{Ascent, Climb, Relation};
use order_core::{List, NoMemory, Order};
use std::alloc::Global;

/// Works out the outcomes of a relation at a point.
pub trait Outcomes<O: Order, R: Relation<Item = O::Item>> {
    /// What the worker asks of the order and the relation, and keeps.
    ghost suits: { Self → O → R → Type 0 };

    /// Gives incomparable outcomes at the point, so that each outcome there is above one of them.
    fn outcomes(
        &mut self,
        alloc: Global,
        order: &O,
        relation: &R,
        point: &O::Item,
    ) -> Result<List<O::Item>, NoMemory>
        requires suits { suits self.old order.now relation.now }
        requires value { IsTrue (O.is_value order.now point.now) }
        ensures kept { suits self.new order.now relation.now }
        ensures basis { IfOk result (IsBasis (O.leq order.now) (R.leads relation.now point.now)) };
}

/// Ascends for so many rounds, or until no point is left to ask: more rounds give the same then.
pub fn ascend<O: Order + Drop, R: Relation<Item = O::Item> + Drop, W: Outcomes<O, R>>(
    alloc: Global,
    order: O,
    relation: R,
    work: &mut W,
    rounds: u32,
) -> Result<Ascent<O::Item>, NoMemory>
    requires monotone { IsMonotone (O.is_value order) (O.leq order) (R.leads relation) }
    requires suits { W.suits work.old order relation }
    requires some { 1 ≤ rounds }
    requires within { rounds ≤ 1000000 }
    ensures kept { W.suits work.new order relation }
    ensures ascent { IfOk result (λ a. IsAscent (O.is_value order) (O.leq order) (R.leads relation) (rounds - 1) a.settled a.fresh a.left) }
{
    let mut climb = Climb::begin(alloc, order, relation)?;
    'rounds: loop {
        ask_all(alloc, &mut climb, work)?;
        if climb.round() + 1 >= rounds {
            return climb.finish();
        }
        climb.turn();
        if climb.next().is_none() {
            return climb.finish();
        }
    }
}

/// Asks each point of the round.
fn ask_all<O: Order + Drop, R: Relation<Item = O::Item> + Drop, W: Outcomes<O, R>>(
    alloc: Global,
    climb: &mut Climb<O, R>,
    work: &mut W,
) -> Result<(), NoMemory>
    requires { W.suits work.old climb.old.order climb.old.relation }
    ensures suits { W.suits work.new climb.old.order climb.old.relation }
    ensures order { climb.new.order ≡ climb.old.order }
    ensures relation { climb.new.relation ≡ climb.old.relation }
    ensures round { climb.new.round ≡ climb.old.round }
    ensures done { OnOk result (climb.new.todo ≡ []) }
{
    'points: while let Some(point) = climb.next() {
        let outcomes = work.outcomes(alloc, climb.order(), climb.relation(), point)?;
        climb.answer(outcomes)?;
    }
    Ok(())
}
