ghost use Rattle.std.specs.Prelude.{◌≡◌, ◌-◌, ◌≤◌, IsTrue, IfOk};
ghost use Rattle.std.specs.List.{list_all};
ghost use Rattle.kleene_loop.specs.Ascent.{IsAscent};
ghost use Rattle.ascent_examples.specs.Rows.{LeadsByRows, ends_from, is_row};

use crate::driver::{Outcomes, ascend};
use antichain::Antichain;
use kleene_loop::{Ascent, Relation};
use order_core::{List, NoMemory, Order};
use std::alloc::Global;

/// A row: what is at most the start leads to what is at least the end.
#[derive(Drop)]
pub struct Step<T> {
    pub start: T,
    pub end: T,
}

/// The relation that rows give, in an order.
#[derive(Drop)]
pub struct Rows<O: Order> {
    pub order: O,
    pub steps: List<Step<O::Item>>,
}

impl<O: Order> Relation for Rows<O> {
    type Item = O::Item;

    ghost leads = { λ r. LeadsByRows (O.is_value r.order) (O.leq r.order) r.steps };
}

impl<O: Order> Rows<O> {
    /// Whether all starts and ends are values of the order.
    pub fn are_values(&self) -> bool
        ensures { result ≡ list_all (is_row (O.is_value self.now.order)) self.now.steps }
    {
        let steps = self.steps.items();
        for step in steps {
            if !self.order.is_value(&step.start) || !self.order.is_value(&step.end) {
                return false;
            }
        }
        true
    }
}

/// Works out outcomes by rows, and notes each point that it was asked.
#[derive(Drop)]
pub struct Notes<T> {
    pub asked: Vec<T>,
}

impl<O: Order> Outcomes<O, Rows<O>> for Notes<O::Item> {
    ghost suits = { λ n o r. (r.order ≡ o) × IsTrue (list_all (is_row (O.is_value o)) r.steps) };

    fn outcomes(
        &mut self,
        alloc: Global,
        order: &O,
        relation: &Rows<O>,
        point: &O::Item,
    ) -> Result<List<O::Item>, NoMemory> {
        let asked = order.copy(alloc, point)?;
        if self.asked.push(asked).is_err() {
            return Err(NoMemory);
        }
        let found = ends(alloc, order, relation.steps.items(), point)?;
        Ok(Antichain::of(alloc, order, List::of(found))?.into_list())
    }
}

/// The ends of the rows whose start is above the point.
fn ends<O: Order>(
    alloc: Global,
    order: &O,
    steps: &[Step<O::Item>],
    point: &O::Item,
) -> Result<Vec<O::Item>, NoMemory>
    requires rows { IsTrue (list_all (is_row (O.is_value order.now)) steps.now) }
    requires point { IsTrue (O.is_value order.now point.now) }
    ensures { IfOk result (λ found. found.items ≡ ends_from (O.leq order.now) steps.now point.now) }
{
    let mut found = Vec::new(alloc);
    for step in steps {
        if order.leq(point, &step.start) {
            let end = order.copy(alloc, &step.end)?;
            if found.push(end).is_err() {
                return Err(NoMemory);
            }
        }
    }
    Ok(found)
}

/// Ascends by rows.
pub fn ascend_by_rows<O: Order + Drop>(
    alloc: Global,
    order: O,
    relation: Rows<O>,
    notes: &mut Notes<O::Item>,
    rounds: u32,
) -> Result<Ascent<O::Item>, NoMemory>
    requires same { relation.order ≡ order }
    requires rows { IsTrue (list_all (is_row (O.is_value order)) relation.steps) }
    requires some { 1 ≤ rounds }
    requires within { rounds ≤ 1000000 }
    ensures { IfOk result (λ a. IsAscent (O.is_value order) (O.leq order) (LeadsByRows (O.is_value order) (O.leq order) relation.steps) (rounds - 1) a.settled a.fresh a.left) }
{
    ascend(alloc, order, relation, notes, rounds)
}
