ghost use Rattle.std.specs.Prelude.{◌≡◌, IfOk};
ghost use Rattle.compiled_term.specs.Wires.{place_of, placed};
ghost use Rattle.expr_residual.specs.Moved.{no_wire};

use crate::numbers::number_after;
use compiled_term::Wire;
use design_model::Expr;
use expr_residual::{Leads, moved};
use order_core::NoMemory;
use std::alloc::Global;

/// Reads of wires by their numbers lead to the places of the wires.
#[derive(Drop)]
struct Places<'a> {
    wires: &'a [Wire],
}

impl<'a> Leads for Places<'a> {
    ghost own_lead = { λ places. place_of places.wires.now };

    ghost wire = { λ places. no_wire };

    fn own(&self, number: u32) -> Result<u32, NoMemory> {
        number_after(0, place_of(self.wires, number))
    }

    fn inner(&self, _part: u32, _port: u32) -> Result<Option<u32>, NoMemory> {
        Ok(None)
    }
}

/// The place of the wire of this number.
fn place_of(wires: &[Wire], number: u32) -> usize
    ensures { result ≡ place_of wires.now number }
{
    for (at, wire) in wires.iter().enumerate() {
        if wire.number == number {
            return at;
        }
    }
    wires.len()
}

/// The expression over the places of the wires.
pub fn placed(alloc: Global, wires: &[Wire], expr: &Expr) -> Result<Expr, NoMemory>
    ensures { IfOk result (λ made. made ≡ placed wires.now expr.now) }
{
    moved(alloc, &Places { wires }, expr)
}
