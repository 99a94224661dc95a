ghost use Rattle.std.specs.Prelude.{◌↔◌, IsTrue, IsSomeAnd, map, slice_get};
ghost use Rattle.std.specs.Option.{option_copied};
ghost use Rattle.order_core.specs.Pointwise.{Each, Pointwise};
ghost use Rattle.design_model.specs.Holds.{Holds, RowHolds, PartHolds, AllSatisfied, carried_by};
ghost use Rattle.design_model.specs.Wiring.{wiring_of};

use crate::constraint::{Assignment, all_satisfied};
use crate::design::{CatRow, Design, Part};
use crate::witness::{PartWitness, Witness};
use value_type::{Port, Row, Types, ports_fit, ports_leq};

/// Whether the design provides at least `f` and requires at most `r` when it is made as the witness says.
///
/// Rows that don't fit the ports never hold.
#[cycle(holds)]
pub fn holds(types: &Types, design: &Design, f: &Row, r: &Row, witness: &Witness) -> bool
    ensures { IsTrue result ↔ Holds types.now design.now f.now r.now witness.now }
{
    if !ports_fit(types, design.provided_ports(), f.values()) {
        return false;
    }
    if !ports_fit(types, design.required_ports(), r.values()) {
        return false;
    }
    match design {
        Design::Cat {
            provides,
            requires_,
            rows,
        } => match witness {
            Witness::Row(number) => {
                let row = rows.get(*number as usize);
                row_holds(types, provides.items(), requires_.items(), row, f, r)
            }
            _ => false,
        },
        Design::Choice { branches, .. } => match witness {
            Witness::Branch(number, inner) => {
                branch_holds(types, branches.items(), *number, f, r, inner.get())
            }
            _ => false,
        },
        Design::Net {
            provides,
            requires_,
            parts,
            constraints,
        } => match witness {
            Witness::Inner(inner) => {
                let at = Assignment {
                    provides,
                    requires_,
                    parts,
                    constraints,
                    f,
                    r,
                    witnesses: inner,
                };
                parts_hold(types, parts.items(), inner.items()) && all_satisfied(types, &at)
            }
            _ => false,
        },
    }
}

/// Whether there is such a row, and it provides at least `f` and requires at most `r`.
fn row_holds(
    types: &Types,
    provides: &[Port],
    requires_: &[Port],
    row: Option<&CatRow>,
    f: &Row,
    r: &Row,
) -> bool
    ensures { IsTrue result ↔ IsSomeAnd (option_copied row.entry) (RowHolds types.now provides.now requires_.now f.now r.now) }
{
    match row {
        Some(row) => {
            ports_leq(types, provides, f.values(), row.provided.values())
                && ports_leq(types, requires_, row.required.values(), r.values())
        }
        None => false,
    }
}

/// Whether there is a branch of this number, and it holds.
#[cycle(holds)]
fn branch_holds(
    types: &Types,
    branches: &[Part],
    number: u32,
    f: &Row,
    r: &Row,
    inner: &Witness,
) -> bool
    ensures { IsTrue result ↔ IsSomeAnd (slice_get branches.now number) (λ b. Holds types.now b.design f.now r.now inner.now) }
{
    match branches.get(number as usize) {
        Some(branch) => holds(types, &branch.design, f, r, inner),
        None => false,
    }
}

/// Whether there is a witness for each part, and the part holds with it.
#[cycle(holds)]
fn parts_hold(types: &Types, parts: &[Part], witnesses: &[PartWitness]) -> bool
    ensures { IsTrue result ↔ Pointwise (PartHolds (λ p. Holds types.now p.design)) parts.now witnesses.now }
{
    if parts.len() != witnesses.len() {
        return false;
    }
    for (at, part) in parts.iter().enumerate() {
        let witness = &witnesses[at];
        if !holds(
            types,
            &part.design,
            &witness.provided,
            &witness.required,
            &witness.inner,
        ) {
            return false;
        }
    }
    true
}
