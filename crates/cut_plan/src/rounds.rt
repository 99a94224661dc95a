//! How many rounds are enough.

ghost use Rattle.std.specs.Prelude.{◌≡◌, ◌-◌, ◌^◌, min, List, Bool, length, slice_index_or, map, option_map, IfOk};
ghost use Rattle.value_type.specs.declared.port.Port.{Port as OnePort};
ghost use Rattle.cut_plan.specs.Totals.{clipped, height_if, port_heights, all_heights, greatest_of};
ghost use Rattle.cut_plan.specs.CutReads.{is_listed};
ghost use Rattle.design_model.specs.Heights.{enough_rounds, net_height, sum_all, surveyed};
ghost use Rattle.design_model.specs.HeightsLaws.{of_part};
ghost use Rattle.design_model.specs.Parts.{required_ports};

use crate::columns::column_of;
use crate::cuts::plan_of;
use crate::heights::height_of;
use crate::reads::Signal;
use crate::signals::is_listed;
use design_model::{Constraint, Design, Part};
use order_core::{List, NoMemory};
use std::alloc::Global;
use value_type::{Kind, Types};

/// How many rounds are enough to solve the design. A number above the greatest of 64 bits is answered as that one.
///
/// There is no answer exactly where, in some net, a cut signal has a number in it and belongs to a part with a net inside.
#[cycle(rounds_enough)]
pub fn rounds_enough(alloc: Global, types: &Types, design: &Design) -> Result<Option<u64>, NoMemory>
    ensures { IfOk result (λ found. found ≡ option_map (λ n. min n (2 ^ 64 - 1)) (enough_rounds types.now design.now)) }
{
    match design {
        Design::Cat { .. } => Ok(Some(1)),
        Design::Choice { branches, .. } => greatest_of(alloc, types, 1, branches.items()),
        Design::Net {
            parts,
            constraints,
            ..
        } => {
            let Some(height) = net_height(alloc, types, parts.items(), constraints.items())? else {
                return Ok(None);
            };
            greatest_of(alloc, types, height.saturating_add(2), parts.items())
        }
    }
}

/// The greatest number of rounds that one of the parts needs, and at least this many.
#[cycle(rounds_enough)]
fn greatest_of(
    alloc: Global,
    types: &Types,
    least: u64,
    parts: &[Part],
) -> Result<Option<u64>, NoMemory>
    ensures { IfOk result (λ found. found ≡ clipped (greatest_of types.now least parts.now)) }
{
    let mut most = least;
    for part in parts {
        let Some(rounds) = rounds_enough(alloc, types, &part.design)? else {
            return Ok(None);
        };
        most = most.max(rounds);
    }
    Ok(Some(most))
}

/// The sum of the heights of a net's cut signals.
fn net_height(
    alloc: Global,
    types: &Types,
    parts: &[Part],
    constraints: &[Constraint],
) -> Result<Option<u64>, NoMemory>
    ensures { IfOk result (λ found. (provides requires_ : List OnePort)
        → found ≡ clipped (net_height types.now (surveyed provides requires_ (map (of_part types.now) parts.now) constraints.now) (map (of_part types.now) parts.now))) }
{
    let plan = plan_of(alloc, constraints, parts.len())?;
    heights_of_parts(alloc, types, parts, plan.cut.as_slice())
}

/// The sum of the heights of the listed ports of the parts.
fn heights_of_parts(
    alloc: Global,
    types: &Types,
    parts: &[Part],
    listed: &[Signal],
) -> Result<Option<u64>, NoMemory>
    ensures { IfOk result (λ found. found ≡ clipped (sum_all (all_heights types.now listed.now 0 parts.now))) }
{
    let mut total: u64 = 0;
    for (number, part) in parts.iter().enumerate() {
        let Some(height) = heights_of_ports(alloc, types, &part.design, number, listed)? else {
            return Ok(None);
        };
        total = total.saturating_add(height);
    }
    Ok(Some(total))
}

/// The sum of the heights of the listed ports of one part.
fn heights_of_ports(
    alloc: Global,
    types: &Types,
    design: &Design,
    number: usize,
    listed: &[Signal],
) -> Result<Option<u64>, NoMemory>
    ensures { IfOk result (λ found. found ≡ clipped (sum_all (port_heights types.now design.now listed.now number 0 (required_ports design.now)))) }
{
    let mut total: u64 = 0;
    for (port, declared) in design.required_ports().iter().enumerate() {
        let is_cut = is_listed(listed, number, port);
        let Some(height) = height_if(alloc, types, design, is_cut, port, &declared.kind)? else {
            return Ok(None);
        };
        total = total.saturating_add(height);
    }
    Ok(Some(total))
}

/// The height of a required port that is cut, and 0 of one that isn't.
fn height_if(
    alloc: Global,
    types: &Types,
    design: &Design,
    is_cut: bool,
    port: usize,
    kind: &Kind,
) -> Result<Option<u64>, NoMemory>
    ensures { IfOk result (λ found. found ≡ clipped (height_if types.now design.now is_cut port kind.now)) }
{
    if !is_cut {
        return Ok(Some(0));
    }
    let values = column_of(alloc, design, port)?;
    height_of(alloc, types, kind, values.as_ref())
}
