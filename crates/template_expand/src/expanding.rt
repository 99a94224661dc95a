ghost use Rattle.std.specs.Prelude.{◌≡◌, ◌≤◌, [], IfOk, List, map, option_and_then, slice_get};
ghost use Rattle.std.specs.Option.{option_copied};
ghost use Rattle.design_measure.specs.Measures.{depth_of, greatest};
ghost use Rattle.design_model.specs.declared.design.Design.{Design as Meaning};
ghost use Rattle.design_model.specs.declared.design.Part.{Part as Piece};
ghost use Rattle.reference_meaning.specs.Denotes.{choice_of};
ghost use Rattle.reference_meaning.specs.Modules.{Makes, ModuleMakes};
ghost use Rattle.template_expand.specs.Trails.{BodyBeneath, MakesBeneath, PartsBeneath};

use crate::copy::{copy_constraints, copy_rows};
use crate::trail::{led_by, original};
use design_model::{Design, Part};
use order_core::{List, NoMemory};
use reference_meaning::{Link, Module, ModuleBody, Resolved};
use std::alloc::Global;
use value_type::copy_ports;

/// The greatest depth of a design.
const DEEPEST: u64 = 64;

/// The module of this number.
fn module_at(modules: &[Option<Module>], number: u32) -> Option<&Module>
    ensures { option_copied result ≡ option_and_then (λ named. named) (slice_get modules.now number) }
{
    match modules.get(number as usize) {
        Some(Some(named)) => Some(named),
        _ => None,
    }
}

/// A choice of these branches, with the ports of the first.
fn choice_of(alloc: Global, branches: Vec<Part>) -> Result<Design, NoMemory>
    ensures { IfOk result (λ made. made ≡ choice_of branches.items) }
{
    let (provides, requires_) = match branches.as_slice() {
        [] => (List::of(Vec::new(alloc)), List::of(Vec::new(alloc))),
        [first, ..] => (
            copy_ports(alloc, first.design.provided_ports())?,
            copy_ports(alloc, first.design.required_ports())?,
        ),
    };
    Ok(Design::Choice {
        provides,
        requires_,
        branches: List::of(branches),
    })
}

/// The design that a module without parameters denotes. It is at most 64 deep.
pub fn expand(alloc: Global, modules: &[Option<Module>], named: &Module) -> Result<Design, NoMemory>
    requires { (X : Meaning) × ModuleMakes modules.now named.now X × (depth_of X ≤ 64) }
    ensures { IfOk result (λ made. (X : Meaning) → ModuleMakes modules.now named.now X → X ≡ made) }
{
    body_made(alloc, modules, &[], named, DEEPEST)
}

/// The design that a reference in a file without parameters denotes. It is at most 64 deep.
pub fn specialize(
    alloc: Global,
    modules: &[Option<Module>],
    reference: &Resolved,
) -> Result<Design, NoMemory>
    requires { (X : Meaning) × Makes modules.now [] reference.now X × (depth_of X ≤ 64) }
    ensures { IfOk result (λ made. (X : Meaning) → Makes modules.now [] reference.now X → X ≡ made) }
{
    reference_made(alloc, modules, &[], reference, DEEPEST)
}

/// The design that a reference denotes in the body that the trail leads to. It is at most this deep.
#[cycle(reference_made)]
fn reference_made<'t>(
    alloc: Global,
    modules: &'t [Option<Module>],
    trail: &[&'t [Resolved]],
    reference: &'t Resolved,
    depth: u64,
) -> Result<Design, NoMemory>
    requires { (X : Meaning) × MakesBeneath modules.now (map (λ xs. xs.now) trail.now) reference.now X × (depth_of X ≤ depth) }
    ensures { IfOk result (λ made. (X : Meaning) → MakesBeneath modules.now (map (λ xs. xs.now) trail.now) reference.now X → X ≡ made) }
{
    let from = original(trail, reference);
    match from.reference {
        Resolved::Parameter(_) => unreachable!(),
        Resolved::Module { number, arguments } => match module_at(modules, *number) {
            Some(named) => {
                let trail = led_by(alloc, arguments.items(), from.trail)?;
                body_made(alloc, modules, &trail, named, depth)
            }
            None => unreachable!(),
        },
    }
}

/// The design that a module's body denotes, where the trail leads to it.
#[cycle(reference_made)]
fn body_made<'t>(
    alloc: Global,
    modules: &'t [Option<Module>],
    trail: &[&'t [Resolved]],
    named: &'t Module,
    depth: u64,
) -> Result<Design, NoMemory>
    requires { (X : Meaning) × BodyBeneath modules.now (map (λ xs. xs.now) trail.now) named.now X × (depth_of X ≤ depth) }
    ensures { IfOk result (λ made. (X : Meaning) → BodyBeneath modules.now (map (λ xs. xs.now) trail.now) named.now X → X ≡ made) }
{
    match &named.body {
        ModuleBody::Catalogue(rows) => Ok(Design::Cat {
            provides: copy_ports(alloc, named.provides.items())?,
            requires_: copy_ports(alloc, named.requires_.items())?,
            rows: copy_rows(alloc, rows.items())?,
        }),
        ModuleBody::Choice(branches) => {
            let parts = parts_made(alloc, modules, trail, branches.items(), depth - 1)?;
            choice_of(alloc, parts)
        }
        ModuleBody::Net { parts, constraints } => {
            let parts = parts_made(alloc, modules, trail, parts.items(), depth - 1)?;
            Ok(Design::Net {
                provides: copy_ports(alloc, named.provides.items())?,
                requires_: copy_ports(alloc, named.requires_.items())?,
                parts: List::of(parts),
                constraints: copy_constraints(alloc, constraints.items())?,
            })
        }
    }
}

/// The parts that links denote, where the trail leads to them.
#[cycle(reference_made)]
fn parts_made<'t>(
    alloc: Global,
    modules: &'t [Option<Module>],
    trail: &[&'t [Resolved]],
    links: &'t [Link],
    depth: u64,
) -> Result<Vec<Part>, NoMemory>
    requires { (ps : List Piece) × PartsBeneath modules.now (map (λ xs. xs.now) trail.now) links.now ps × (greatest (map (λ p. depth_of p.design) ps) ≤ depth) }
    ensures { IfOk result (λ made. (ps : List Piece) → PartsBeneath modules.now (map (λ xs. xs.now) trail.now) links.now ps → ps ≡ made.items) }
{
    let mut made = Vec::new(alloc);
    for link in links {
        let name = link.name.copy(alloc)?;
        let design = reference_made(alloc, modules, trail, &link.reference, depth)?;
        made.push(Part { name, design })?;
    }
    Ok(made)
}
