ghost use Rattle.std.specs.Prelude.{◌≡◌, map, IfOk};
ghost use Rattle.compiled_term.specs.CompiledTerm.{compiled};
ghost use Rattle.compiled_term.specs.CompiledTermLaws.{known_of};
ghost use Rattle.compiled_term.specs.Stages.{stages};
ghost use Rattle.term_compile.specs.Stands.{AreBelow, standing_of};

use crate::joining::joined;
use crate::looping::looped;
use crate::plan::{Plan, plan_of};
use crate::rows::copy_rows;
use crate::stage::{push_stage, push_to_state};
use crate::standing::Standing;
use design_model::{Design, Part};
use design_term::{Primitive, Term};
use order_core::{List, NoMemory};
use std::alloc::Global;
use value_type::{Kind, copy_kinds, kinds_of};

/// The term of the design.
///
/// It fails where memory is short, and where a net has more parts, ports or wires than a `u32` numbers.
#[cycle(term_of)]
pub fn term_of(alloc: Global, design: &Design) -> Result<Term, NoMemory>
    ensures { IfOk result (λ term. term ≡ compiled design.now) }
{
    match design {
        Design::Cat {
            provides,
            requires_,
            rows,
        } => Ok(Term::Prim(Primitive::Rows {
            provided: kinds_of(alloc, provides.items())?,
            required: kinds_of(alloc, requires_.items())?,
            rows: copy_rows(alloc, rows.items())?,
        })),
        Design::Choice { branches, .. } => {
            let terms = terms_of(alloc, branches.items())?;
            Ok(Term::Alt(List::of(terms)))
        }
        Design::Net {
            provides,
            requires_,
            parts,
            constraints,
        } => {
            let plan = plan_of(
                alloc,
                design,
                provides.items(),
                requires_.items(),
                parts.items(),
                constraints.items(),
            )?;
            let required = kinds_of(alloc, requires_.items())?;
            let Plan {
                order,
                signals,
                state,
                start,
                given,
            } = plan;
            let to = copy_kinds(alloc, state.items())?;
            let stages = stages_of(alloc, parts.items(), order.items(), start, to, given)?;
            let body = joined(alloc, stages)?;
            let term = looped(alloc, signals, state, required, body)?;
            Ok(term)
        }
    }
}

/// The terms of the designs of these branches, in order.
#[cycle(term_of)]
fn terms_of(alloc: Global, branches: &[Part]) -> Result<Vec<Term>, NoMemory>
    ensures { IfOk result (λ made. made.items ≡ map (λ p. compiled p.design) branches.now) }
{
    let mut made = Vec::new(alloc);
    for branch in branches {
        let term = term_of(alloc, &branch.design)?;
        if made.push(term).is_err() {
            return Err(NoMemory);
        }
    }
    Ok(made)
}

/// The stages of a net of these parts, in this order. What is given stands before the first, and the next state has
/// these types.
#[cycle(term_of)]
fn stages_of(
    alloc: Global,
    parts: &[Part],
    order: &[u32],
    start: u32,
    state: List<Kind>,
    given: Standing,
) -> Result<Vec<Term>, NoMemory>
    requires { AreBelow given.next given.wires.items }
    ensures { IfOk result (λ made. made.items ≡ stages start state (map known_of parts.now) (standing_of given) order.now) }
{
    let mut made = Vec::new(alloc);
    let mut now = given;
    for number in order {
        let Some(part) = parts.get(*number as usize) else {
            return Err(NoMemory);
        };
        let inner = term_of(alloc, &part.design)?;
        now = push_stage(alloc, start, now, *number, &part.design, inner, &mut made)?;
    }
    push_to_state(alloc, state, &now, &mut made)?;
    Ok(made)
}
