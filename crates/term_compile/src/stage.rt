ghost use Rattle.std.specs.Prelude.{◌≡◌, ◌++◌, [], ◌∷◌, IfOk};
ghost use Rattle.compiled_term.specs.Stages.{after, carry, keep_all, through, to_state};
ghost use Rattle.compiled_term.specs.Wires.{wire_kinds};
ghost use Rattle.design_term.specs.declared.term.Term.TheVariants as term;
ghost use Rattle.term_compile.specs.Stands.{AreBelow, compiled_to, requiring, standing_of};

use crate::live::{carried_on, marks_of};
use crate::numbers::{number_after, numbers_from};
use crate::reading_on::{all_read_on, not_into};
use crate::standing::Standing;
use crate::targets::{targets_of_part, targets_of_state};
use crate::wiring::{push_wires, targets_from, wire_kinds};
use design_model::Design;
use design_term::{Primitive, Term};
use expr_residual::Frame;
use order_core::{Boxed, List, NoMemory};
use std::alloc::Global;
use value_type::{Kind, kinds_of};

/// Adds the two terms of a part, which has the term `inner`. Gives what stands after it.
///
/// The first `start` wires carry what the net is given.
pub fn push_stage(
    alloc: Global,
    start: u32,
    now: Standing,
    part: u32,
    design: &Design,
    inner: Term,
    into: &mut Vec<Term>,
) -> Result<Standing, NoMemory>
    requires { AreBelow now.next now.wires.items }
    ensures terms { IfOk result (λ _. into.new.items
        ≡ into.old.items ++ term.Par (keep_all (wire_kinds now.wires.items)) (through start [] (standing_of now) part (compiled_to design.now inner)) ∷ carry start [] (standing_of now) part (compiled_to design.now inner) ∷ []) }
    ensures then { IfOk result (λ then. standing_of then ≡ after start [] (standing_of now) part (compiled_to design.now inner)) }
    ensures below { IfOk result (λ then. AreBelow then.next then.wires.items) }
{
    let keep = keep_all(alloc, wire_kinds(alloc, now.wires.as_slice())?)?;
    let through = through(alloc, &now, part, design, inner)?;
    push_both(alloc, keep, through, into)?;
    let required = kinds_of(alloc, design.required_ports())?;
    let then = push_carry(alloc, start, now, part, required, into)?;
    Ok(then)
}

/// All values of a row of these types.
fn keep_all(alloc: Global, kinds: List<Kind>) -> Result<Term, NoMemory>
    ensures { IfOk result (λ made. made ≡ keep_all kinds) }
{
    let places = numbers_from(alloc, 0, kinds.items().len())?;
    Ok(Term::Prim(Primitive::Keep { kinds, places }))
}

/// From the wires to the provided values of a part, and through it to its required values.
fn through(
    alloc: Global,
    now: &Standing,
    part: u32,
    design: &Design,
    inner: Term,
) -> Result<Term, NoMemory>
    ensures { IfOk result (λ made. made ≡ through 0 [] (standing_of now.now) part (compiled_to design.now inner)) }
{
    let kinds = kinds_of(alloc, design.provided_ports())?;
    let targets = targets_of_part(alloc, part, now.wires.as_slice(), now.waiting.as_slice())?;
    let above = Boxed::of(alloc, Term::Prim(Primitive::Above { kinds, targets }))?;
    let inner = Boxed::of(alloc, inner)?;
    let sub = Boxed::of(alloc, Term::Sub { part, inner })?;
    Ok(Term::Series(above, sub))
}

fn push_both(alloc: Global, first: Term, second: Term, into: &mut Vec<Term>) -> Result<(), NoMemory>
    ensures { IfOk result (λ _. into.new.items ≡ into.old.items ++ term.Par first second ∷ []) }
{
    let first = Boxed::of(alloc, first)?;
    let second = Boxed::of(alloc, second)?;
    push_term(Term::Par(first, second), into)
}

fn push_term(made: Term, into: &mut Vec<Term>) -> Result<(), NoMemory>
    ensures { IfOk result (λ _. into.new.items ≡ into.old.items ++ made ∷ []) }
{
    into.push(made).map_err(|_| NoMemory)
}

/// Adds the term from the wires and the part's required values to the wires after it. Gives what stands then.
fn push_carry(
    alloc: Global,
    start: u32,
    now: Standing,
    part: u32,
    required: List<Kind>,
    into: &mut Vec<Term>,
) -> Result<Standing, NoMemory>
    requires { AreBelow now.next now.wires.items }
    ensures terms { IfOk result (λ _. into.new.items ≡ into.old.items ++ carry start [] (standing_of now) part (requiring required) ∷ []) }
    ensures then { IfOk result (λ then. standing_of then ≡ after start [] (standing_of now) part (requiring required)) }
    ensures below { IfOk result (λ then. AreBelow then.next then.wires.items) }
{
    let Standing {
        mut wires,
        next: from,
        waiting,
    } = now;
    let next = push_wires(required.into_vec(), from, &mut wires)?;
    let frame = Frame {
        start,
        part,
        from,
        next,
    };
    let mut made = Vec::new(alloc);
    let others = not_into(alloc, part, waiting)?;
    let waiting = all_read_on(alloc, &frame, others, &mut made)?;
    let last = number_after(next, made.len())?;
    let marks = marks_of(alloc, last as usize, waiting.as_slice())?;
    let carried = carried_on(
        alloc,
        start,
        marks.as_slice(),
        wires.as_slice(),
        next,
        made.as_slice(),
    )?;
    let mut wires = Vec::new(alloc);
    let targets = targets_from(alloc, carried, &mut wires)?;
    let kinds = wire_kinds(alloc, wires.as_slice())?;
    push_term(Term::Prim(Primitive::Above { kinds, targets }), into)?;
    Ok(Standing {
        wires,
        next: last,
        waiting,
    })
}

/// Adds the term from the wires to the next state, of these types.
pub fn push_to_state(
    alloc: Global,
    state: List<Kind>,
    now: &Standing,
    into: &mut Vec<Term>,
) -> Result<(), NoMemory>
    ensures { IfOk result (λ _. into.new.items ≡ into.old.items ++ to_state 0 state (standing_of now.now) ∷ []) }
{
    let targets = targets_of_state(alloc, now.wires.as_slice(), now.waiting.as_slice())?;
    let kinds = state;
    push_term(Term::Prim(Primitive::Above { kinds, targets }), into)
}
