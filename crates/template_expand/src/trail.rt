ghost use Rattle.std.specs.Prelude.{◌≡◌, ◌∷◌, IfOk, map, slice_get};
ghost use Rattle.std.specs.Option.{option_copied};
ghost use Rattle.reference_meaning.specs.declared.module.Resolved.{out-Resolved};
ghost use Rattle.template_expand.specs.Trails.{given_for, original};

use order_core::NoMemory;
use reference_meaning::Resolved;
use std::alloc::Global;

/// A reference, and the arguments of the references that lead to the body where it stands, the innermost first.
#[derive(Clone, Copy)]
pub struct Origin<'s, 't> {
    pub trail: &'s [&'t [Resolved]],
    pub reference: &'t Resolved,
}

/// The argument of this number.
fn argument_at<'t>(arguments: &'t [Resolved], number: u32) -> Option<&'t Resolved>
    ensures { option_copied result ≡ slice_get arguments.now number }
{
    arguments.get(number as usize)
}

/// Where a reference comes from: a parameter leads to the argument that was given for it.
#[tactic(auto, unfolding(crate::specs::Trails::original))]
pub fn original<'s, 't>(trail: &'s [&'t [Resolved]], reference: &'t Resolved) -> Origin<'s, 't>
    ensures { record { trail = map (λ arguments. arguments.now) result.trail.now; reference = result.reference.now } ≡ original (map (λ arguments. arguments.now) trail.now) reference.now }
{
    match trail {
        [] => Origin { trail, reference },
        [innermost, outer @ ..] => match given(innermost, reference) {
            Some(argument) => original(outer, argument),
            None => Origin { trail, reference },
        },
    }
}

/// The argument that is given for a reference, if it is a parameter.
fn given<'t>(arguments: &'t [Resolved], reference: &Resolved) -> Option<&'t Resolved>
    ensures { option_copied result ≡ given_for arguments.now (out-Resolved reference.now) }
{
    match reference {
        Resolved::Parameter(number) => argument_at(arguments, *number),
        Resolved::Module { .. } => None,
    }
}

/// The arguments with others in front.
pub fn led_by<'t>(
    alloc: Global,
    arguments: &'t [Resolved],
    trail: &[&'t [Resolved]],
) -> Result<Vec<&'t [Resolved]>, NoMemory>
    ensures { IfOk result (λ made. map (λ xs. xs.now) made.items ≡ arguments.now ∷ map (λ xs. xs.now) trail.now) }
{
    let mut made = Vec::new(alloc);
    if made.push(arguments).is_err() {
        return Err(NoMemory);
    }
    if made.extend_from_slice(trail).is_err() {
        return Err(NoMemory);
    }
    Ok(made)
}
