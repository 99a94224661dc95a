ghost use Rattle.std.specs.Prelude.{◌≡◌, IfOk, slice_get};
ghost use Rattle.design_measure.specs.Measured.{AreMeasured, constant_in, told};
ghost use Rattle.design_measure.specs.Orders.{IsOrderOf};

use crate::form::Form;
use crate::forms::forms_of;
use crate::measuring::{Depths, Sizes};
use order_core::{List, NoMemory};
use reference_meaning::Module;
use std::alloc::Global;

/// How deep and how large a design is: its depth up to 65, and its size up to 10,001. So each is past its limit exactly
/// where it is this greatest number.
#[derive(Clone, Copy, Debug, PartialEq, Eq, Drop)]
pub struct Measured {
    pub depth: u64,
    pub size: u64,
}

/// The constant of the form at a place.
fn constant_at(forms: &[Form], at: usize) -> u64
    ensures { result ≡ constant_in (slice_get forms.now at) }
{
    match forms.get(at) {
        Some(form) => form.constant,
        None => 0,
    }
}

/// How deep and how large the designs of modules without parameters are. The order goes from the modules that name no
/// other one up. Nothing is expanded: it takes a step for each reference and each argument, and an argument that no body
/// uses takes none.
pub fn measures_of(
    alloc: Global,
    modules: &[Option<Module>],
    order: &[u32],
) -> Result<List<Measured>, NoMemory>
    requires { IsOrderOf modules.now order.now }
    ensures { IfOk result (AreMeasured modules.now) }
{
    let depths = forms_of(alloc, &Depths, modules, order)?;
    let sizes = forms_of(alloc, &Sizes, modules, order)?;
    let mut made = Vec::new(alloc);
    for at in 0..modules.len() {
        made.push(Measured {
            depth: constant_at(&depths, at).min(66).saturating_sub(1),
            size: constant_at(&sizes, at).min(10_001),
        })?;
    }
    Ok(List::of(made))
}
