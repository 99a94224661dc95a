ghost use Rattle.std.specs.Prelude.{◌≡◌, ◌<◌, ◌^◌, IfOk, true};
ghost use Rattle.design_measure.specs.Orders.{IsOrderOf};
ghost use Rattle.module_link.specs.Links.{AreModulesOf};
ghost use Rattle.order_core.specs.NumbersBelow.{numbers_below};

use name_table::{Names, references_fall};
use order_core::NoMemory;
use reference_meaning::Module;
use std::alloc::Global;

/// The numbers of the files, each after those of the files that it refers to.
pub fn order_of(
    alloc: Global,
    names: &Names,
    modules: &[Option<Module>],
) -> Result<Vec<u32>, NoMemory>
    requires { AreModulesOf names.now.files names.now.tables names.now.types modules.now }
    ensures { IfOk result (λ order. IsOrderOf modules.now order.items) }
{
    references_fall(names);
    let mut order = numbers(alloc, modules.len() as u32)?;
    order.sort_unstable_by_key(|number| names.rank(*number));
    Ok(order)
}

/// The numbers below a count.
fn numbers(alloc: Global, count: u32) -> Result<Vec<u32>, NoMemory>
    ensures { IfOk result (λ made. made.items ≡ numbers_below count (λ x. true)) }
{
    let mut made = Vec::new(alloc);
    for number in 0..count {
        made.push(number)?;
    }
    Ok(made)
}
