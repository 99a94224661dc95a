ghost use Rattle.std.specs.Prelude.{◌≡◌, ◌<◌, ◌≤◌, IfOk, ℕ, List, length, map, option_and_then, slice_get};
ghost use Rattle.std.specs.Option.{option_copied};
ghost use Rattle.design_measure.specs.Orders.{IsOrderOf};
ghost use Rattle.design_measure.specs.Scales.{AreForms, IsFilled, IsFormOf, IsScale, Scale, links_value, or_zero, refer_value, value_of, weighed};

use crate::form::Form;
use crate::measuring::Measuring;
use order_core::NoMemory;
use reference_meaning::{Link, Module, ModuleBody, Resolved};
use std::alloc::Global;

/// The form of the module of this number.
fn form_at(forms: &[Form], number: u32) -> Option<&Form>
    ensures { option_copied result ≡ slice_get forms.now number }
{
    forms.get(number as usize)
}

/// The argument at this place.
fn argument_at(arguments: &[Resolved], at: usize) -> Option<&Resolved>
    ensures { option_copied result ≡ slice_get arguments.now at }
{
    arguments.get(at)
}

/// Has at least so many factors; those that are new are 0.
fn grow(factors: &mut Vec<u64>, size: usize) -> Result<(), NoMemory>
    ensures same { IfOk result (λ _. (a : Scale) → IsScale a → (values : List ℕ) → weighed a factors.new.items values ≡ weighed a factors.old.items values) }
    ensures long { IfOk result (λ _. size ≤ length factors.new.items) }
{
    if factors.len() < size {
        factors.resize(size, 0)?;
    }
    Ok(())
}

/// Adds to the factor of a parameter.
fn raise<M: Measuring>(measuring: &M, factors: &mut [u64], number: usize, factor: u64)
    requires { number < length factors.old }
    ensures { (values : List ℕ) → weighed (M.measure measuring.now).scale factors.new values ≡ (M.measure measuring.now).scale.plus (weighed (M.measure measuring.now).scale factors.old values) ((M.measure measuring.now).scale.times factor (or_zero (slice_get values number))) }
{
    factors[number] = measuring.plus(factors[number], factor);
}

/// Adds a parameter, times a factor, to a form.
fn add_parameter<M: Measuring>(
    measuring: &M,
    total: &mut Form,
    factor: u64,
    number: u32,
) -> Result<(), NoMemory>
    ensures { IfOk result (λ _. (values : List ℕ) → value_of (M.measure measuring.now).scale total.new values ≡ (M.measure measuring.now).scale.plus (value_of (M.measure measuring.now).scale total.old values) ((M.measure measuring.now).scale.times factor (or_zero (slice_get values number)))) }
{
    let number = number as usize;
    grow(&mut total.factors, number + 1)?;
    raise(measuring, &mut total.factors, number, factor);
    Ok(())
}

/// Adds what a reference measures, times a factor, to a form.
#[cycle(add)]
fn add<M: Measuring>(
    measuring: &M,
    forms: &[Form],
    total: &mut Form,
    factor: u64,
    reference: &Resolved,
) -> Result<(), NoMemory>
    ensures { IfOk result (λ _. (values : List ℕ) → value_of (M.measure measuring.now).scale total.new values ≡ (M.measure measuring.now).scale.plus (value_of (M.measure measuring.now).scale total.old values) ((M.measure measuring.now).scale.times factor (refer_value (M.measure measuring.now).scale forms.now values reference.now))) }
{
    match reference {
        Resolved::Parameter(number) => add_parameter(measuring, total, factor, *number),
        Resolved::Module { number, arguments } => match form_at(forms, *number) {
            Some(form) => {
                let constant = measuring.times(factor, form.constant);
                total.constant = measuring.plus(total.constant, constant);
                add_arguments(
                    measuring,
                    forms,
                    total,
                    factor,
                    &form.factors,
                    arguments.items(),
                )
            }
            None => Ok(()),
        },
    }
}

/// The same, and does nothing where the factor is 0: an argument that no body uses costs nothing.
#[cycle(add)]
fn add_unless_none<M: Measuring>(
    measuring: &M,
    forms: &[Form],
    total: &mut Form,
    factor: u64,
    reference: &Resolved,
) -> Result<(), NoMemory>
    ensures { IfOk result (λ _. (values : List ℕ) → value_of (M.measure measuring.now).scale total.new values ≡ (M.measure measuring.now).scale.plus (value_of (M.measure measuring.now).scale total.old values) ((M.measure measuring.now).scale.times factor (refer_value (M.measure measuring.now).scale forms.now values reference.now))) }
{
    if factor == 0 {
        return Ok(());
    }
    add(measuring, forms, total, factor, reference)
}

/// Adds what arguments measure, each times its own factor and this one, to a form.
#[cycle(add)]
fn add_arguments<M: Measuring>(
    measuring: &M,
    forms: &[Form],
    total: &mut Form,
    factor: u64,
    factors: &[u64],
    arguments: &[Resolved],
) -> Result<(), NoMemory>
    ensures { IfOk result (λ _. (values : List ℕ) → value_of (M.measure measuring.now).scale total.new values ≡ (M.measure measuring.now).scale.plus (value_of (M.measure measuring.now).scale total.old values) ((M.measure measuring.now).scale.times factor (weighed (M.measure measuring.now).scale factors.now (map (refer_value (M.measure measuring.now).scale forms.now values) arguments.now)))) }
{
    for at in 0..factors.len() {
        if let Some(argument) = argument_at(arguments, at) {
            let by = measuring.times(factor, factors[at]);
            add_unless_none(measuring, forms, total, by, argument)?;
        }
    }
    Ok(())
}

/// The form of links, each times the step, with this constant.
fn links_form<M: Measuring>(
    alloc: Global,
    measuring: &M,
    forms: &[Form],
    own: u64,
    links: &[Link],
) -> Result<Form, NoMemory>
    ensures { IfOk result (λ form. (values : List ℕ) → value_of (M.measure measuring.now).scale form values ≡ (M.measure measuring.now).scale.plus own ((M.measure measuring.now).scale.times (M.measure measuring.now).step (links_value (M.measure measuring.now).scale forms.now values links.now))) }
{
    let step = measuring.step();
    let mut total = Form {
        constant: own,
        factors: Vec::new(alloc),
    };
    for link in links {
        add(measuring, forms, &mut total, step, &link.reference)?;
    }
    Ok(total)
}

/// The form of a body.
fn body_form<M: Measuring>(
    alloc: Global,
    measuring: &M,
    forms: &[Form],
    body: &ModuleBody,
) -> Result<Form, NoMemory>
    ensures { IfOk result (IsFormOf (M.measure measuring.now) forms.now body.now) }
{
    match body {
        ModuleBody::Catalogue(rows) => Ok(Form {
            constant: measuring.catalogue(rows.items().len() as u64),
            factors: Vec::new(alloc),
        }),
        ModuleBody::Choice(branches) => {
            links_form(
                alloc,
                measuring,
                forms,
                measuring.choice(),
                branches.items(),
            )
        }
        ModuleBody::Net { parts, constraints } => {
            let own = measuring.net(constraints.items().len() as u64);
            links_form(alloc, measuring, forms, own, parts.items())
        }
    }
}

/// A form of nothing for each of so many modules.
fn no_forms(alloc: Global, modules: usize) -> Result<Vec<Form>, NoMemory>
    ensures { IfOk result (λ forms. length forms.items ≡ modules) }
{
    let mut forms = Vec::new(alloc);
    for _ in 0..modules {
        forms.push(Form {
            constant: 0,
            factors: Vec::new(alloc),
        })?;
    }
    Ok(forms)
}

/// The module of this number.
fn module_at(modules: &[Option<Module>], number: u32) -> Option<&Module>
    ensures { option_copied result ≡ option_and_then (λ named. named) (slice_get modules.now number) }
{
    match modules.get(number as usize) {
        Some(Some(named)) => Some(named),
        _ => None,
    }
}

/// Keeps the form of the module of this number, by the forms of those that it names.
fn fill<M: Measuring>(
    alloc: Global,
    measuring: &M,
    modules: &[Option<Module>],
    forms: &mut Vec<Form>,
    number: u32,
) -> Result<(), NoMemory>
    requires { length forms.old.items ≡ length modules.now }
    ensures { IfOk result (λ _. IsFilled (M.measure measuring.now) (option_and_then (λ named. named) (slice_get modules.now number)) forms.old.items number forms.new.items) }
{
    if let Some(named) = module_at(modules, number) {
        let form = body_form(alloc, measuring, forms, &named.body)?;
        forms[number as usize] = form;
    }
    Ok(())
}

/// The form of each module. The order goes from the modules that name no other one up.
pub fn forms_of<M: Measuring>(
    alloc: Global,
    measuring: &M,
    modules: &[Option<Module>],
    order: &[u32],
) -> Result<Vec<Form>, NoMemory>
    requires { IsOrderOf modules.now order.now }
    ensures { IfOk result (λ forms. AreForms (M.measure measuring.now) modules.now forms.items) }
{
    let mut forms = no_forms(alloc, modules.len())?;
    for number in order {
        fill(alloc, measuring, modules, &mut forms, *number)?;
    }
    Ok(forms)
}
