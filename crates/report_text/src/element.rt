ghost use Rattle.std.specs.Prelude.{◌≡◌, ◌++◌, OnOk, map, string_bytes};
ghost use Rattle.std.specs.Option.{option_copied};
ghost use Rattle.report_text.specs.Texts.{element_name, element_text, joined, upper_text};
ghost use Rattle.value_type.specs.declared.value.Value.{out-Value};

use crate::separator::push_separator;
use std::alloc::AllocError;
use value_type::{Poset, Value};

/// An element with the name of its poset.
pub fn push_element(
    text: &mut String,
    poset: Option<&Poset>,
    value: &Value,
) -> Result<(), AllocError>
    ensures { OnOk result (string_bytes text.new ≡ string_bytes text.old ++ element_text (option_copied poset.entry) (out-Value value.now)) }
{
    match poset {
        None => Ok(()),
        Some(poset) => match value {
            Value::El(element) => {
                text.push_str(poset.name.as_str())?;
                text.push_str(":")?;
                push_name(text, poset, *element)
            }
            _ => Ok(()),
        },
    }
}

/// The minimal elements of an upper set with the name of their poset.
pub fn push_upper(text: &mut String, poset: Option<&Poset>, value: &Value) -> Result<(), AllocError>
    ensures { OnOk result (string_bytes text.new ≡ string_bytes text.old ++ upper_text (option_copied poset.entry) (out-Value value.now)) }
{
    match poset {
        None => Ok(()),
        Some(poset) => match value {
            Value::Up(members) => {
                text.push_str(poset.name.as_str())?;
                text.push_str(":{")?;
                push_names(text, poset, members.items())?;
                text.push_str("}")
            }
            _ => Ok(()),
        },
    }
}

fn push_name(text: &mut String, poset: &Poset, element: u32) -> Result<(), AllocError>
    ensures { OnOk result (string_bytes text.new ≡ string_bytes text.old ++ element_name poset.now element) }
{
    match poset.elements.get(element as usize) {
        Some(name) => text.push_str(name.as_str()),
        None => Ok(()),
    }
}

#[tactic(auto, using(crate::proofs::JoinedLemmas::joining))]
fn push_names(text: &mut String, poset: &Poset, members: &[u32]) -> Result<(), AllocError>
    ensures { OnOk result (string_bytes text.new ≡ string_bytes text.old ++ joined (map (element_name poset.now) members.now)) }
{
    for (at, member) in members.iter().enumerate() {
        push_separator(text, at)?;
        push_name(text, poset, *member)?;
    }
    Ok(())
}
