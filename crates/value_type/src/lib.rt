//! Types of values, values and rows of them, and their orders.
#![tactic(auto)]

mod bounds;
mod copy;
mod fits;
mod kind;
mod laws;
mod least;
mod leq;
mod order;
mod port;
mod poset;
mod print;
mod row;
mod same;
mod scaling;
mod value;
mod wrap;

pub use kind::{Kind, copy_kinds};
pub use laws::{print_orders_are_total, scaling_is_exact, types_have_forms, values_are_in_order};
pub use order::{RowOrder, RowOrderRef, ValueOrder};
pub use port::{Port, PortUnit, copy_ports, kinds_of, ports_fit, ports_leq};
pub use poset::{Poset, Types};
pub use print::{print_order, print_order_rows};
pub use row::Row;
pub use scaling::scale;
pub use value::Value;
