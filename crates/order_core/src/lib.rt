//! Lists, texts, numbers, and orders on values.
#![tactic(auto)]

mod boxed;
mod choices;
mod closing;
mod finite;
mod list;
mod minimal;
mod num;
mod num_laws;
mod order;
mod text;
mod tuple;
mod upper;
mod word;

pub use boxed::Boxed;
pub use choices::{Copier, copied, product_of};
pub use finite::{FiniteOrder, OrderFault};
pub use list::List;
pub use num::{MAX_COUNT, Num, NumOrder};
pub use num_laws::{
    number_operations_are_commutative, number_operations_are_monotone, numbers_make_numbers,
    numbers_worked_out,
};
pub use order::{NoMemory, Order};
pub use text::Text;
pub use tuple::TupleOrder;
pub use upper::UpperOrder;
pub use word::is_in_word;
