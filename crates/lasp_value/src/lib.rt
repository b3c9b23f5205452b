//! Values, which are read from JSON and printed as JSON, the tokens that mark where a value was added, texts and names: what every state of the runtime is made of.
//! Contracts speak of them by plain data (`val_of`, `tok_of`, lists of bytes), since a boxed enum is otherwise seen with its pointers.
//! `Lattice` is what each state is: an element of a join semilattice. It changes only by joining, so that it only rises, and replicas that joined the same states are the same, in whatever order and
//! however often they came.
#![tactic(auto)]

mod json;
mod lattice;
mod name;
mod places;
mod print;
mod refused;
mod size;
mod text;
mod token;
mod value;
mod values;

pub use json::value_of_json;
pub use lattice::Lattice;
pub use name::Name;
pub use places::join_all;
pub use print::{print_into, print_value};
pub use refused::ValueRefused;
pub use text::Text;
pub use token::Token;
pub use value::Value;
pub use values::Values;
