//! What an item of a module is, and the form of each: what is wrong with a declaration or a clause by itself.
#![tactic(auto)]

mod arguments;
mod declarations;
mod forms;
mod heads;
mod item;
mod parameters;
mod parts;

pub use arguments::{argument_mode, argument_type, category_named, is_moded};
pub use forms::{check_forms, own_name};
pub use heads::is_foreign;
pub use item::{Item, item_of};
