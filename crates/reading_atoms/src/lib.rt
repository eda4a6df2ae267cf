// The readers of a pattern's escapes, classes and quantifiers, each equal to its definition in specs/.
#![tactic(auto)]

mod braces;
mod byte_sets;
mod chars;
mod classes;
mod escapes;

pub use braces::{Braces, Repeat, braces_at, quantifier_at};
pub use byte_sets::{class_set, dot_set, literal_set, named_set};
pub use chars::byte_at;
pub use classes::{Class, class_at};
pub use escapes::{Escape, escape_at};
