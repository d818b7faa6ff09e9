//! The lines of class files as text: the listing of a class (JVMS 4), what each line of one says,
//! and the class that lines make.
#![tactic(auto)]

pub mod class_lines;
mod code_lines;
pub mod drafts;
mod encoding;
pub mod item_reading;
mod item_writing;
pub mod items;
pub mod line_names;
mod lines;
pub mod places;
mod pool_lines;
pub mod shapes;
mod words;

pub use class_lines::listing;
