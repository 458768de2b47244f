// What the program `keys` prints of three files: a store's records line by line, or why there are none.
#![tactic(auto)]

mod files;
mod text;
mod walk;

pub use files::run;
