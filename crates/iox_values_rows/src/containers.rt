//! Strings, vectors, queues, maps, cells and tables of numbers: what no contract of theirs can say.
//!
//! `sizes` checks that ample memory is enough at each size; `drops` checks the order in which items are dropped; `text_forms` checks
//! the JSON of strings, vectors and options; `texts` checks what `Display` and `Debug` show of values, also of a string with rules of
//! the caller, which `semantic` has; `options` checks what a write through an option leaves.
mod drops;
mod options;
mod semantic;
mod sizes;
mod text_forms;
mod texts;
