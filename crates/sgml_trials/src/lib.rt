//! What trial programs share: files of cases that are answered line by line, and answers as text.
//!
//! A trial reads the files that its command names and prints the answer to each of their lines; the gate compares what
//! it prints with a file that was worked out apart. Stands on texts, stores and sinks.
#![tactic(auto)]

mod files;
mod spelled;
mod spelling;
mod writing;

pub use files::{Trial, answer_files, words};
pub use spelled::bytes_of;
pub use spelling::{number_of, put_meant, split_at};
pub use writing::{put, put_counted, put_number};
