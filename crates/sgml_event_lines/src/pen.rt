// What is on its way to the sink, and what was defined.
use sgml_esis::Held;

/// Bytes that the sink hasn't been given, and which entities and notations were defined, by their
/// numbers.
#[derive(Drop)]
pub struct Pen {
    pub held: Held,
    pub entities: Vec<bool>,
    pub notations: Vec<bool>,
}
