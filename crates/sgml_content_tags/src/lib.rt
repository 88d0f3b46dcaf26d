//! Steps for tags of content and for the end of the document (ISO 8879 7.1, 7.4, 7.5, 7.9, 11.3.4).
//!
//! It stands on what a step of content is and on the tags that are left out before a visible piece. A step judges
//! its tag where it stands, then the values of a start, and then takes the run of omitted tags and the tag, which
//! can't fail any more. The parser goes from step to step.
#![tactic(auto)]

mod beginning;
mod closing;
mod document;
mod empty;
mod ends;
mod names;
mod net;
mod quick;
mod starts;
mod values;

pub use document::finish;
pub use ends::{take_empty_end, take_end, take_net};
pub use quick::{try_lone_end, try_start};
pub use sgml_content_steps as content_steps;
pub use sgml_infer as infer;
pub use starts::{take_empty_start, take_start};
