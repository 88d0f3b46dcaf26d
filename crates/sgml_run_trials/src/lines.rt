// The lines of the files.
use sgml_text::{Memory, Text};
use sgml_trials::Trial;
use std::alloc::Global;

/// The lines that were read, one after the other.
#[derive(Drop)]
pub struct Lines {
    pub lines: Vec<Text>,
}

impl Lines {
    pub fn new(alloc: Global) -> Self {
        Lines {
            lines: Vec::new(alloc),
        }
    }
}

impl Trial for Lines {
    // It keeps the line, since a trial has no threads, and prints nothing.
    fn answer(
        &mut self,
        rt: &HostRuntime,
        file: &str,
        line: &[u8],
        out: &mut Vec<u8>,
    ) -> Result<(), Memory> {
        self.lines.push(Text::copied(rt.alloc(), line)?)?;
        Ok(())
    }
}
