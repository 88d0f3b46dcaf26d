// The cases of a file, a line each: a word, and behind a TAB a group, and what else it is about. A line
// that begins with a blank or is empty is a heading.
//
// `limits` sets GRPCNT, GRPGTCNT and GRPLVL; `group` reads a group; `walk` takes the tokens of a word
// from its model. All other words are questions to the automaton: `built` what it has, `places` what
// it answers at each place of a word, `same` whether two words lead to one state, `copy` what a copy
// of a state answers.
use crate::automata::{put_clash, tell_built, tell_copy, tell_places, tell_same};
use crate::groups::{put_refusal, read};
use crate::residuals::tell_walk;
use sgml_automaton::{Automaton, build};
use sgml_model::{GroupLimits, Model};
use sgml_text::Memory;
use sgml_trials::{Trial, number_of, put, split_at};
use std::alloc::Global;

pub const GREATEST: GroupLimits = GroupLimits {
    count: 10_000,
    total: 10_000,
    level: 1_000,
};

fn limits_of(text: &[u8]) -> GroupLimits {
    let (count, rest) = split_at(text, b' ');
    let (total, level) = split_at(rest, b' ');
    GroupLimits {
        count: number_of(count),
        total: number_of(total),
        level: number_of(level),
    }
}

fn tell_automaton(
    alloc: Global,
    word: &[u8],
    automaton: &Automaton,
    rest: &[u8],
    out: &mut Vec<u8>,
) -> Result<(), Memory> {
    let (first, second) = split_at(rest, b'\t');
    match word {
        b"built" => tell_built(alloc, automaton, out),
        b"places" => tell_places(alloc, automaton, first, out),
        b"same" => tell_same(alloc, automaton, first, second, out),
        b"copy" => tell_copy(alloc, automaton, first, out),
        _ => put(out, "what?"),
    }
}

fn tell(
    alloc: Global,
    word: &[u8],
    model: Model,
    rest: &[u8],
    out: &mut Vec<u8>,
) -> Result<(), Memory> {
    match word {
        b"group" => return put(out, "a group"),
        b"walk" => return tell_walk(alloc, &model, rest, out),
        _ => {}
    }
    match build(alloc, model) {
        Ok(mut automaton) => {
            automaton.prepare(alloc)?;
            tell_automaton(alloc, word, &automaton, rest, out)
        }
        Err(error) => put_clash(alloc, out, &error),
    }
}

fn answer(
    alloc: Global,
    limits: GroupLimits,
    word: &[u8],
    rest: &[u8],
    out: &mut Vec<u8>,
) -> Result<(), Memory> {
    let (group, rest) = split_at(rest, b'\t');
    match read(alloc, group, limits) {
        Ok(model) => tell(alloc, word, model, rest, out),
        Err(error) => put_refusal(alloc, out, error),
    }
}

/// The limits of the groups that are read.
#[derive(Clone, Copy)]
pub struct Models {
    pub limits: GroupLimits,
}

impl Trial for Models {
    // A line, and the answer to it.
    fn answer(
        &mut self,
        rt: &HostRuntime,
        file: &str,
        line: &[u8],
        out: &mut Vec<u8>,
    ) -> Result<(), Memory> {
        let (word, rest) = split_at(line, b'\t');
        out.extend_from_slice(line)?;
        match word {
            b"" => {}
            [b' ', ..] => {}
            b"limits" => self.limits = limits_of(rest),
            _ => {
                out.push(b'\t')?;
                answer(rt.alloc(), self.limits, word, rest, out)?;
            }
        }
        out.push(b'\n')?;
        Ok(())
    }
}
