//! Measures single layers. It is told which one, and the size or the file: `delims 100000`,
//! `tokens 100000`, `lexemes 100000` (section starts, and literals of tags), `starts 100000` (the values
//! of start-tags, in nanoseconds a call), `lines FILE`; for content models of many names the shape of the
//! model and how many names it has: `models any 1000` is `(N0|N1|..)*`, `one` is `(N0|N1|..)`, `all` is
//! `(N0,N1,..)`, `order` is `(N0?,N1?,..)`, `rounds` is `(N0?,N1?,..)*`, `inner` is `((N0|N1|..)*)` and
//! `titled` is `(T,(N0|N1|..)*)`. It prints what took how long; without words it prints nothing.
#![tactic(auto)]

mod delims;
mod lexemes;
mod lines;
mod models;
mod starts;
mod tokens;

use sgml_trials::words;

fn measure(rt: &HostRuntime, layer: &str, of: &str) {
    match layer {
        "delims" => delims::measure(rt, of),
        "lexemes" => lexemes::measure(rt, of),
        "lines" => lines::measure(rt, of),
        "starts" => starts::measure(rt, of),
        "tokens" => tokens::measure(rt, of),
        _ => {}
    }
}

fn main(rt: HostRuntime) {
    let Ok(words) = words(rt.alloc(), &rt) else {
        return;
    };
    match words.as_slice() {
        [layer, of] => measure(&rt, layer.as_str(), of.as_str()),
        [layer, shape, size] if layer.as_str() == "models" => {
            models::measure(&rt, shape.as_str(), size.as_str())
        }
        _ => {}
    }
}
