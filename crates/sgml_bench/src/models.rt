// Models of many names, and the words of all names in order: how long the automaton takes to build,
// steps to take and questions to answer.
ghost use Rattle.sgml_automaton.specs.Automaton.{IsStateOf};

use sgml_automaton::{Automaton, ModelState, build};
use sgml_model::{GroupLimits, GroupToken, read_group};
use sgml_text::{Memory, Name};
use std::alloc::Global;
use std::time::Instant;

const LIMITS: GroupLimits = GroupLimits {
    count: 100_000,
    total: 100_000,
    level: 16,
};

#[derive(Clone, Copy)]
enum Shape {
    Any,
    One,
    All,
    Order,
    Rounds,
    Inner,
    Titled,
}

// The shape of this name.
fn shape_of(word: &str) -> Option<Shape> {
    match word {
        "any" => Some(Shape::Any),
        "one" => Some(Shape::One),
        "all" => Some(Shape::All),
        "order" => Some(Shape::Order),
        "rounds" => Some(Shape::Rounds),
        "inner" => Some(Shape::Inner),
        "titled" => Some(Shape::Titled),
        _ => None,
    }
}

fn name(alloc: Global, n: u32) -> Result<Name, Memory> {
    let digits = [
        b'N',
        b'0' + (n / 10_000 % 10) as u8,
        b'0' + (n / 1_000 % 10) as u8,
        b'0' + (n / 100 % 10) as u8,
        b'0' + (n / 10 % 10) as u8,
        b'0' + (n % 10) as u8,
    ];
    Ok(Name::of(digits.to_vec(alloc)?))
}

fn title(alloc: Global) -> Result<Name, Memory> {
    Ok(Name::of([b'T'].to_vec(alloc)?))
}

fn names(alloc: Global, shape: Shape, size: u32) -> Result<Vec<Name>, Memory> {
    let mut names = Vec::new(alloc);
    if matches!(shape, Shape::Titled) {
        names.push(title(alloc)?)?;
    }
    for n in 0..size {
        names.push(name(alloc, n)?)?;
    }
    Ok(names)
}

fn between(shape: Shape) -> GroupToken {
    match shape {
        Shape::All => GroupToken::Seq,
        Shape::Order => GroupToken::Seq,
        Shape::Rounds => GroupToken::Seq,
        _ => GroupToken::Or,
    }
}

// Each name can be left out.
fn is_optional(shape: Shape) -> bool {
    matches!(shape, Shape::Order) || matches!(shape, Shape::Rounds)
}

// The group can come again.
fn is_repeated(shape: Shape) -> bool {
    match shape {
        Shape::One => false,
        Shape::All => false,
        Shape::Order => false,
        _ => true,
    }
}

fn list(alloc: Global, shape: Shape, size: u32) -> Result<Vec<GroupToken>, Memory> {
    let mut tokens = Vec::new(alloc);
    tokens.push(GroupToken::Begin)?;
    for n in 0..size {
        if n > 0 {
            tokens.push(between(shape))?;
        }
        tokens.push(GroupToken::Name(name(alloc, n)?))?;
        if is_optional(shape) {
            tokens.push(GroupToken::Opt)?;
        }
    }
    tokens.push(GroupToken::Finish)?;
    if is_repeated(shape) {
        tokens.push(GroupToken::Rep)?;
    }
    Ok(tokens)
}

fn within(alloc: Global, titled: bool, list: Vec<GroupToken>) -> Result<Vec<GroupToken>, Memory> {
    let mut tokens = Vec::new(alloc);
    tokens.push(GroupToken::Begin)?;
    if titled {
        tokens.push(GroupToken::Name(title(alloc)?))?;
        tokens.push(GroupToken::Seq)?;
    }
    for token in list {
        tokens.push(token)?;
    }
    tokens.push(GroupToken::Finish)?;
    Ok(tokens)
}

fn group(alloc: Global, shape: Shape, size: u32) -> Result<Vec<GroupToken>, Memory> {
    let list = list(alloc, shape, size)?;
    match shape {
        Shape::Inner => within(alloc, false, list),
        Shape::Titled => within(alloc, true, list),
        _ => Ok(list),
    }
}

// How many names of one word are taken, where a name that can't come is tried at the start.
fn walk(automaton: &Automaton, names: &[Name], state: &mut ModelState) -> u64
    requires { IsStateOf automaton.now state.old }
    ensures { IsStateOf automaton.now state.new }
{
    let mut taken: u64 = 0;
    for name in names {
        if automaton.step(state, Some(name)) || again(automaton, name, state) {
            taken = taken.saturating_add(1);
        }
    }
    taken
}

// A step at the start.
fn again(automaton: &Automaton, name: &Name, state: &mut ModelState) -> bool
    requires { IsStateOf automaton.now state.old }
    ensures { IsStateOf automaton.now state.new }
{
    automaton.reset(state);
    automaton.step(state, Some(name))
}

// How many questions are answered with yes.
fn ask(automaton: &Automaton, names: &[Name], state: &ModelState) -> u64
    requires { IsStateOf automaton.now state.now }
{
    let mut yes: u64 = 0;
    for name in names {
        if automaton.takes(state, Some(name)) {
            yes = yes.saturating_add(1);
        }
        if automaton.finished(state) {
            yes = yes.saturating_add(1);
        }
        if automaton.required(state).is_some() {
            yes = yes.saturating_add(1);
        }
    }
    yes
}

fn walks(alloc: Global, automaton: &Automaton, names: &[Name], rounds: u32) -> Result<u64, Memory> {
    let mut taken: u64 = 0;
    for _ in 0..rounds {
        let mut state = automaton.state(alloc)?;
        taken = taken.saturating_add(walk(automaton, names, &mut state));
    }
    Ok(taken)
}

fn asks(alloc: Global, automaton: &Automaton, names: &[Name], rounds: u32) -> Result<u64, Memory> {
    let mut yes: u64 = 0;
    for _ in 0..rounds {
        let mut state = automaton.state(alloc)?;
        yes = yes.saturating_add(ask(automaton, names, &state));
        let first = names.first();
        let _ = automaton.step(&mut state, first);
        yes = yes.saturating_add(ask(automaton, names, &state));
    }
    Ok(yes)
}

fn measure_walks(
    rt: &HostRuntime,
    automaton: &Automaton,
    names: &[Name],
    rounds: u32,
) -> Option<()> {
    let start = Instant::now(rt).ok()?;
    let taken = walks(rt.alloc(), automaton, names, rounds).ok()?;
    let time = start.elapsed(rt).ok()?;
    let _ = println!(rt; "{} steps taken: {:?}", taken, time);
    Some(())
}

fn measure_asks(
    rt: &HostRuntime,
    automaton: &Automaton,
    names: &[Name],
    rounds: u32,
) -> Option<()> {
    let start = Instant::now(rt).ok()?;
    let yes = asks(rt.alloc(), automaton, names, rounds).ok()?;
    let time = start.elapsed(rt).ok()?;
    let _ = println!(rt; "{} answers are yes: {:?}", yes, time);
    Some(())
}

// The automaton of a model of this shape. Tells how long it took to build.
fn built(rt: &HostRuntime, shape: Shape, size: u32) -> Option<Box<Automaton>> {
    let alloc = rt.alloc();
    let tokens = group(alloc, shape, size).ok()?;
    let model = read_group(alloc, &tokens, LIMITS).ok()?;
    let start = Instant::now(rt).ok()?;
    let mut automaton = build(alloc, model).ok()?;
    automaton.prepare(alloc).ok()?;
    let automaton = Box::new(alloc, automaton).ok()?;
    let time = start.elapsed(rt).ok()?;
    let _ = println!(rt; "build: {:?}", time);
    Some(automaton)
}

fn measure_model(rt: &HostRuntime, shape: Shape, size: u32) -> Option<()> {
    let names = names(rt.alloc(), shape, size).ok()?;
    let automaton = built(rt, shape, size)?;
    let rounds = 1_000_000u32.checked_div(size)?;
    measure_walks(rt, &automaton, &names, rounds)?;
    measure_asks(rt, &automaton, &names, rounds)
}

pub fn measure(rt: &HostRuntime, shape: &str, size: &str) {
    let Some(shape) = shape_of(shape) else {
        return;
    };
    let Ok(size) = size.parse::<u32>() else {
        return;
    };
    if size == 0 || size > 20_000 {
        return;
    }
    let _ = measure_model(rt, shape, size);
}
