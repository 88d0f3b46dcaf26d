// The rule of the board's table, and the names of its steps.
ghost use Rattle.sgml_runs.specs.Runs.{runs_by};
ghost use Rattle.sgml_runs.specs.Rule.{IsKept, opening_view, spent_view};
ghost use Rattle.sgml_runs.specs.Steps.{Claims, Lifts, Marks, Looks, Takes, Tells, kept_part, cut_part, both_views};

use crate::expected::Expected;
use crate::run::Run;
use crate::scan::Scan;
use crate::view::View;
use atomic_table::{Join, Play, Split, TableRule};
use std::marker::PhantomData;

pub struct Kept<S> {
    of: PhantomData<S>,
}

impl<S: Scan> TableRule<Option<Run<S::Token>>, View<S::Token>, Expected<S, S::Texts>> for Kept<S> {
    ghost holds = { λ key. IsKept (runs_by S.scanned key) };

    ghost first = { λ key. opening_view (runs_by S.scanned key) };
}

pub struct Claim;

impl<T> Play<Option<Run<T>>, View<T>> for Claim {
    ghost then = { Claims };
}

pub struct Lift;

impl<T> Play<Option<Run<T>>, View<T>> for Lift {
    ghost then = { Lifts };
}

pub struct Mark;

impl<T> Play<Option<Run<T>>, View<T>> for Mark {
    ghost then = { Marks };
}

pub struct Look;

impl<T> Play<Option<Run<T>>, View<T>> for Look {
    ghost then = { Looks };
}

pub struct Take;

impl<T> Play<Option<Run<T>>, View<T>> for Take {
    ghost then = { Takes };
}

pub struct Tell;

impl<T> Play<Option<Run<T>>, View<T>> for Tell {
    ghost then = { Tells };
}

pub struct Parts;

impl<T> Split<View<T>> for Parts {
    ghost left = { kept_part };

    ghost right = { cut_part };
}

impl<T> Join<View<T>> for Parts {
    ghost both = { both_views };

    ghost spent = { spent_view };
}
