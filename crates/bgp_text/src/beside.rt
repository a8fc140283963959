//! Routes beside their path identifiers (RFC 7911, section 3).

use crate::source::Source;
use bgp_paths::PathRun;

/// A route, and its path identifier where it has one.
#[derive(Clone, Copy)]
pub(crate) struct Beside<T> {
    pub(crate) route: T,
    pub(crate) path: Option<u32>,
}

/// Routes, each with the path identifier beside it.
#[derive(Clone, Copy)]
pub(crate) struct BesideIter<S, N> {
    pub(crate) routes: S,
    pub(crate) numbers: N,
}

/// What one source has, and after it what another has.
#[derive(Clone, Copy)]
pub(crate) struct Both<A, B> {
    pub(crate) first: A,
    pub(crate) second: B,
}

impl<'a> Source for PathRun<'a> {
    ghost use Rattle.bgp_paths.specs.Prelude.{numbers_left};

    type Item = u32;

    ghost left = { numbers_left };

    fn step(&mut self) -> Option<u32> {
        self.next_number()
    }
}

impl<S: Source, N: Source<Item = u32>> Source for BesideIter<S, N> {
    ghost use Rattle.bgp_text.specs.Beside.{beside};

    type Item = Beside<S::Item>;

    ghost left = { λ s. beside (S.left s.routes) (N.left s.numbers) };

    fn step(&mut self) -> Option<Beside<S::Item>> {
        let route = self.routes.step()?;
        Some(Beside {
            route,
            path: self.numbers.step(),
        })
    }
}

impl<T, A: Source<Item = T>, B: Source<Item = T>> Source for Both<A, B> {
    ghost use Rattle.std.specs.Prelude.{◌++◌};

    type Item = T;

    ghost left = { λ s. A.left s.first ++ B.left s.second };

    fn step(&mut self) -> Option<T> {
        match self.first.step() {
            Some(value) => Some(value),
            None => self.second.step(),
        }
    }
}
