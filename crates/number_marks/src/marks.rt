//! The marks of numbers, and the least marked one.

ghost use Rattle.std.specs.Prelude.{◌≡◌, ◌+◌, ◌*◌, ◌/◌, ◌<◌, ◌≤◌, ◌^◌, ℕ, length, IfOk, IfSome, IfNone};
ghost use Rattle.number_marks.specs.Marks.{IsWritten, IsNextMark, mark_at};
ghost use Rattle.number_marks.specs.Least.{mark_of};

use crate::words::{bare, mark, next_marked, unmark};
use std::alloc::{AllocError, Global};
use std::marker::Model;

/// A set of numbers. The least of them, or that there is none, is known without a look at the marks.
#[derive(Drop)]
pub struct Marks {
    words: Vec<u64>,
    least: Option<usize>,
}

impl Model for Marks {
    ghost use Rattle.std.specs.Prelude.{List, ℕ};
    ghost use Rattle.number_marks.specs.Least.{IsKept};

    ghost Value = { List ℕ };

    ghost view = { λ m. m.words.items };

    ghost invariant = { λ m. IsKept m.words.items m.least };
}

impl Marks {
    /// No number is marked, and there is room for so many. No later call takes memory.
    pub fn new(alloc: Global, numbers: usize) -> Result<Marks, AllocError>
        requires { numbers ≤ 2 ^ 32 }
        ensures bare { IfOk result (λ m. (k : ℕ) → mark_at m k ≡ 0) }
        ensures size { IfOk result (λ m. length m ≡ numbers / 64 + 1) }
    {
        Ok(Marks {
            words: bare(alloc, numbers)?,
            least: None,
        })
    }

    /// Marks a number, or takes its mark away.
    pub fn write(&mut self, n: usize, marked: bool)
        requires { n < 64 * length self.old }
        ensures { IsWritten self.old self.new n (mark_of marked) }
    {
        if marked {
            self.mark(n);
        } else {
            self.unmark(n);
        }
    }

    /// Marks a number.
    pub fn mark(&mut self, n: usize)
        requires { n < 64 * length self.old }
        ensures { IsWritten self.old self.new n 1 }
    {
        mark(&mut self.words, n);
        match self.least {
            Some(least) if least < n => {}
            _ => self.least = Some(n),
        }
    }

    /// Takes a number's mark away.
    pub fn unmark(&mut self, n: usize)
        requires { n < 64 * length self.old }
        ensures { IsWritten self.old self.new n 0 }
    {
        unmark(&mut self.words, n);
        match self.least {
            Some(least) if least == n => self.least = next_marked(&self.words, n),
            _ => {}
        }
    }

    /// The least marked number that isn't below another. It looks at a word for 64 numbers after the least.
    pub fn next(&self, from: usize) -> Option<usize>
        ensures next { IfSome result (IsNextMark self.now from) }
        ensures none { IfNone result ((k : ℕ) → from ≤ k → mark_at self.now k ≡ 0) }
        ensures within { IfSome result (λ n. n < 64 * length self.now) }
    {
        match self.least {
            None => None,
            Some(least) if from <= least => Some(least),
            Some(_) => next_marked(&self.words, from),
        }
    }
}
