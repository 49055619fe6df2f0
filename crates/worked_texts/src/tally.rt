//! The lines that are printed, and their count.

use crate::difference::Difference;
use std::io;

/// How many lines said that all is well, and how many that something isn't.
#[derive(Clone, Copy, Debug, Drop)]
pub struct Tally {
    /// How many lines said that all is well.
    pub passed: u32,
    /// How many lines said that something isn't.
    pub failed: u32,
}

impl Tally {
    /// Nothing was said yet.
    pub fn new() -> Tally {
        Tally {
            passed: 0,
            failed: 0,
        }
    }

    /// Prints how the run of a text went, and counts it.
    pub fn tell(
        &mut self,
        rt: &HostRuntime,
        name: &str,
        found: &Option<Difference>,
    ) -> io::Result<()> {
        match found {
            None => {
                self.passed = self.passed.saturating_add(1);
                println!(rt; "ok {name}")
            }
            Some(difference) => self.fail(rt, name, difference),
        }
    }

    /// Prints why something failed, and counts it.
    pub fn fail(
        &mut self,
        rt: &HostRuntime,
        name: &str,
        why: &impl std::fmt::Display,
    ) -> io::Result<()> {
        self.failed = self.failed.saturating_add(1);
        println!(rt; "failed {name}: {why}")
    }
}
