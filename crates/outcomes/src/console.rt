//! The streams of the process, under the name of the program that uses them.
use command_line::Program;
use std::alloc::Global;
use std::rt::Runtime;

/// The process, and the program that it runs.
#[derive(Drop)]
pub struct Console<'a, R> {
    pub rt: &'a R,
    pub program: Program,
}

impl<R> Console<'_, R> {
    /// Returns the program's name.
    pub fn program(&self) -> &'static str {
        self.program.name()
    }
}

impl<'a, R: Runtime + AllocGlobal> Console<'a, R> {
    /// Creates the console of a program.
    pub fn new(rt: &'a R, program: Program) -> Console<'a, R> {
        Console { rt, program }
    }

    /// Returns the allocator.
    pub fn alloc(&self) -> Global {
        self.rt.alloc()
    }
}
