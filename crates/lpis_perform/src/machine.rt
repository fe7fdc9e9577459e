//! What a command runs on.

ghost use Rattle.std.specs.Prelude.{IfOk, List, Result, ℕ};
ghost use Rattle.lpis_command_line.specs.declared.commands.Job.{Job};
ghost use Rattle.lpis_perform.specs.Standing.{Opens, Standing};
ghost use Rattle.lpis_run.specs.declared.failure.Failure.{Failure};

use lpis_command_line::Job;
use lpis_run::Failure;
use std::alloc::AllocError;
use std::io::{Read, Write};

/// What opening a file came to.
#[derive(Drop)]
pub enum Opened<F: Drop> {
    /// The file.
    File(F),
    /// None stands at its path.
    Missing,
    /// It cannot be opened.
    Failed,
}

/// What a command runs on: files at paths.
pub trait Machine {
    /// A file that is read.
    type File: Read + Drop;

    /// A file that is created, or emptied, at its first write.
    type Created: Write + Drop;

    /// What is known to stand at each path.
    ghost standing: { Self → List ℕ → Standing };

    /// A file is the one that is created at a path, and nothing was written to it.
    ghost creates: { Self → List ℕ → Self.Created → Type 0 };

    /// Opens the file at a path.
    fn open(&self, path: &str) -> Opened<Self::File>
        ensures { Opens Self.File.remaining (standing self.now path.now) result };

    /// The file that is created at a path, where something is written to it.
    fn create(&self, path: &str) -> Result<Self::Created, AllocError>
        ensures { IfOk result (λ file. creates self.now path.now file) };
}

/// Where registers are.
pub trait Registers {
    /// What a job with the register at a path may come to.
    ghost works: { Self → List ℕ → Job → Result ℕ Failure → Type 0 };

    /// Opens the register at a path, or makes one there, does a job with it and closes it.
    fn in_register(&self, path: &str, job: &Job<'_>) -> Result<u8, Failure>
        ensures { works self.now path.now job.now result };
}
