//! The machine of the operating system.

use lpis_command_line::Job;
use lpis_perform::{Machine, Opened, Registers, work};
use lpis_register_file::open_file;
use lpis_run::Failure;
use lpis_run_publish::refuse_register;
use sqlite::{Connection, Unknown};
use std::alloc::AllocError;
use std::fs::File;
use std::io::{ErrorKind, Write};
use std::{fs, io};

/// The machine of the operating system.
#[derive(Drop)]
pub(crate) struct Host<'a> {
    rt: &'a HostRuntime,
}

impl<'a> Host<'a> {
    /// The one that this runtime gives.
    pub(crate) fn new(rt: &'a HostRuntime) -> Host<'a> {
        Host { rt }
    }
}

/// A file at a path, which is created, or emptied, where something is written to it, and not
/// before.
#[derive(Drop)]
pub(crate) struct Created<'a> {
    rt: &'a HostRuntime,
    path: String,
    file: Option<File>,
}

impl Write for Created<'_> {
    fn write(&mut self, buf: &[u8]) -> io::Result<usize> {
        let mut file = match self.file.take() {
            Some(file) => file,
            None => fs::create(self.rt, self.path.as_str())?,
        };
        let written = file.write(buf);
        self.file = Some(file);
        written
    }

    fn flush(&mut self) -> io::Result<()> {
        Ok(())
    }
}

impl<'a> Machine for Host<'a> {
    ghost use Rattle.lpis_perform.specs.Standing.{Unknown};

    type File = File;

    type Created = Created<'a>;

    // Nothing is known of what stands at a path, nor of what is created there.
    ghost standing = { λ _ _. Unknown };

    ghost creates = { λ _ _ _. Unit {0} };

    fn open(&self, path: &str) -> Opened<File> {
        match fs::open(self.rt, path) {
            Ok(file) => Opened::File(file),
            Err(error) if error.kind() == ErrorKind::NotFound => Opened::Missing,
            Err(_) => Opened::Failed,
        }
    }

    fn create(&self, path: &str) -> Result<Created<'a>, AllocError> {
        Ok(Created {
            rt: self.rt,
            path: String::from_str(self.rt.alloc(), path)?,
            file: None,
        })
    }
}

impl Registers for Host<'_> {
    // Nothing is known of the register at a path.
    ghost works = { λ _ _ _ _. Unit {0} };

    /// No other function names a register over files: each that does is proved over all of the
    /// database engine.
    fn in_register(&self, path: &str, job: &Job<'_>) -> Result<u8, Failure> {
        let alloc = self.rt.alloc();
        let mut out = self.rt.stdout();
        let opened = Connection::open_from(self.rt, path, false, Unknown);
        match open_file(alloc, opened) {
            Ok(mut register) => {
                let ran = work(alloc, self, &mut register, job, &mut out);
                // Its log goes into its file. What was published stands in the log, whether or not
                // this succeeds; the next opening finds it there.
                let _ = register.into_connection().close();
                ran
            }
            Err((fault, _left)) => refuse_register(alloc, &fault, &mut out),
        }
    }
}
