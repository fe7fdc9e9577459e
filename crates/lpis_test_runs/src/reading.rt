//! How often a reader is asked.

ghost use Rattle.std.specs.Prelude.{◌≤◌};

use lpis_run::{ReadFault, read_all};
use std::io;
use std::io::{Error, ErrorKind, Read};
use std::test::Fail;

/// A reader that is interrupted at each read, and counts them.
#[derive(Drop)]
struct Interrupted {
    reads: usize,
}

impl Read for Interrupted {
    fn read(&mut self, _buf: &mut [u8]) -> io::Result<usize> {
        self.reads = self.reads.saturating_add(1);
        Err(Error::from(ErrorKind::Interrupted))
    }
}

/// Fails unless a reader that never ends is asked so often under this limit, and then given up.
fn expect_reads(rt: &HostRuntime, limit: usize, wanted: usize) -> Result<(), Fail>
    requires { limit ≤ 1000 }
{
    let mut reader = Interrupted { reads: 0 };
    match read_all(rt.alloc(), &mut reader, limit) {
        Err(ReadFault::Read) if reader.reads == wanted => Ok(()),
        _ => Err(Fail::new(format_args!("{} reads under the limit {limit}", reader.reads))),
    }
}

#[test]
fn a_reader_that_never_ends_is_given_up(rt: HostRuntime) -> Result<(), Fail> {
    expect_reads(&rt, 0, 16)?;
    expect_reads(&rt, 4, 24)
}
