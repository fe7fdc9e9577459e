//! What a run prints.

ghost use Rattle.std.specs.Prelude.{◌≡◌, IfErr, IfOk, IsOk, OnOk};
ghost use Rattle.std.specs.Io.KnownBytes.{Appends};
ghost use Rattle.lpis_run.specs.Refusals.{line_in_region, refusal_text};
ghost use Rattle.lpis_run.specs.Status.{unreadable};
ghost use Rattle.lpis_run.specs.Streams.{Begins};
ghost use Rattle.lpis_run.specs.declared.failure.Failure.{Failure};
ghost use Rattle.lpis_run.specs.declared.failure.Name.{Name};

use crate::failure::{Failure, Name};
use crate::outputs::write_text;
use crate::printing::PrintFault;
use crate::refusal::{print_region, print_table_fault};
use crate::status::UNREADABLE;
use lpis_tables::TableFault;
use std::alloc::{AllocError, Global};
use std::io::Write;

/// What a run prints, and the status that it ends with. It is known before anything is written.
#[derive(Drop)]
pub struct Answer {
    /// The text.
    pub text: Vec<u8>,
    /// The status.
    pub status: u8,
}

impl Answer {
    /// A text that was printed, with this status. Where it was not, memory ran out.
    pub fn of(
        text: Vec<u8>,
        status: u8,
        printed: Result<(), PrintFault>,
    ) -> Result<Answer, AllocError>
        ensures { IfOk result (λ a. IsOk printed × (a ≡ record { text = text; status = status })) }
    {
        match printed {
            Ok(()) => Ok(Answer { text, status }),
            Err(_) => Err(AllocError),
        }
    }

    /// The line of a refused table.
    pub fn refuse_table(alloc: Global, fault: &TableFault) -> Result<Answer, AllocError>
        ensures { IfOk result (λ a. (a.text.items ≡ refusal_text fault.now)
            × (a.status ≡ unreadable)) }
    {
        let mut text = Vec::new(alloc);
        let printed = print_table_fault(fault, &mut text);
        Answer::of(text, UNREADABLE, printed)
    }

    /// The same line with the region that it is of, at its end.
    pub fn in_region(self, region: &str) -> Result<Answer, AllocError>
        ensures { IfOk result (λ a. (a.text.items ≡ line_in_region self.text.items region.now)
            × (a.status ≡ self.status)) }
    {
        let Answer { mut text, status } = self;
        // A line ends with its line feed.
        let _feed = text.pop();
        let printed = print_region(region, &mut text);
        Answer::of(text, status, printed)
    }

    /// Writes its text. Ok is its status.
    pub fn write_to<W: Write>(&self, out: &mut W) -> Result<u8, Failure>
        ensures status { IfOk result (λ status. status ≡ self.now.status) }
        ensures text { OnOk result (Appends (W.contents out.old) (W.contents out.new)
            self.now.text.items) }
        ensures failure { IfErr result (λ failure. (failure ≡ Failure.Write Name.Out)
            × Begins (W.contents out.old) (W.contents out.new) self.now.text.items) }
    {
        write_text(self.text.as_slice(), Name::Out, out)?;
        Ok(self.status)
    }
}
