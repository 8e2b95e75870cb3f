//! The tool as a static library, for programs in C or Rust that link it.
#![tactic(auto)]

ghost use Rattle.linked.specs.Linked.{Tells};
ghost use Rattle.report.specs.Pages.{report_of};

use linked::linked::{Told, vojemity_tell as told_by_tool};

/// Tells what a cell file and a process file come to.
#[unsafe(no_mangle)]
pub extern "C" fn vojemity_tell(cell: &[u8], process: &[u8], told: &mut Told)
    ensures { Tells told.new (report_of cell.now process.now) }
{
    told_by_tool(cell, process, told);
}
