ghost use Rattle.std.specs.Prelude.{◌≡◌, IfOk, string_bytes};
ghost use Rattle.console.specs.Lines.{meaning};
ghost use Rattle.console.specs.Session.{answer_to, book_after};
ghost use Rattle.console.specs.Words.{said};
ghost use Rattle.planner.specs.State.{book};

use super::answer::{Answer, Denial};
use super::line::parse;
use planner::planner::Planner;
use std::alloc::{AllocError, Global};

// Reads a line and makes its call.
pub fn handle(planner: &mut Planner<'_>, line: &[u8]) -> Result<(), Denial>
    ensures answer { result ≡ answer_to planner.old.map.counts (book planner.old) (meaning line.now) }
    ensures book { book planner.new ≡ book_after planner.old.map.counts (book planner.old) (meaning line.now) }
    ensures map { planner.new.map ≡ planner.old.map }
{
    let change = parse(line).ok_or(Denial::Unreadable)?;
    planner.make(change)?;
    Ok(())
}

// The line that is printed for an answer, without its end.
pub fn printed(heap: Global, answer: Answer) -> Result<String, AllocError>
    ensures { IfOk result (λ s. string_bytes s ≡ said answer.0) }
{
    format!(in heap; "{answer}")
}
