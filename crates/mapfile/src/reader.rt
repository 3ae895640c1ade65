ghost use Rattle.std.specs.Prelude.{◌≡◌};
ghost use Rattle.mapfile.specs.Checks.{answer};
ghost use Rattle.mapfile.specs.File.{checks};
ghost use Rattle.mapfile.specs.Layout.{counts as file_counts};

use super::bodies::Bodies;
use super::contents::check_contents;
use super::counts::Counts;
use super::fault::Fault;
use super::link::Link;
use super::records::Place;
use super::signal::Signal;

// Checks a whole file and answers the counts of its records.
pub fn check_file(file: &[u8]) -> Result<Counts, Fault>
    ensures { result ≡ answer (checks file.now) (file_counts file.now) }
{
    let counts = check_contents(file)?;
    let bodies = Bodies::of(file, counts)?;
    bodies.check::<Place>()?;
    bodies.check::<Link>()?;
    bodies.check::<Signal>()?;
    Ok(counts)
}
