ghost use Rattle.std.specs.Prelude.{◌≡◌, ◌+◌, ◌≤◌, length, IfOk, OnOk};
ghost use Rattle.mapfile.specs.Bytes.{word};
ghost use Rattle.mapfile.specs.Checks.{answer};
ghost use Rattle.mapfile.specs.Contents.{line_checks, contents_checks, length_checks};
ghost use Rattle.mapfile.specs.Codes.{line, most};
ghost use Rattle.mapfile.specs.Layout.{counts as file_counts, end};
ghost use Rattle.mapfile.specs.Rules.{Limited};

use super::body::BodyKind;
use super::bytes::{long_at, word_at};
use super::counts::Counts;
use super::fault::{Breach, Fault};

// Checks the line of a kind, whose body is due at byte `due`, and answers its count of records.
fn check_line(file: &[u8], kind: BodyKind, due: usize) -> Result<usize, Fault>
    requires { 26 ≤ length file.now }
    ensures value { result ≡ answer (line_checks file.now kind due) (word file.now (line kind + 2)) }
    ensures bound { IfOk result (λ n. n ≤ most kind) }
{
    let at = kind.line();
    if file[at] != u8::from(kind) {
        return Err(Breach::Contents.at(at));
    }
    if file[at + 1] != 0 {
        return Err(Breach::Contents.at(at + 1));
    }
    let count = word_at(file, at + 2);
    if !kind.limits().contains(&count) {
        return Err(Breach::Count.at(at + 2));
    }
    if long_at(file, at + 4) as usize != due {
        return Err(Breach::Contents.at(at + 4));
    }
    Ok(count as usize)
}

// Checks the contents of a file and answers the counts of its records.
pub fn check_contents(file: &[u8]) -> Result<Counts, Fault>
    ensures value { result ≡ answer (contents_checks file.now) (file_counts file.now) }
    ensures bound { IfOk result Limited }
{
    if file.len() < 26 {
        return Err(Breach::Short.at(file.len()));
    }
    if file[0] != 1 {
        return Err(Breach::Edition.at(0));
    }
    if file[1] != 3 {
        return Err(Breach::Contents.at(1));
    }
    // `Counts::start` cannot say where a body is due: the counts of the kinds that follow are not known there yet.
    let places = check_line(file, BodyKind::Places, 26)?;
    let links = check_line(file, BodyKind::Links, 26 + 4 * places)?;
    let signals = check_line(file, BodyKind::Signals, 26 + 4 * places + 12 * links)?;
    Ok(Counts {
        places,
        links,
        signals,
    })
}
