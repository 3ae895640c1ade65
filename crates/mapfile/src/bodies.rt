ghost use Rattle.std.specs.Prelude.{◌≡◌, ◌*◌, length, Ok, Err, OnOk, IfOk, IfErr};
ghost use Rattle.mapfile.specs.Bytes.{part};
ghost use Rattle.mapfile.specs.Checks.{answer};
ghost use Rattle.mapfile.specs.Codes.{size};
ghost use Rattle.mapfile.specs.Contents.{length_checks};
ghost use Rattle.mapfile.specs.Layout.{count, start};
ghost use Rattle.mapfile.specs.Rules.{Limited, Sized};

use super::body::{Body, BodyKind, Part};
use super::counts::Counts;
use super::fault::{Breach, Fault};
use super::records::Record;

// The bodies of a file whose records are as many as `counts` says.
#[derive(Clone, Copy)]
pub struct Bodies<'a> {
    pub file: &'a [u8],
    pub counts: Counts,
    ghost sized: { Sized file.now counts },
}

impl<'a> Bodies<'a> {
    ghost use Rattle.mapfile.specs.Bodies.{shown, body_of, body_checks};

    // The bodies of a file, which ends where the last of them ends.
    pub fn of(file: &'a [u8], counts: Counts) -> Result<Bodies<'a>, Fault>
        requires { Limited counts }
        ensures kept { OnOk result (answer (length_checks file.now counts) counts ≡ Ok counts) }
        ensures file { IfOk result (λ b. b.file.now ≡ file.now) }
        ensures counts { IfOk result (λ b. b.counts ≡ counts) }
        ensures broken { IfErr result (λ e. answer (length_checks file.now counts) counts ≡ Err e) }
    {
        let due = counts.end();
        if file.len() != due {
            return Err(Breach::Length.at(file.len().min(due)));
        }
        Ok(Bodies { file, counts })
    }

    // The part of the file that holds the records of a kind.
    pub fn part(&self, kind: BodyKind) -> Part<'a>
        ensures first { result.first ≡ start self.now.counts kind }
        ensures bytes { result.bytes.now ≡ part self.now.file.now (start self.now.counts kind) (size kind * count self.now.counts kind) }
        ensures long { length result.bytes.now ≡ size kind * count self.now.counts kind }
    {
        let first = self.counts.start(kind);
        let end = first + kind.size() * self.counts.of(kind);
        Part {
            first,
            bytes: &self.file[first..end],
        }
    }

    // Hands out the body of a kind.
    pub fn body(&self, kind: BodyKind) -> Body<'a>
        ensures { shown result ≡ body_of self.now.file.now self.now.counts kind }
    {
        let part = self.part(kind);
        match kind {
            BodyKind::Places => Body::Places(part),
            BodyKind::Links => Body::Links(part),
            BodyKind::Signals => Body::Signals(part),
        }
    }

    // Checks all records of a kind.
    pub fn check<R: Record>(&self) -> Result<(), Fault>
        ensures { result ≡ answer (body_checks (body_of self.now.file.now self.now.counts R.KIND) self.now.counts) tt }
    {
        let part = self.part(R::KIND);
        let size = R::KIND.size();
        let mut before = 0;
        for (i, bytes) in part.bytes.chunks_exact(size).enumerate() {
            before = R::check(bytes, part.first + size * i, self.counts, before)?;
        }
        Ok(())
    }
}
