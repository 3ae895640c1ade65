ghost use Rattle.std.specs.Prelude.{◌≡◌, Ok, Err};
ghost use Rattle.mapfile.specs.Checks.{answer, First};
ghost use Rattle.mapfile.specs.File.{checks};
ghost use Rattle.mapfile.specs.Rules.{Lawful};
ghost use Rattle.mapfile.specs.View.{Holds};

use super::Map;
use crate::fault::Fault;
use crate::reader::check_file;

impl<'a> Map<'a> {
    // Reads a file in place of what the map held, or refuses it and leaves the map.
    pub fn read(&mut self, file: &'a [u8]) -> Result<(), Fault>
        ensures value { result ≡ answer (checks file.now) tt }
        ensures accepts { result ≡ Ok tt → Lawful file.now }
        ensures lawful { Lawful file.now → result ≡ Ok tt }
        ensures filled { result ≡ Ok tt → Holds self.new file.now }
        ensures first { (e : Fault) → result ≡ Err e → First (checks file.now) e }
        ensures same { (e : Fault) → result ≡ Err e → self.new ≡ self.old }
    {
        let counts = check_file(file)?;
        *self = Map { file, counts };
        Ok(())
    }
}
