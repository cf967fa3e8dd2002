//! How much is listed at most.

ghost use Rattle.std.specs.Prelude.{◌≡◌, ◌+◌, ◌<◌, OnOk, OnErr, IfErr};
ghost use Rattle.lft_whole.specs.declared.sources.{stop.NoProgram.TheVariants.Refused, why.Why.TheVariants.TooMuch};

use lft_whole::sources::{FileRefusal, NoProgram, Place, Why};

/// How many bytes of names, and things, may be listed of all reactors and settings together.
const MOST: u64 = 1 << 23;

/// What may be listed still. Bases in a long chain, and settings of a large reactor, make a product of two
/// lengths: so what is listed is counted before.
#[derive(Clone, Copy, Debug)]
pub struct Work {
    left: u64,
    main: Place,
}

impl Work {
    /// Nothing is listed yet. The main reactor is at the place.
    pub fn of(main: Place) -> Work
        ensures { result ≡ record { left = MOST; main = main } }
    {
        Work { left: MOST, main }
    }

    /// Counts what is to be listed.
    pub fn spend(&mut self, amount: u64) -> Result<(), NoProgram>
        ensures ok { OnOk result (self.old.left ≡ self.new.left + amount) }
        ensures main { self.new.main ≡ self.old.main }
        ensures few { OnErr result (self.old.left < amount) }
        ensures why { IfErr result (λ stop. stop ≡ Refused (record { why = TooMuch; place = self.old.main })) }
        ensures err { OnErr result (self.new ≡ self.old) }
    {
        match self.left.checked_sub(amount) {
            Some(left) => {
                self.left = left;
                Ok(())
            }
            None => Err(self.refused(Why::TooMuch)),
        }
    }

    /// A refusal of the program as a whole.
    pub fn refused(&self, why: Why) -> NoProgram
        ensures { result ≡ Refused (record { why = why; place = self.now.main }) }
    {
        NoProgram::Refused(FileRefusal {
            why,
            place: self.main,
        })
    }
}
