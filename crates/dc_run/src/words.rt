ghost use Rattle.std.specs.Prelude.{◌≡◌, ◌⊎◌, Err};
ghost use Rattle.dc_run.specs.declared.verdict.Verdict.{Verdict as Verdicts};

use crate::verdict::Verdict;
use std::alloc::AllocError;
use std::env;
use std::env::Env;
use std::io::ErrorKind;

/// The words of the command line; the first is the program's name. One that is no UTF-8 is no command's word.
pub fn words_of<R: Env + AllocGlobal>(rt: &R) -> Result<Vec<String>, Verdict>
    ensures faults { (fault : Verdicts) → result ≡ Err fault → (fault ≡ Verdict.Usage) ⊎ (fault ≡ Verdict.WantOfMemory) }
{
    match env::args(rt) {
        Ok(words) => match words.collect(rt.alloc()) {
            Ok(words) => Ok(words),
            Err(AllocError) => Err(Verdict::WantOfMemory),
        },
        Err(error) if error.kind() == ErrorKind::OutOfMemory => Err(Verdict::WantOfMemory),
        Err(_) => Err(Verdict::Usage),
    }
}
