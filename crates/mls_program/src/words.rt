//! Reading the command line.

ghost use Rattle.std.specs.Prelude.{IfErr};
ghost use Rattle.mls_commands.specs.Orders.{IsHelp};

use mls_commands::OrderFault;
use std::rt::Env;
use std::{env, io};

/// Returns the words of the command line, of which the first is the program's name. No postcondition says that they are
/// those of the process.
///
/// # Errors
///
/// `Memory` if an allocation fails; `Usage` if a word is not UTF-8 text.
pub fn read_words<R: Env + AllocGlobal>(rt: &R) -> Result<Vec<String>, OrderFault>
    ensures never_help { IfErr result (λ e. IsHelp e → ⊥) }
{
    let alloc = rt.alloc();
    match env::args(rt) {
        Ok(words) => Ok(words.collect(alloc)?),
        Err(error) if error.kind() == io::ErrorKind::OutOfMemory => Err(OrderFault::Memory),
        Err(_) => {
            let text = String::from_str(alloc, "usage: a word is not UTF-8 text\n")?;
            Err(OrderFault::Usage(text))
        }
    }
}
