// The words of the command line, out of what the system gives a program.
ghost use Rattle.std.specs.Prelude.{◌≡◌, ◌≢◌, ◌↔◌, [], map, drop, ⊤, IfOk, IsOk, MatchResult};
ghost use Rattle.std.specs.IoError.{error_kind};
ghost use Rattle.std.specs.Rc.{rc_str_bytes};
ghost use Rattle.std.specs.String.{string_bytes};
ghost use Rattle.std.specs.Vec.Iter.{into_iter_items};

use kv_model::NoMemory;
use std::alloc::Global;
use std::env::Args;
use std::io::{self, ErrorKind};
use std::rc::RcStr;

// All that are left, in their order.
fn words_of(alloc: Global, arguments: Args) -> Result<Vec<RcStr>, NoMemory>
    ensures { IfOk result (λ words.
        map rc_str_bytes words.items ≡ map string_bytes (into_iter_items arguments)) }
{
    let mut words = Vec::new(alloc);
    for argument in arguments {
        words.push(RcStr::from_string(argument)?)?;
    }
    Ok(words)
}

/// The words behind the program's name, each once and in their order. There are none where the
/// arguments can't be read, as where one of them isn't UTF-8: that is no command.
///
/// # Errors
/// For want of memory alone.
pub fn words_behind_name(alloc: Global, arguments: io::Result<Args>) -> Result<Vec<RcStr>, NoMemory>
    ensures words { IfOk result (λ words. MatchResult arguments
        (λ all. map rc_str_bytes words.items ≡ drop 1 (map string_bytes (into_iter_items all)))
        (λ _. words.items ≡ [])) }
    ensures unread { MatchResult arguments (λ _. ⊤)
        (λ error. IsOk result ↔ (error_kind error ≢ ErrorKind.OutOfMemory)) }
{
    match arguments {
        Ok(mut arguments) => {
            let _name = arguments.next();
            words_of(alloc, arguments)
        }
        Err(error) if error.kind() == ErrorKind::OutOfMemory => Err(NoMemory),
        Err(_) => Ok(Vec::new(alloc)),
    }
}
