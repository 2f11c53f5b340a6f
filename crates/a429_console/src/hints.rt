//! Hints to a person about a refusal.
ghost use Rattle.std.specs.Prelude.{◌≡◌, ◌≤◌, ◌+◌, []};

pub mod warnings;

use crate::answered::Answered;
use crate::hints::warnings::Warning;
use crate::output::Output;
use crate::output::endings::put_whole;
use a429_arguments::requests::Asked;
use std::alloc::Global;
use std::io;
use std::io::Write;

/// Gives a person a hint on what to do about a refusal. No contract rests on its text. It is written to a text in memory
/// first, and then to the error output.
pub trait Hints {
    /// Writes the warnings about what a request was answered, and then the hint, if there is one. Error: the writer's, or an
    /// allocation fails.
    fn tell<V: Write>(
        &self,
        alloc: Global,
        asked: &Asked,
        answered: &Answered,
        warnings: &[Warning],
        err: &mut V,
    ) -> io::Result<()>;

    /// Writes what may have been meant instead of a usage error, if anything. Error: the writer's, or an allocation
    /// fails.
    fn tell_mistake<V: Write>(&self, alloc: Global, words: &[&str], err: &mut V) -> io::Result<()>;
}

/// Writes to `err` what can be done about a request that was answered so: the warnings, and then the hint, if there is one.
/// If there is no warning and the status is 0, nothing is written. If memory does not suffice for the text, nothing is
/// written. If `err` fails, that changes nothing else.
pub fn tell_hints<H: Hints, V: Output>(
    alloc: Global,
    asked: &Asked,
    answered: &Answered,
    warnings: &[Warning],
    hints: &H,
    err: &mut V,
)
    ensures once { (V.failures err.new).count ≤ (V.failures err.old).count + 1 }
    ensures quiet { warnings.now ≡ [] → answered.now ≡ 0 → err.new ≡ err.old }
{
    if warnings.is_empty() && answered.status() == 0 {
        return;
    }
    let mut text = Vec::new(alloc);
    // a part of a hint would end in a broken line
    if hints
        .tell(alloc, asked, answered, warnings, &mut text)
        .is_ok()
    {
        let _ = put_whole(&text, err);
    }
}
