//! How commands end.
ghost use Rattle.std.specs.Prelude.{◌≡◌, ◌≤◌, ◌+◌, ◌++◌, ◌∷◌, [], true, false, IfOk, OnOk, IsTrue};
ghost use Rattle.std.specs.Io.KnownBytes.{Appends};
ghost use Rattle.a429_console.specs.Outputs.{CountsFault, NoneFailed, ending, failed_line, is_closing, memory_refused, status_of};

use crate::output::{Output, OutputFault};

/// The line `refused memory`, with an ending.
macro_rules! refused_memory {
    ($ending:literal) => {
        concat!("refused memory", $ending)
    };
}

/// The text of the refusal of memory.
pub const REFUSED_MEMORY: &str = refused_memory!("");

/// Its line: a constant, since to put it must take no memory.
const REFUSED_MEMORY_LINE: &str = refused_memory!("\n");

/// The line for a person, if the output failed.
const OUTPUT_FAILED: &[u8] = b"a429: standard output failed\n";

/// Puts a text whole and passes it on. Error: the output failed.
pub fn put_whole<O: Output>(text: &[u8], out: &mut O) -> Result<(), OutputFault>
    ensures text { OnOk result (Appends (O.contents out.old) (O.contents out.new) text.now) }
    ensures flushed { OnOk result (IsTrue (O.is_flushed out.new)) }
    ensures faults { CountsFault result (O.failures out.old) (O.failures out.new) }
{
    out.put(text)?;
    out.flush()
}

/// Puts a text whole and passes it on. The status is this one. Error: the output failed.
pub fn put_answer<O: Output>(text: &[u8], status: u8, out: &mut O) -> Result<u8, OutputFault>
    ensures status { IfOk result (λ answered. answered ≡ status) }
    ensures text { OnOk result (Appends (O.contents out.old) (O.contents out.new) text.now) }
    ensures flushed { OnOk result (IsTrue (O.is_flushed out.new)) }
    ensures faults { CountsFault result (O.failures out.old) (O.failures out.new) }
{
    put_whole(text, out)?;
    Ok(status)
}

/// Puts the line that says that an allocation failed. The status is this one. Error: the output failed.
pub fn refuse_memory_as<O: Output>(status: u8, out: &mut O) -> Result<u8, OutputFault>
    ensures status { IfOk result (λ answered. answered ≡ status) }
    ensures line { OnOk result (Appends (O.contents out.old) (O.contents out.new) (memory_refused ++ 10 ∷ [])) }
    ensures flushed { OnOk result (IsTrue (O.is_flushed out.new)) }
    ensures faults { CountsFault result (O.failures out.old) (O.failures out.new) }
{
    put_answer(REFUSED_MEMORY_LINE.as_bytes(), status, out)
}

/// Puts the line that says that an allocation failed. The status is 1. Error: the output failed.
pub fn refuse_memory<O: Output>(out: &mut O) -> Result<u8, OutputFault>
    ensures status { IfOk result (λ status. status ≡ 1) }
    ensures line { OnOk result (Appends (O.contents out.old) (O.contents out.new) (memory_refused ++ 10 ∷ [])) }
    ensures flushed { OnOk result (IsTrue (O.is_flushed out.new)) }
    ensures faults { CountsFault result (O.failures out.old) (O.failures out.new) }
{
    refuse_memory_as(1, out)
}

/// Puts the lines that are left, and after them, if memory did not suffice for all, the one that says so. The status is
/// 0, or 1 if memory did not suffice. Error: the output failed.
pub fn finish<O: Output>(left: &[u8], sufficed: bool, out: &mut O) -> Result<u8, OutputFault>
    ensures status { IfOk result (λ status. status ≡ status_of sufficed) }
    ensures put { OnOk result (Appends (O.contents out.old) (O.contents out.new) (left.now ++ ending sufficed)) }
    ensures flushed { OnOk result (IsTrue (O.is_flushed out.new)) }
    ensures faults { CountsFault result (O.failures out.old) (O.failures out.new) }
{
    out.put(left)?;
    if !sufficed {
        return refuse_memory(out);
    }
    out.flush()?;
    Ok(0)
}

/// Writes to `err` that standard output failed. If its reader has closed standard output, it writes nothing.
pub fn tell_fault<V: Output>(fault: OutputFault, err: &mut V)
    ensures announced { is_closing fault ≡ false → NoneFailed (V.failures err.old) (V.failures err.new)
        → Appends (V.contents err.old) (V.contents err.new) failed_line }
    ensures hushed { is_closing fault ≡ true → err.new ≡ err.old }
    ensures once { (V.failures err.new).count ≤ (V.failures err.old).count + 1 }
{
    match fault {
        OutputFault::Closed => {}
        OutputFault::Failed => {
            // if this output fails too, the status says so
            let _ = put_whole(OUTPUT_FAILED, err);
        }
    }
}
