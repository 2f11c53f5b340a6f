//! How a reply is put.
ghost use Rattle.std.specs.Prelude.{◌≡◌, ◌≤◌, IfOk, IsTrue, OnOk};
ghost use Rattle.a429_console.specs.Outputs.{CountsFault, IsPut};
ghost use Rattle.a429_console.specs.WholeReplies.{IsReplyPut, finding_status};

use crate::answered::{Answered, answer_with};
use crate::output::endings::put_answer;
use crate::output::{Output, OutputFault};
use crate::refusals::{Refused, refuse_as};
use crate::reply::Reply;
use std::alloc::Global;

/// 1 if something was found, otherwise 0.
pub fn finding_status(found: bool) -> u8
    ensures { result ≡ finding_status found }
{
    if found { 1 } else { 0 }
}

/// Puts what a command answers, or the line of its refusal. If an allocation for that line fails, the line is `refused
/// memory`. The status is that of the reply, or `trouble` after a refusal. Error: the
/// output failed.
pub fn put_reply<O: Output>(
    alloc: Global,
    reply: Result<Reply, Refused>,
    trouble: u8,
    out: &mut O,
) -> Result<Answered, OutputFault>
    requires { 1 ≤ trouble }
    ensures put { IfOk result (IsPut (IsReplyPut trouble reply) (O.contents out.old) (O.contents out.new)) }
    ensures status { IfOk result (λ status. status ≤ trouble) }
    ensures flushed { OnOk result (IsTrue (O.is_flushed out.new)) }
    ensures faults { CountsFault result (O.failures out.old) (O.failures out.new) }
{
    match reply {
        Ok(reply) => answer_with(put_answer(&reply.bytes, reply.status, out), reply.found),
        Err(refusal) => refuse_as(alloc, refusal, trouble, out),
    }
}
