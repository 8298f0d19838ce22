//! The two top calls.

ghost use Rattle.std.specs.Prelude.{◌≡◌};
ghost use Rattle.ostore_cli.specs.Promise.{KeepsPromise, end_of};

use crate::answers::{answer_to, print_answer};
use crate::outcome::{Gate, Outcome};
use crate::words::Words;
use ostore_address_space::Mapper;
use ostore_base::{Disk, Sink, Source};
use std::alloc::Global;
use std::sync::Wait;
use std::thread::Threads;

/// Does what the words ask for, with the bytes of a source as its input, and prints to a sink. The
/// statuses and what each of them means stand in the clause `promise`. The disk comes back; `try`,
/// which is all that is built today, makes no call on it.
///
/// It passes every list of words to [`ostore_turns`], which waits for nobody.
pub fn ostore<
    R: Threads + Wait + Copy + Send + Sync,
    S: Source,
    K: Sink,
    D: Disk + Send,
    M: Mapper + Sync,
    G: Gate + Sync,
>(
    _rt: R,
    alloc: Global,
    words: &Words,
    source: &mut S,
    sink: &mut K,
    disk: D,
    mapper: &M,
    _gate: &G,
) -> Outcome<D>
    ensures disk { result.disk ≡ disk }
    ensures promise { KeepsPromise (record {
      words = words.now;
      source = end_of S.left S.faults source.old;
      source_after = end_of S.left S.faults source.new;
      sink = end_of K.written K.faults sink.old;
      sink_after = end_of K.written K.faults sink.new;
    }) result.status }
{
    ostore_turns(alloc, words, source, sink, disk, mapper)
}

/// Does what the words ask for on the caller's thread, and always returns.
pub fn ostore_turns<S: Source, K: Sink, D: Disk, M: Mapper>(
    alloc: Global,
    words: &Words,
    source: &mut S,
    sink: &mut K,
    disk: D,
    mapper: &M,
) -> Outcome<D>
    ensures disk { result.disk ≡ disk }
    ensures promise { KeepsPromise (record {
      words = words.now;
      source = end_of S.left S.faults source.old;
      source_after = end_of S.left S.faults source.new;
      sink = end_of K.written K.faults sink.old;
      sink_after = end_of K.written K.faults sink.new;
    }) result.status }
{
    let answer = answer_to(alloc, words, source, mapper);
    let status = print_answer(sink, answer);
    Outcome { status, disk }
}
