//! Taking all that a source has, and putting all of some bytes.
ghost use Rattle.std.specs.Prelude.{◌-◌, ◌<◌, ◌≤◌, IfErr, IfOk, OnErr, OnOk, vec_len};
ghost use Rattle.nc_io.specs.Adds.{Adds, AddsFront};
ghost use Rattle.nc_io.specs.Causes.{HasCause};
ghost use Rattle.nc_io.specs.Pieces.{IsReadFault, TakesFront, TakesPiece, TakesWhole};

use crate::{Failed, Sink, Source};
use std::alloc::Global;

/// How many bytes one turn asks for at most.
const PIECE: usize = 4096;

/// Why the input can't be had.
#[derive(Clone, Copy, Debug, PartialEq, Eq)]
pub enum Fault {
    /// The source failed.
    Read,
    /// No memory was left.
    Memory,
}

/// Takes a piece from the source, and appends it.
fn take_piece<S: Source>(source: &mut S, bytes: &mut Vec<u8>, limit: usize) -> Result<usize, Fault>
    requires below { vec_len bytes.old < limit }
    ensures piece { IfOk result (TakesPiece (S.left source.old) (S.left source.new) bytes.old.items
        bytes.new.items limit) }
    ensures front { OnErr result (TakesFront (S.left source.old) (S.left source.new)
        (limit - vec_len bytes.old)) }
    ensures later { S.faults source.old ≤ S.faults source.new }
    ensures fault { IfErr result (IsReadFault (S.faults source.old) (S.faults source.new)) }
{
    let mut buf = [0u8; PIECE];
    let room = (limit - bytes.len()).min(PIECE);
    match source.take(&mut buf[..room]) {
        Ok(count) => match bytes.extend_from_slice(&buf[..count]) {
            Ok(()) => Ok(count),
            Err(_) => Err(Fault::Memory),
        },
        Err(_) => Err(Fault::Read),
    }
}

/// Takes all that the source has, or as many bytes as the limit, in pieces of at most 4,096 bytes. On an error the bytes
/// that were taken before are lost.
#[tactic(auto, using(crate::proofs::PiecesLemmas::front_after))]
pub fn take_whole<S: Source>(alloc: Global, source: &mut S, limit: usize) -> Result<Vec<u8>, Fault>
    ensures whole { IfOk result (λ bytes. TakesWhole (S.left source.old) (S.left source.new)
        bytes.items limit) }
    ensures front { OnErr result (TakesFront (S.left source.old) (S.left source.new) limit) }
    ensures later { S.faults source.old ≤ S.faults source.new }
    ensures fault { IfErr result (IsReadFault (S.faults source.old) (S.faults source.new)) }
{
    let mut bytes = Vec::new(alloc);
    'pieces: while bytes.len() < limit {
        if take_piece(source, &mut bytes, limit)? == 0 {
            break;
        }
    }
    Ok(bytes)
}

/// Puts all of the bytes. Each turn offers all that are left, and the first failure ends it.
pub fn put_whole<K: Sink>(sink: &mut K, bytes: &[u8]) -> Result<(), Failed>
    ensures ok { OnOk result (Adds (K.written sink.old) (K.written sink.new) bytes.now) }
    ensures err { OnErr result (AddsFront (K.written sink.old) (K.written sink.new) bytes.now) }
    ensures cause { HasCause (K.faults sink.old) (K.faults sink.new) result }
{
    let mut at = 0;
    'turns: while at < bytes.len() {
        at += sink.put(&bytes[at..])?;
    }
    Ok(())
}
