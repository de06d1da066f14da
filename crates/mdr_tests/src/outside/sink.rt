// The sink in memory, and a writer that fails.

use crate::expect::expect;
use mdr_outside::{OutSink, Sink, SinkAnswer, VecSink};
use std::io;
use std::io::{Error, ErrorKind, Write};
use std::process::Abort;
use std::test::Fail;

/// A piece, and what the sink answers.
pub(super) type Piece = (&'static [u8], SinkAnswer);

fn is_piece<S: Sink>(sink: &mut S, piece: &Piece) -> bool {
    sink.write(piece.0) == piece.1
}

pub(super) fn expect_pieces<S: Sink>(rt: &impl Abort, sink: &mut S, pieces: &[Piece]) {
    for piece in pieces {
        expect(rt, is_piece(sink, piece), piece);
    }
}

/// A piece, what the sink answers, and the bytes that it then holds.
type Held = (&'static [u8], SinkAnswer, &'static [u8]);

fn holds(sink: &VecSink, bytes: &[u8]) -> bool {
    sink.bytes() == bytes
}

fn is_held(sink: &mut VecSink, piece: &Held) -> bool {
    sink.write(piece.0) == piece.1 && holds(sink, piece.2)
}

fn expect_held(rt: &impl Abort, sink: &mut VecSink, pieces: &[Held]) {
    for piece in pieces {
        expect(rt, is_held(sink, piece), piece);
    }
}

const ONE_BYTE: &[Held] = &[
    (b"abc", SinkAnswer::Ok(1), b"a"),
    (b"bc", SinkAnswer::Failed, b"a"),
    (b"bc", SinkAnswer::Ok(1), b"ab"),
    (b"", SinkAnswer::Ok(0), b"ab"),
    (b"c", SinkAnswer::Ok(1), b"abc"),
    (b"d", SinkAnswer::Failed, b"abc"),
    (b"", SinkAnswer::Ok(0), b"abc"),
];

#[test]
fn takes_one_byte_a_call(rt: HostRuntime) -> Result<(), Fail> {
    let fails = Vec::from_slice(rt.alloc(), &[2])?;
    let mut sink = VecSink::new(rt.alloc(), 3, 1, fails)?;
    expect_held(&rt, &mut sink, ONE_BYTE);
    drop(sink);
    Ok(())
}

const FOUR_BYTES: &[Held] = &[
    (b"abcdef", SinkAnswer::Ok(3), b"abc"),
    (b"def", SinkAnswer::Ok(1), b"abcd"),
    (b"ef", SinkAnswer::Failed, b"abcd"),
];

#[test]
fn takes_what_there_is_room_for(rt: HostRuntime) -> Result<(), Fail> {
    let mut sink = VecSink::new(rt.alloc(), 4, 3, Vec::new(rt.alloc()))?;
    expect_held(&rt, &mut sink, FOUR_BYTES);
    drop(sink);
    Ok(())
}

const NO_BYTES: &[Held] = &[
    (b"", SinkAnswer::Ok(0), b""),
    (b"a", SinkAnswer::Failed, b""),
];

#[test]
fn takes_nothing_without_room(rt: HostRuntime) -> Result<(), Fail> {
    let mut sink = VecSink::new(rt.alloc(), 0, 1, Vec::new(rt.alloc()))?;
    expect_held(&rt, &mut sink, NO_BYTES);
    drop(sink);
    Ok(())
}

// Takes nothing, or fails.
#[derive(Drop)]
struct Broken(bool);

impl Write for Broken {
    fn write(&mut self, _buf: &[u8]) -> io::Result<usize> {
        if self.0 {
            return Err(Error::new(ErrorKind::Other, "broken"));
        }
        Ok(0)
    }

    fn flush(&mut self) -> io::Result<()> {
        Ok(())
    }
}

const NOTHING_TAKEN: &[Piece] = &[(b"a", SinkAnswer::Failed), (b"", SinkAnswer::Ok(0))];

const BROKEN: &[Piece] = &[(b"a", SinkAnswer::Failed), (b"", SinkAnswer::Failed)];

#[test]
fn a_writer_that_takes_nothing_fails(rt: HostRuntime) {
    expect_pieces(&rt, &mut OutSink::new(Broken(false)), NOTHING_TAKEN);
    expect_pieces(&rt, &mut OutSink::new(Broken(true)), BROKEN);
}
