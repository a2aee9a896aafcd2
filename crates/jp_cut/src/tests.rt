//! What no clause of the cut says: that it cuts at all, and that how a stream is read changes no piece.

ghost use Rattle.std.specs.Prelude.{OnOk};
ghost use Rattle.jp_cut.specs.Holding.{IsHeld, IsSpent};

use crate::{Cutter, PieceAt, Pieces};
use std::alloc::{AllocError, Global};
use std::test::Fail;

/// Stands after each piece that was closed. No JSON text has it.
const CLOSED: u8 = 0xFF;

/// Stands after each piece that was not.
const UNCLOSED: u8 = 0xFE;

/// Streams with each kind of text.
const STREAMS: [&[u8]; 8] = [
    b"{\"a\": [1, \"}\\\"]\\\\\"]}\n[[2]]12\"\\\"\"\r\n",
    b"\xEF\xBB\xBF[{},\n [ ] ,\",\\\",\"]true null[ ][,]",
    b"\xEF\xBB[1]",
    b"\xEF\xBB",
    b" [1, {\"a\": ",
    b"[1}{]\x1E{}\x00",
    b"x,y]\"a\n",
    b"[",
];

/// Writes a piece, and whether it was closed.
fn write_piece(all: &mut Vec<u8>, cutter: &Cutter, piece: PieceAt) -> Result<(), AllocError>
    requires { IsHeld cutter.now piece }
{
    all.extend_from_slice(cutter.bytes(piece))?;
    all.push(if piece.is_closed { CLOSED } else { UNCLOSED })?;
    Ok(())
}

/// Writes all pieces that ended.
fn take_pieces(all: &mut Vec<u8>, cutter: &mut Cutter) -> Result<(), AllocError>
    ensures { OnOk result (IsSpent cutter.new) }
{
    'pieces: while let Some(piece) = cutter.next_piece() {
        write_piece(all, cutter, piece)?;
    }
    Ok(())
}

/// The pieces of a stream that comes in two reads.
fn cut(alloc: Global, pieces: Pieces, front: &[u8], back: &[u8]) -> Result<Vec<u8>, AllocError> {
    let mut all = Vec::new(alloc);
    let mut cutter = Cutter::new(alloc, pieces);
    cutter.hold(front)?;
    take_pieces(&mut all, &mut cutter)?;
    cutter.hold(back)?;
    take_pieces(&mut all, &mut cutter)?;
    if let Some(piece) = cutter.last_piece() {
        write_piece(&mut all, &cutter, piece)?;
    }
    Ok(all)
}

#[test]
fn texts_are_handed_out(rt: HostRuntime) -> Result<(), Fail> {
    let all = cut(rt.alloc(), Pieces::Texts, STREAMS[0], STREAMS[4])?;
    let texts = b"{\"a\": [1, \"}\\\"]\\\\\"]}\xFF[[2]]\xFF12\xFF\"\\\"\"\xFF[1, {\"a\": \xFE";
    assert_eq!(rt; all.as_slice(), texts.as_slice());
    Ok(())
}

#[test]
fn elements_are_handed_out(rt: HostRuntime) -> Result<(), Fail> {
    let all = cut(rt.alloc(), Pieces::Elements, STREAMS[1], STREAMS[4])?;
    let elements = b"{}\xFF[ ] \xFF\",\\\",\"\xFFtrue\xFFnull\xFF\xFF\xFF1\xFF{\"a\": \xFE";
    assert_eq!(rt; all.as_slice(), elements.as_slice());
    Ok(())
}

#[test]
fn every_cut_into_two_reads_is_the_same(rt: HostRuntime) -> Result<(), Fail> {
    for pieces in [Pieces::Texts, Pieces::Elements] {
        for stream in STREAMS {
            let whole = cut(rt.alloc(), pieces, stream, b"")?;
            for at in 0..=stream.len() {
                let all = cut(rt.alloc(), pieces, &stream[..at], &stream[at..])?;
                assert_eq!(rt; all.as_slice(), whole.as_slice());
            }
        }
    }
    Ok(())
}

#[test]
fn line_feeds_before_a_piece(rt: HostRuntime) -> Result<(), Fail> {
    let mut cutter = Cutter::new(rt.alloc(), Pieces::Elements);
    cutter.hold(b"\n[\n1\n,")?;
    let first = cutter.next_piece().ok_or("a piece")?;
    assert_eq!(rt; first.line_feeds, 2);
    assert_eq!(rt; cutter.next_piece(), None);
    cutter.hold(b"\n2")?;
    assert_eq!(rt; cutter.next_piece(), None);
    let last = cutter.last_piece().ok_or("a piece")?;
    assert_eq!(rt; last.line_feeds, 4);
    Ok(())
}
