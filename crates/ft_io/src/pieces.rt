//! Bytes on their way to a sink, which gets them in pieces.

ghost use Rattle.std.specs.Prelude.{◌≡◌, ◌≤◌, [], take, IfOk};
ghost use Rattle.ft_io.specs.Pieces.{nothing, Puts, Ends};

use crate::sink::{Sink, WriteFail, write_all};
use bytes::BytesMut;
use std::alloc::{AllocError, Global};
use std::marker::Model;

// How many bytes are held for one piece.
const PIECE_BYTES: usize = 65_536;

/// Bytes on their way to a sink, which gets them in pieces of 65,536. All memory is taken at the
/// start. If the sink fails, the bytes that come after are dropped, and `finish` says so, as C's
/// stdio keeps `ferror`.
#[derive(Drop)]
pub struct Pieces {
    held: BytesMut,
    failed: bool,
}

impl Model for Pieces {
    ghost use Rattle.std.specs.Prelude.{◌+◌, ◌≤◌, length};
    ghost use Rattle.ft_io.specs.Pieces.{OnTheWay};
    ghost use Rattle.ft_io.specs.declared.pieces.TheConstants.{PIECE_BYTES};

    ghost Value = { OnTheWay };

    ghost view = { λ p. record { held = p.held.items; failed = p.failed } };

    ghost invariant = { λ p. (length p.held.items ≤ PIECE_BYTES)
        × (PIECE_BYTES ≤ length p.held.items + p.held.spare) };
}

impl Pieces {
    /// No bytes yet. The error is that memory is out.
    pub fn new(alloc: Global) -> Result<Pieces, AllocError>
        ensures { IfOk result (λ pieces. pieces ≡ nothing) }
    {
        let held = BytesMut::with_capacity(alloc, PIECE_BYTES)?;
        Ok(Pieces {
            held,
            failed: false,
        })
    }

    /// Puts the bytes after those before. It takes no memory.
    // In place, a few bytes that are known there are put by a store or two.
    #[inline(always)]
    pub fn put<K: Sink>(&mut self, sink: &mut K, bytes: &[u8])
        ensures { Puts K.holds K.faults bytes.now sink.old self.old sink.new self.new }
    {
        if bytes.len() > PIECE_BYTES - self.held.len() {
            self.put_after_piece(sink, bytes);
        } else {
            // What is held after the sink has failed is dropped with the rest: this saves the question.
            self.held.extend_reserved(bytes);
        }
    }

    /// Puts the first `len` of 16 bytes. It takes no memory.
    // All 16 are copied, by two stores: a copy of a few bytes whose number isn't known is a call.
    #[inline(always)]
    pub fn put_first<K: Sink>(&mut self, sink: &mut K, bytes: &[u8; 16], len: usize)
        requires { len ≤ 16 }
        ensures { Puts K.holds K.faults (take len bytes.now) sink.old self.old sink.new self.new }
    {
        let held = self.held.len();
        if bytes.len() > PIECE_BYTES - held {
            self.put_after_piece(sink, &bytes[..len]);
        } else {
            self.held.extend_reserved(bytes);
            self.held.truncate(held + len);
        }
    }

    /// Writes the piece that is held, and puts the bytes after it.
    #[cold]
    #[inline(never)]
    fn put_after_piece<K: Sink>(&mut self, sink: &mut K, bytes: &[u8])
        ensures { Puts K.holds K.faults bytes.now sink.old self.old sink.new self.new }
    {
        self.flush(sink);
        if self.failed {
            return;
        }
        if bytes.len() > PIECE_BYTES {
            self.failed = write_all(sink, bytes).is_err();
        } else {
            self.held.extend_reserved(bytes);
        }
    }

    /// Writes what is held so far, and holds nothing. It takes no memory.
    pub fn flush<K: Sink>(&mut self, sink: &mut K)
        ensures puts { Puts K.holds K.faults [] sink.old self.old sink.new self.new }
        ensures empty { self.new.held ≡ [] }
    {
        if !self.failed {
            self.failed = write_all(sink, self.held.as_slice()).is_err();
        }
        self.held.clear();
    }

    /// Whether the sink has failed, so that what comes is dropped.
    pub fn has_failed(&self) -> bool
        ensures { result ≡ self.now.failed }
    {
        self.failed
    }

    /// Writes what is held. The error is that the sink failed, now or before.
    pub fn finish<K: Sink>(self, sink: &mut K) -> Result<(), WriteFail>
        ensures ends { Ends K.holds K.faults sink.old self sink.new result }
        ensures faults { K.faults sink.old ≤ K.faults sink.new }
    {
        if self.failed {
            return Err(WriteFail);
        }
        write_all(sink, self.held.as_slice())
    }
}
