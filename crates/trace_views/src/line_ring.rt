//! The ring of a CPU as the view rings keeps it.

ghost use Rattle.std.specs.Prelude.{◌≡◌, ◌<◌, ◌^◌, ◌++◌, length, slice_get, Some, IfOk, OnOk};
ghost use Rattle.ft_base.specs.Job.{Job as PlainJob};
ghost use Rattle.trace_views.specs.RingLines.{rings_line_text};
ghost use Rattle.trace_views.specs.LineRings.{empty_lines, kept_text, with_line};
ghost use Rattle.trace_views.specs.Words.{lines_text};

use crate::function::FunctionLine;
use crate::rings::{RingsLine, push_line};
use circular_buffer::HeapCircularBuffer;
use ft_base::NoMemory;
use std::alloc::Global;
use std::marker::Model;

/// The lines of the last entries that were written, as many as a ring holds, and how many were written.
#[derive(Drop)]
pub(crate) struct LineRing {
    held: HeapCircularBuffer<FunctionLine>,
    written: u32,
}

impl Model for LineRing {
    ghost use Rattle.std.specs.Prelude.{◌<◌, ◌^◌};
    ghost use Rattle.trace_views.specs.LineRings.{LineBox};

    ghost Value = { LineBox };

    ghost view = { λ r. record { lines = r.held.items; written = r.written; most = r.held.capacity } };

    ghost invariant = { λ r. r.held.capacity < 2 ^ 32 };
}

impl LineRing {
    /// An empty ring that holds so many entries. The error says that memory ran out.
    pub(crate) fn new(alloc: Global, most: u32) -> Result<LineRing, NoMemory>
        ensures { IfOk result (λ r. r ≡ empty_lines most) }
    {
        let held = HeapCircularBuffer::with_capacity(alloc, most as usize).map_err(|_| NoMemory)?;
        Ok(LineRing { held, written: 0 })
    }

    /// Writes one more entry. If the ring is full, it takes the room of the oldest.
    pub(crate) fn write(&mut self, line: FunctionLine)
        requires { self.old.written < 4294967295 }
        ensures { self.new ≡ with_line line self.old }
    {
        self.held.push_back(line);
        self.written += 1;
    }

    /// The `i`-th entry that it holds, the oldest first.
    fn entry(&self, i: u32) -> FunctionLine
        requires { i < length self.now.lines }
        ensures { slice_get self.now.lines i ≡ Some result }
    {
        match self.held.get(i as usize) {
            Some(line) => *line,
            None => unreachable!(),
        }
    }

    /// How many entries it holds.
    fn held(&self) -> u32
        ensures { result ≡ length self.now.lines }
    {
        self.held.len() as u32
    }

    /// Adds the lines of the ring of a CPU: its head, and the entries that it holds.
    pub(crate) fn push_lines(&self, lines: &mut Vec<RingsLine>, cpu: u32) -> Result<(), NoMemory>
        ensures { OnOk result ((job : PlainJob) → lines_text (rings_line_text job) lines.new.items
            ≡ lines_text (rings_line_text job) lines.old.items ++ kept_text job cpu self.now) }
    {
        let head = RingsLine::Cpu {
            cpu,
            held: self.held(),
            written: self.written,
        };
        push_line(lines, head)?;
        for i in 0..self.held() {
            push_line(lines, RingsLine::Entry(self.entry(i)))?;
        }
        Ok(())
    }
}
