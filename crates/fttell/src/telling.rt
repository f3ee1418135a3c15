//! Items on their way to a sink, as JSON.

ghost use Rattle.std.specs.Prelude.{◌≡◌, ◌+◌, ◌<◌, ◌^◌, List, [], ◌∷◌, reverse, IfErr, IfOk};
ghost use Rattle.std.specs.Io.KnownBytes.{Appends};
ghost use Rattle.ft_base.specs.declared.item.Item.{Item as AnItem};
ghost use Rattle.ft_base.specs.Job.{Job as PlainJob};
ghost use Rattle.ft_io.specs.declared.status.Status.TheVariants.{Done};
ghost use Rattle.told_items.specs.ItemText.{told_text};
ghost use Rattle.fttell.specs.ToldText.{IsAnswered};
ghost use Rattle.fttell.specs.Telling.{HasRoomToTell, HasToldOf};

use ft_base::{Item, NoMemory};
use ft_io::{Pieces, Sink, Status};
use ft_job::Job;
use ft_machine::Taker;
use std::alloc::Global;
use told_items::Told;
use trace_print::Names;

/// Takes items as they come, and puts the line of each: only what is open is kept.
#[derive(Drop)]
pub(crate) struct Telling<'a, K> {
    names: Names<'a>,
    told: Told,
    pieces: Pieces,
    sink: K,
}

impl<'a, K: Sink> Telling<'a, K> {
    /// Before the first item of a job. If memory ran out, the sink is given back.
    pub(crate) fn new(alloc: Global, job: &'a Job, sink: K) -> Result<Telling<'a, K>, K>
        ensures { IfOk result (λ t. HasToldOf K.holds K.faults job.entry.now [] t t × (t.sink ≡ sink)) }
    {
        let Ok(names) = Names::new(alloc, job) else {
            return Err(sink);
        };
        let Ok(pieces) = Pieces::new(alloc) else {
            return Err(sink);
        };
        Ok(Telling {
            names,
            told: Told::new(alloc),
            pieces,
            sink,
        })
    }

    /// Puts the line of the next item.
    pub(crate) fn put(&mut self, item: &Item)
        requires room { HasRoomToTell self.old }
        requires counted { self.old.told.place + 1 < 2 ^ 32 }
        ensures { (job : PlainJob) (past : List AnItem) (first : Telling K) → HasToldOf K.holds K.faults job past first self.old
            → HasToldOf K.holds K.faults job (item.now ∷ past) first self.new }
    {
        self.told
            .tell(&mut self.pieces, &mut self.sink, &self.names, item);
    }

    /// Puts the last line, and writes what is still held.
    pub(crate) fn end(self, ended: bool) -> (Status, K)
        ensures { (job : PlainJob) (past : List AnItem) (first : Telling K) → HasToldOf K.holds K.faults job past first self.entry
            → IsAnswered result.0 → (result.0 ≡ Done) × Appends (K.holds first.sink) (K.holds result.1) (told_text job (reverse past) ended) }
    {
        let Telling {
            names,
            told,
            mut pieces,
            mut sink,
        } = self;
        told.tell_end(&mut pieces, &mut sink, &names, ended);
        match pieces.finish(&mut sink) {
            Ok(()) => (Status::Done, sink),
            Err(_) => (Status::WriteFault, sink),
        }
    }

    /// Leaves it at what was written.
    pub(crate) fn leave(self) -> (Status, K)
        ensures { IsAnswered result.0 → ⊥ }
    {
        (Status::NoMemory, self.sink)
    }
}

impl<'a, K: Sink> Taker for Telling<'a, K> {
    ghost took = { HasToldOf K.holds K.faults };

    ghost has_room = { HasRoomToTell };

    fn make_room(&mut self) -> Result<(), NoMemory> {
        self.told.make_room()
    }

    fn take(&mut self, item: Item) {
        self.put(&item);
    }
}
