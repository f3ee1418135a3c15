//! All rings of a trace.

ghost use Rattle.std.specs.Prelude.{◌≡◌, ◌<◌, ◌^◌, length, slice_index, slice_index_or};
ghost use Rattle.ring_rules.specs.Fold.{no_ring};
ghost use Rattle.ring_rules.specs.Gathered.{AreFew, lists_of, part_lists, places_of, rings_of};
ghost use Rattle.ring_rules.specs.Legal.{fired_at};

use crate::ring::CpuRing;
use ft_base::CpuNo;
use std::marker::Model;

/// The ring of each CPU, and the places at which each trigger fired. Contracts see both as lists.
#[derive(Drop)]
pub struct Rings {
    rings: Vec<CpuRing>,
    /// By the part of the trace that noted them, as a CPU is one, and then by trigger. So the parts'
    /// lists are never copied.
    fired: Vec<Vec<Vec<u32>>>,
    /// How many triggers there are.
    triggers: u32,
}

impl Model for Rings {
    ghost use Rattle.ring_rules.specs.Fold.{Rings as PlainRings};
    ghost use Rattle.ring_rules.specs.Gathered.{AreFew, part_lists, rings_of};

    ghost Value = { PlainRings };

    ghost view = { λ r. rings_of r.triggers r.rings.items (part_lists r.fired.items) };

    ghost invariant = { λ r. AreFew r.triggers (part_lists r.fired.items) };
}

/// The places at which a trigger fired, of one part.
fn places(part: &Vec<Vec<u32>>, trigger: u32) -> &[u32]
    ensures { result.now ≡ fired_at (lists_of part.now.items) trigger }
{
    match part.get(trigger as usize) {
        Some(list) => list.as_slice(),
        None => &[],
    }
}

/// How many places all parts have of a trigger.
fn count_places(parts: &[Vec<Vec<u32>>], trigger: u32) -> u32
    requires { length (places_of trigger parts.now) < 2 ^ 32 }
    ensures { result ≡ length (places_of trigger parts.now) }
{
    let mut count: u32 = 0;
    for part in parts {
        count += places(part, trigger).len() as u32;
    }
    count
}

/// The `i`-th place of a trigger, those of one part after those of another; 0 where there are fewer.
fn nth_place(parts: &[Vec<Vec<u32>>], trigger: u32, i: u32) -> u32
    ensures { result ≡ slice_index (places_of trigger parts.now) i }
{
    let mut left = i as usize;
    for part in parts {
        let list = places(part, trigger);
        if left < list.len() {
            return list[left];
        }
        left -= list.len();
    }
    0
}

impl Rings {
    /// The rings of these, the first CPU's first, with the places at which each of so many triggers
    /// fired, in parts.
    pub fn new(rings: Vec<CpuRing>, fired: Vec<Vec<Vec<u32>>>, triggers: u32) -> Rings
        requires { AreFew triggers (part_lists fired.items) }
        ensures { result ≡ rings_of triggers rings.items (part_lists fired.items) }
    {
        Rings {
            rings,
            fired,
            triggers,
        }
    }

    /// How many CPUs have a ring.
    pub fn cpus(&self) -> usize
        ensures { result ≡ length self.now.cpus }
    {
        self.rings.len()
    }

    /// How many triggers there are.
    pub fn triggers(&self) -> u32
        ensures { result ≡ length self.now.fired }
    {
        self.triggers
    }

    /// How many places were written into the ring of a CPU.
    pub fn written(&self, cpu: CpuNo) -> u32
        requires { cpu.0 < length self.now.cpus }
        ensures { result ≡ (slice_index_or self.now.cpus cpu.0 no_ring).written }
    {
        self.rings[cpu.0 as usize].written()
    }

    /// How many of them it holds, the last ones.
    pub fn held(&self, cpu: CpuNo) -> u32
        requires { cpu.0 < length self.now.cpus }
        ensures { result ≡ length (slice_index_or self.now.cpus cpu.0 no_ring).held }
    {
        self.rings[cpu.0 as usize].held()
    }

    /// The `i`-th place that it holds, the oldest first.
    pub fn entry(&self, cpu: CpuNo, i: u32) -> u32
        requires cpu { cpu.0 < length self.now.cpus }
        requires entry { i < length (slice_index_or self.now.cpus cpu.0 no_ring).held }
        ensures { result ≡ slice_index (slice_index_or self.now.cpus cpu.0 no_ring).held i }
    {
        self.rings[cpu.0 as usize].entry(i)
    }

    /// How often a trigger fired.
    pub fn fired(&self, trigger: u32) -> u32
        requires { trigger < length self.now.fired }
        ensures { result ≡ length (fired_at self.now.fired trigger) }
    {
        count_places(self.fired.as_slice(), trigger)
    }

    /// The `i`-th place at which it fired, those of one part after those of another.
    pub fn fired_at(&self, trigger: u32, i: u32) -> u32
        requires trigger { trigger < length self.now.fired }
        requires place { i < length (fired_at self.now.fired trigger) }
        ensures { result ≡ slice_index (fired_at self.now.fired trigger) i }
    {
        nth_place(self.fired.as_slice(), trigger, i)
    }
}
