//! Both sides of a disk at a moment.
ghost use Rattle.std.specs.Prelude.{◌≡◌, ◌==◌, OnOk, OnErr, IfOk};
ghost use Rattle.outside.specs.Disks.{Image, on_side, side_of, settled as settled_side};
ghost use Rattle.memory_outside.specs.Disks.{side_after};

use crate::logged::Act;
use crate::side_writes::SideWrites;
use base::NoMemory;
use outside::Side;
use std::alloc::Global;
use std::marker::Model;

/// Both sides of a disk.
#[derive(Drop)]
pub struct DiskSides {
    a: SideWrites,
    b: SideWrites,
}

impl Model for DiskSides {
    ghost use Rattle.outside.specs.Disks.{DiskState};

    ghost Value = { DiskState };

    ghost view = { λ s. record { a = s.a; b = s.b } };
}

impl DiskSides {
    /// A disk of these two sides.
    pub fn new(a: SideWrites, b: SideWrites) -> DiskSides
        ensures { result ≡ record { a = a; b = b } }
    {
        DiskSides { a, b }
    }

    /// One side.
    pub fn side(&self, side: Side) -> &SideWrites
        ensures { result.now ≡ side_of side self.now }
    {
        match side {
            Side::A => &self.a,
            Side::B => &self.b,
        }
    }

    /// Goes through a call that was done, or that failed inside. After `NoMemory` both sides are unchanged.
    pub fn apply(
        &mut self,
        alloc: Global,
        side: Side,
        act: &Act,
        done: bool,
    ) -> Result<(), NoMemory>
        ensures ok { OnOk result (self.new ≡ on_side side (side_after done act.now) self.old) }
        ensures err { OnErr result (self.new ≡ self.old) }
    {
        match side {
            Side::A => self.a.apply(alloc, act, done),
            Side::B => self.b.apply(alloc, act, done),
        }
    }
}
