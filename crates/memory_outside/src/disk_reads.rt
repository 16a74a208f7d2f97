//! What reads of both sides of a disk give.
ghost use Rattle.std.specs.Prelude.{◌≡◌, true, OnOk, OnErr};
ghost use Rattle.outside.specs.Disks.{image_side};
ghost use Rattle.memory_outside.specs.declared.logged.Act.TheVariants.{Write};
ghost use Rattle.memory_outside.specs.Disks.{reads_after, on_bytes};

use crate::images::{is_allowed, overwrite};
use crate::logged::Act;
use base::NoMemory;
use outside::Side;
use std::marker::Model;

/// What reads of both sides of a disk give.
#[derive(Drop)]
pub struct DiskReads {
    a: Vec<u8>,
    b: Vec<u8>,
}

impl Model for DiskReads {
    ghost use Rattle.outside.specs.Disks.{Image};

    ghost Value = { Image };

    ghost view = { λ r. record { a = r.a.items; b = r.b.items } };
}

impl DiskReads {
    /// These bytes of sides A and B.
    pub fn new(a: Vec<u8>, b: Vec<u8>) -> DiskReads
        ensures { result ≡ record { a = a.items; b = b.items } }
    {
        DiskReads { a, b }
    }

    /// The bytes of one side.
    pub fn side(&self, side: Side) -> &[u8]
        ensures { result.now ≡ image_side side self.now }
    {
        match side {
            Side::A => self.a.as_slice(),
            Side::B => self.b.as_slice(),
        }
    }

    /// Goes through a call that was done, or that failed inside. After `NoMemory` both sides are unchanged.
    pub fn apply(&mut self, side: Side, act: &Act, done: bool) -> Result<(), NoMemory>
        ensures ok { OnOk result (self.new ≡ on_bytes side (reads_after done act.now) self.old) }
        ensures err { OnErr result (self.new ≡ self.old) }
    {
        match side {
            Side::A => apply_to(&mut self.a, act, done),
            Side::B => apply_to(&mut self.b, act, done),
        }
    }
}

/// The same on the bytes of one side.
fn apply_to(bytes: &mut Vec<u8>, act: &Act, done: bool) -> Result<(), NoMemory>
    ensures ok { OnOk result (bytes.new.items ≡ reads_after done act.now bytes.old.items) }
    ensures err { OnErr result (bytes.new.items ≡ bytes.old.items) }
{
    if !done {
        return Ok(());
    }
    match act {
        Act::Write { at, bytes: new } => go_through_write(bytes, *at, new.bytes()),
        Act::Cut => {
            bytes.clear();
            Ok(())
        }
        Act::Sync => Ok(()),
    }
}

/// Goes through a write that was done, unless it isn't allowed.
fn go_through_write(bytes: &mut Vec<u8>, at: u64, new: &[u8]) -> Result<(), NoMemory>
    ensures ok { let after = reads_after true (Write at new.now) bytes.old.items in
        OnOk result (bytes.new.items ≡ after) }
    ensures err { OnErr result (bytes.new.items ≡ bytes.old.items) }
{
    if is_allowed(at, new.len(), bytes.as_slice()) {
        overwrite(bytes, at as usize, new)
    } else {
        Ok(())
    }
}
