//! The journal of payloads: commits, replacements, and a change to a newer form.
//!
//! What the two sides of a disk are, for one form, and what leads from one to the other:
//!
//!     neither live --open--> A live --replace--> both live, and the higher generation counts --replace--> ..
//!     one live for an older form --change_form--> one live for each form
//!
//! 1. The side that counts is written after its closed commit byte alone, and then at that commit byte, once all after it is synced.
//! 2. The other side is written while it isn't live, and made live by its first byte, once all after that is synced.
//! 3. A side that is made in the place of one of its form has the next generation.
//! 4. A side is live for one form at most, so that making one for a newer form leaves what the older one has.

ghost use Rattle.std.specs.Prelude.{◌≡◌, ◌≢◌, ◌≤◌, ◌+◌, ◌-◌, ◌^◌, ◌<◌, ◌++◌, ◌∷◌, [], true, false, length, IfOk, OnErr, OnOk, is_err};
ghost use Rattle.base.specs.Bytes.{text_bytes};
ghost use Rattle.outside.specs.Counts.{DiskCounts};
ghost use Rattle.outside.specs.Disks.{reads_of, IsEither, AtAnyMoment, NeverLoses};
ghost use Rattle.store_journal.specs.Forms.{ChangesForm, has_form};
ghost use Rattle.store_journal.specs.Payloads.{payloads};
ghost use Rattle.store_journal.specs.Journals.{IsInStep, CountsAs, other_side};
ghost use Rattle.store_journal.specs.Steps.{Went, last_moment, committing};

use crate::making::make_side;
use crate::{Payloads, Ready, ReadySide};
use base::{DiskFailed, NoMemory};
use outside::{Disk, Side, write_durably};
use std::alloc::Global;
use std::marker::Model;

/// A list of payloads on a disk. Contracts see what it knows of the disk.
#[derive(Drop)]
pub struct Journal {
    form: u8,
    live: Side,
    generation: u64,
    len: u64,
    broken: bool,
}

impl Model for Journal {
    ghost use Rattle.std.specs.Prelude.{◌≤◌};
    ghost use Rattle.store_journal.specs.Journals.{JournalState};

    ghost Value = { JournalState };

    ghost view = { λ j. record {
      form = j.form;
      live = j.live;
      generation = j.generation;
      len = j.len;
      broken = j.broken;
    } };

    ghost invariant = { λ j. 19 ≤ j.len };
}

impl Journal {
    /// A journal of what an opened disk holds.
    pub(crate) fn of(form: u8, live: Side, generation: u64, len: u64) -> Journal
        requires { 19 ≤ len }
        ensures { result
            ≡ record
            { form = form; live = live; generation = generation; len = len; broken = false } }
    {
        Journal {
            form,
            live,
            generation,
            len,
            broken: false,
        }
    }

    /// The form of the payloads.
    pub fn form(&self) -> u8
        ensures { result ≡ self.now.form }
    {
        self.form
    }

    /// The generation of the side that counts.
    pub fn generation(&self) -> u64
        requires { self.now.broken ≡ false }
        ensures { result ≡ self.now.generation }
    {
        self.generation
    }

    /// The number of bytes of the side that counts, up to and with the closed commit byte.
    pub fn length(&self) -> u64
        requires { self.now.broken ≡ false }
        ensures { result ≡ self.now.len }
    {
        self.len
    }

    /// Whether a call of this journal has answered `DiskFailed`.
    pub fn is_broken(&self) -> bool
        ensures { result ≡ self.now.broken }
    {
        self.broken
    }

    /// Makes a payload ready to be committed.
    pub fn prepare(&self, alloc: Global, payload: &[u8]) -> Result<Ready, NoMemory>
        requires { length payload.now < 2 ^ 32 }
        ensures { IfOk result (λ ready. ready ≡ payload.now) }
    {
        Ready::new(alloc, payload)
    }

    /// Adds a payload at the end. It takes no memory, and the payload can be kept.
    pub fn commit<D: Disk>(&mut self, disk: &mut D, ready: &Ready) -> Result<(), DiskFailed>
        requires usable { self.old.broken ≡ false }
        requires in_step { D.tells → IsInStep self.old (D.moments disk.old).now }
        ensures in_step { D.tells → OnOk result (IsInStep self.new (D.moments disk.new).now) }
        ensures added { D.tells →
            OnOk result
            (payloads self.old.form (reads_of (D.moments disk.new).now)
            ≡ payloads self.old.form (reads_of (D.moments disk.old).now)
            ++ ready.now ∷ []) }
        // At any moment, after a fault too, a stop can leave the payloads from before, with the new one or without.
        ensures any_moment { D.tells →
            AtAnyMoment (D.moments disk.old) (D.moments disk.new)
            (λ image.
            IsEither (payloads self.old.form image)
            (payloads self.old.form (reads_of (D.moments disk.old).now))
            (payloads self.old.form (reads_of (D.moments disk.old).now)
            ++ ready.now ∷ [])) }
        // The form is live in each.
        ensures live { D.tells →
            AtAnyMoment (D.moments disk.old) (D.moments disk.new)
            (λ image. has_form self.old.form image ≡ true) }
        // Once each image has the new one, each image has it.
        ensures loses { D.tells →
            NeverLoses (D.moments disk.old) (D.moments disk.new)
            (λ image.
            payloads self.old.form image
            ≡ payloads self.old.form (reads_of (D.moments disk.old).now)
            ++ ready.now ∷ []) }
        ensures counts { CountsAs self.old.live self.old.generation self.new }
        ensures form { self.new.form ≡ self.old.form }
        ensures broken { self.new.broken ≡ is_err result }
        ensures cause { DiskCounts result (D.failed_disk_calls disk.old)
            (D.failed_disk_calls disk.new) }
    {
        match self.append(disk, ready.bytes()) {
            Ok(()) => {
                self.len += ready.bytes().len() as u64;
                Ok(())
            }
            Err(fault) => {
                self.broken = true;
                Err(fault)
            }
        }
    }

    /// Writes after the closed commit byte, and then opens it.
    fn append<D: Disk>(&self, disk: &mut D, bytes: &[u8]) -> Result<(), DiskFailed>
        requires { D.tells → IsInStep self.now (D.moments disk.old).now }
        ensures fits { OnOk result (self.now.len + length bytes.now < 2 ^ 63) }
        ensures steps { D.tells →
            Went (committing self.now.live self.now.len bytes.now (D.moments disk.old).now)
            (D.moments disk.old) (D.moments disk.new) }
        ensures appended { D.tells →
            OnOk result
            ((D.moments disk.new).now
            ≡ last_moment (D.moments disk.old).now
            (committing self.now.live self.now.len bytes.now
            (D.moments disk.old).now)) }
        ensures cause { DiskCounts result (D.failed_disk_calls disk.old)
            (D.failed_disk_calls disk.new) }
    {
        // By 1.
        write_durably(disk, self.live, self.len, bytes)?;
        write_durably(disk, self.live, self.len - 1, &[1])
    }

    /// Makes a side ready that has these payloads alone, of the next generation.
    pub fn prepare_side(
        &self,
        alloc: Global,
        form: u8,
        payloads: &Payloads,
    ) -> Result<ReadySide, NoMemory>
        requires form { form ≡ self.now.form }
        requires generation { self.now.generation + 1 < 2 ^ 64 }
        ensures { IfOk result
            (λ side.
            side
            ≡ record {
              form = form;
              generation = self.now.generation + 1;
              payloads = payloads.now;
            }) }
    {
        ReadySide::new(alloc, form, self.generation + 1, payloads)
    }

    /// Puts a prepared side in the place of the one that counts. It takes no memory.
    pub fn replace<D: Disk>(&mut self, disk: &mut D, side: ReadySide) -> Result<(), DiskFailed>
        requires usable { self.old.broken ≡ false }
        requires form { side.form ≡ self.old.form }
        requires generation { side.generation ≡ self.old.generation + 1 }
        requires in_step { D.tells → IsInStep self.old (D.moments disk.old).now }
        ensures in_step { D.tells → OnOk result (IsInStep self.new (D.moments disk.new).now) }
        ensures replaced { D.tells →
            OnOk result
            (payloads self.old.form (reads_of (D.moments disk.new).now) ≡ side.payloads) }
        ensures any_moment { D.tells →
            AtAnyMoment (D.moments disk.old) (D.moments disk.new)
            (λ image.
            IsEither (payloads self.old.form image)
            (payloads self.old.form (reads_of (D.moments disk.old).now))
            side.payloads) }
        ensures live { D.tells →
            AtAnyMoment (D.moments disk.old) (D.moments disk.new)
            (λ image. has_form self.old.form image ≡ true) }
        ensures loses { D.tells →
            NeverLoses (D.moments disk.old) (D.moments disk.new)
            (λ image. payloads self.old.form image ≡ side.payloads) }
        ensures counts { OnOk result
            (CountsAs (other_side self.old.live) (self.old.generation + 1) self.new) }
        ensures form { self.new.form ≡ self.old.form }
        ensures broken { self.new.broken ≡ is_err result }
        ensures cause { DiskCounts result (D.failed_disk_calls disk.old)
            (D.failed_disk_calls disk.new) }
    {
        let other = other(self.live);
        let generation = side.generation();
        let bytes = side.bytes();
        // By 2 and 3.
        match make_side(disk, other, bytes) {
            Ok(()) => {
                self.live = other;
                self.generation = generation;
                self.len = bytes.len() as u64 + 1;
                Ok(())
            }
            Err(fault) => {
                self.broken = true;
                Err(fault)
            }
        }
    }

    /// Makes a side of a form ready that has these payloads alone, of the first generation.
    pub fn first_side(alloc: Global, form: u8, payloads: &Payloads) -> Result<ReadySide, NoMemory>
        ensures { IfOk result
            (λ side.
            side ≡ record { form = form; generation = 1; payloads = payloads.now }) }
    {
        ReadySide::new(alloc, form, 1, payloads)
    }

    /// Writes a prepared side of another form in place of the side that doesn't count. The side that counts is unchanged. After
    /// `Ok` the journal is of the new form. It takes no memory.
    pub fn change_form<D: Disk>(&mut self, disk: &mut D, side: ReadySide) -> Result<(), DiskFailed>
        requires usable { self.old.broken ≡ false }
        requires form { side.form ≢ self.old.form }
        requires generation { side.generation ≡ 1 }
        requires in_step { D.tells → IsInStep self.old (D.moments disk.old).now }
        requires none { D.tells →
            has_form side.form (reads_of (D.moments disk.old).now) ≡ false }
        ensures in_step { D.tells → OnOk result (IsInStep self.new (D.moments disk.new).now) }
        ensures changed { D.tells →
            OnOk result
            (payloads side.form (reads_of (D.moments disk.new).now) ≡ side.payloads) }
        // At any moment, after a fault too, a stop leaves the payloads of the old form unchanged. The new form is not live, or
        // is live with the new payloads.
        ensures any_moment { D.tells →
            AtAnyMoment (D.moments disk.old) (D.moments disk.new)
            (ChangesForm self.old.form side.form
            (payloads self.old.form (reads_of (D.moments disk.old).now)) side.payloads) }
        // Once the new form is live in each image, it stays live in each.
        ensures loses { D.tells →
            NeverLoses (D.moments disk.old) (D.moments disk.new)
            (λ image. has_form side.form image ≡ true) }
        ensures counts { OnOk result (CountsAs (other_side self.old.live) 1 self.new) }
        ensures form { OnOk result (self.new.form ≡ side.form) }
        ensures old_form { OnErr result (self.new.form ≡ self.old.form) }
        ensures broken { self.new.broken ≡ is_err result }
        ensures cause { DiskCounts result (D.failed_disk_calls disk.old)
            (D.failed_disk_calls disk.new) }
    {
        let beside = other(self.live);
        let form = side.form();
        let bytes = side.bytes();
        // By 2 and 4.
        match make_side(disk, beside, bytes) {
            Ok(()) => {
                self.form = form;
                self.live = beside;
                self.generation = 1;
                self.len = bytes.len() as u64 + 1;
                Ok(())
            }
            Err(fault) => {
                self.broken = true;
                Err(fault)
            }
        }
    }
}

pub(crate) fn other(side: Side) -> Side
    ensures { result ≡ other_side side }
{
    match side {
        Side::A => Side::B,
        Side::B => Side::A,
    }
}
