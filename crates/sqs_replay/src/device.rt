//! Where the bytes of a replay come from and where they go.

ghost use Rattle.std.specs.Prelude.{◌≡◌, ℕ, List, ◌⊎◌, Option, Err, not, false, OnOk, OnErr};
ghost use Rattle.std.specs.Io.{ReadsAtMost};
ghost use Rattle.std.specs.Io.KnownBytes.{Appends, ReadConsumes};
ghost use Rattle.std.specs.IoError.{error_kind};
ghost use Rattle.sqs_replay.specs.Fault.{is_read_fault, is_write_fault, is_memory_fault, fault_of};
ghost use Rattle.sqs_replay.specs.Failures.{counted, counted_if, AppendsPart};

use crate::ReplayFault;
use std::io;

/// Where bytes come from.
pub trait Inlet {
    /// The bytes still to come, where they are known.
    ghost left: { Self → Option (List ℕ) };

    /// How often a read has failed, but for lack of memory. This count and the next two stop at
    /// 2^64 - 1.
    ghost failures: { Self → ℕ };

    /// How often a read was refused memory.
    ghost refusals: { Self → ℕ };

    /// How often it was read, with success or without.
    ghost reads: { Self → ℕ };

    /// Reads some bytes into the front of the buffer, and returns how many: none only at the end, or
    /// where the buffer has no room. A failure takes no byte, and is one of reading or of memory,
    /// each of which has its own count.
    fn read(&mut self, buffer: &mut [u8]) -> Result<usize, ReplayFault>
        ensures bound { ReadsAtMost result buffer.new }
        ensures bytes { ReadConsumes (left self.old) (left self.new) result buffer.new }
        ensures fault { is_write_fault result ≡ false }
        ensures failures { failures self.new ≡ counted_if (is_read_fault result) (failures self.old) }
        ensures refusals { refusals self.new ≡ counted_if (is_memory_fault result) (refusals self.old) }
        ensures reads { reads self.new ≡ counted 1 (reads self.old) };
}

/// Where bytes go.
pub trait Outlet {
    /// The bytes that it has taken, where they are known.
    ghost taken: { Self → Option (List ℕ) };

    /// How often a write has failed, but for lack of memory. This count and the next stop at
    /// 2^64 - 1.
    ghost failures: { Self → ℕ };

    /// How often a write was refused memory.
    ghost refusals: { Self → ℕ };

    /// Takes all the bytes. A failure may have taken a part of them, from the front, and is one of
    /// writing or of memory, each of which has its own count.
    fn write(&mut self, bytes: &[u8]) -> Result<(), ReplayFault>
        ensures ok { OnOk result (Appends (taken self.old) (taken self.new) bytes.now) }
        ensures err { OnErr result (AppendsPart (taken self.old) (taken self.new) bytes.now) }
        ensures fault { is_read_fault result ≡ false }
        ensures failures { failures self.new ≡ counted_if (is_write_fault result) (failures self.old) }
        ensures refusals { refusals self.new ≡ counted_if (is_memory_fault result) (refusals self.old) };
}

/// A reader or a writer of std, with counts of its failures, of memory refused to it, and of reads.
///
/// Over memory, as a `&[u8]` or a `Vec<u8>`, its bytes are known. It asks a reader or a writer once
/// for each call of [`Inlet::read`], and for [`Outlet::write`] until all is written. An error of the
/// kind `OutOfMemory`, as of a vector that can't grow, is memory refused; any other is a failure, and
/// so is a writer that takes none of the bytes left. That it fails only where the reader or writer
/// does is shown by tests: what std says of them does not tell when they fail. It never flushes: a
/// writer that holds bytes back is to be flushed by its owner.
#[derive(Drop)]
pub struct Device<T> {
    inner: T,
    failures: u64,
    refusals: u64,
    reads: u64,
}

impl<T> Device<T> {
    ghost use Rattle.sqs_replay.specs.Device.{device_inner, device_failures, device_refusals, device_reads};

    /// A device that has not failed, been refused memory or been read yet.
    pub fn new(inner: T) -> Device<T>
        ensures inner { device_inner result ≡ inner }
        ensures failures { device_failures result ≡ 0 }
        ensures refusals { device_refusals result ≡ 0 }
        ensures reads { device_reads result ≡ 0 }
    {
        Device {
            inner,
            failures: 0,
            refusals: 0,
            reads: 0,
        }
    }

    /// What it was made of.
    pub fn into_inner(self) -> T
        ensures { result ≡ device_inner self }
    {
        self.inner
    }

    /// How often it has failed, but for lack of memory. The count stops at 2^64 - 1.
    pub fn failures(&self) -> u64
        ensures { result ≡ device_failures self.now }
    {
        self.failures
    }

    /// How often it was refused memory. The count stops at 2^64 - 1.
    pub fn refusals(&self) -> u64
        ensures { result ≡ device_refusals self.now }
    {
        self.refusals
    }

    /// How often it was read. The count stops at 2^64 - 1.
    pub fn reads(&self) -> u64
        ensures { result ≡ device_reads self.now }
    {
        self.reads
    }

    /// Counts an error, and tells which fault it is.
    fn failed(&mut self, error: &io::Error, fault: ReplayFault) -> ReplayFault
        ensures fault { result ≡ fault_of (error_kind error.now) fault }
        ensures either { (result ≡ fault) ⊎ (result ≡ ReplayFault.OutOfMemory) }
        ensures failures { device_failures self.new ≡ counted_if (not (is_memory_fault {T = ℕ} (Err result))) (device_failures self.old) }
        ensures refusals { device_refusals self.new ≡ counted_if (is_memory_fault {T = ℕ} (Err result)) (device_refusals self.old) }
        ensures inner { device_inner self.new ≡ device_inner self.old }
        ensures reads { device_reads self.new ≡ device_reads self.old }
    {
        let told = fault_of(error, fault);
        match told {
            ReplayFault::OutOfMemory => self.refusals = self.refusals.saturating_add(1),
            _ => self.failures = self.failures.saturating_add(1),
        }
        told
    }
}

impl<R: io::Read> Inlet for Device<R> {
    ghost use Rattle.sqs_replay.specs.Device.{device_inner, device_failures, device_refusals, device_reads};

    ghost left = { λ device. R.remaining (device_inner device) };

    ghost failures = { λ device. device_failures device };

    ghost refusals = { λ device. device_refusals device };

    ghost reads = { λ device. device_reads device };

    fn read(&mut self, buffer: &mut [u8]) -> Result<usize, ReplayFault> {
        self.reads = self.reads.saturating_add(1);
        match self.inner.read(buffer) {
            Ok(count) => Ok(count),
            Err(error) => Err(self.failed(&error, ReplayFault::Read)),
        }
    }
}

impl<W: io::Write> Outlet for Device<W> {
    ghost use Rattle.sqs_replay.specs.Device.{device_inner, device_failures, device_refusals};

    ghost taken = { λ device. W.contents (device_inner device) };

    ghost failures = { λ device. device_failures device };

    ghost refusals = { λ device. device_refusals device };

    fn write(&mut self, bytes: &[u8]) -> Result<(), ReplayFault> {
        let mut rest = bytes;
        while !rest.is_empty() {
            match self.inner.write(rest) {
                Ok(0) => {
                    self.failures = self.failures.saturating_add(1);
                    return Err(ReplayFault::Write);
                }
                Ok(count) => rest = &rest[count..],
                Err(error) => return Err(self.failed(&error, ReplayFault::Write)),
            }
        }
        Ok(())
    }
}

/// The fault that an error of a device is: lack of memory, or the one given.
fn fault_of(error: &io::Error, fault: ReplayFault) -> ReplayFault
    ensures exact { result ≡ fault_of (error_kind error.now) fault }
    ensures either { (result ≡ fault) ⊎ (result ≡ ReplayFault.OutOfMemory) }
{
    match error.kind() {
        io::ErrorKind::OutOfMemory => ReplayFault::OutOfMemory,
        _ => fault,
    }
}
