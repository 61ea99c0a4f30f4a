//! A device in memory, for tests: it fails and crashes on purpose.
ghost use Rattle.std.specs.Prelude.{◌≡◌, ◌+◌, ◌<◌, ◌^◌, ◌↔◌, length, IfOk, IsErrOf, replicate};
ghost use Rattle.disk.specs.declared.fault.DiskFault.TheVariants.{OutOfRange};
ghost use Rattle.disk.specs.declared.injected_fault.InjectedFault.TheVariants.{FailAt, StopAt};
ghost use Rattle.disk.specs.CrashImages.{AreBytes, IsCrashImage, HasPattern};
ghost use Rattle.disk.specs.Device.{Reads, Writes, Syncs, IsDeviceCall, IsCallInside};
ghost use Rattle.disk.specs.Span.{HoldsUnsynced};

use crate::ghost_device::{Call, GhostDevice};
use crate::injected_fault::{CallCounter, InjectedFault};
use crate::ranges::{check_range, clear, mark_unsynced, overlay, refresh};
use crate::torn::tear;
use crate::unsynced_span::Span;
use crate::{Disk, DiskFault, Torn};
use std::alloc::{AllocError, Global};

/// A device in memory, that can fail and crash on purpose. Only `new` and `of_bytes` take memory.
#[derive(Drop)]
pub struct MemDisk {
    bytes: Vec<u8>,
    // What the last sync left.
    last_synced: Vec<u8>,
    // At an unsynced offset, the byte of the last write there, even if it failed.
    last_written: Vec<u8>,
    unsynced: Vec<bool>,
    // Outside this range nothing is unsynced, and `last_synced` is the same as `bytes`.
    span: Span,
    call_counter: CallCounter,
    ghost_device: GhostDevice,
    ghost now_is: { ghost_device.medium.now ≡ bytes.items },
    ghost unsynced_is: { ghost_device.medium.unsynced ≡ unsynced.items },
    ghost last_synced_size: { length last_synced.items ≡ length bytes.items },
    ghost last_written_size: { length last_written.items ≡ length bytes.items },
    ghost unsynced_size: { length unsynced.items ≡ length bytes.items },
    ghost holds_unsynced: { HoldsUnsynced span.start span.end ghost_device.medium last_synced.items },
    ghost fits: { length ghost_device.medium.now < 2 ^ 64 },
    ghost are_bytes: { AreBytes ghost_device.medium.now },
}

impl MemDisk {
    ghost use Rattle.disk.specs.Memory.{memory_of, medium_of, made, after_crash};

    /// A device of `len` zeros. `AllocError` where there is no memory.
    pub fn new(alloc: Global, len: u64) -> Result<MemDisk, AllocError>
        ensures { IfOk result (λ d. memory_of d ≡ made (replicate len 0)) }
    {
        MemDisk::of_bytes(alloc, vec![in alloc; 0u8; len as usize]?)
    }

    /// A device of these bytes, all of them synced. `AllocError` where there is no memory.
    pub fn of_bytes(alloc: Global, bytes: Vec<u8>) -> Result<MemDisk, AllocError>
        ensures { IfOk result (λ d. memory_of d ≡ made bytes.items) }
    {
        let last_synced = bytes.to_vec(alloc)?;
        let last_written = bytes.to_vec(alloc)?;
        let unsynced = vec![in alloc; false; bytes.len()]?;
        let mut ghost_device = GhostDevice::new();
        ghost_device.note(&Call::Created, &bytes);
        Ok(MemDisk {
            bytes,
            last_synced,
            last_written,
            unsynced,
            span: Span::none(),
            call_counter: CallCounter::new(),
            ghost_device,
        })
    }

    /// What a read of all of it gives.
    pub fn bytes(&self) -> &[u8]
        ensures { result.now ≡ (medium_of self.now).now }
    {
        self.bytes.as_slice()
    }

    /// Makes the n-th call from now fail, and later ones work. It replaces a fault injected before.
    pub fn fail_at(&mut self, n: u64)
        requires { 0 < n }
        ensures { memory_of self.new ≡ record (memory_of self.old) { injected_fault = FailAt n } }
    {
        self.call_counter.injected_fault = InjectedFault::FailAt(n);
    }

    /// Makes the n-th call from now fail, and all later ones. It replaces a fault injected before.
    pub fn stop_at(&mut self, n: u64)
        requires { 0 < n }
        ensures { memory_of self.new ≡ record (memory_of self.old) { injected_fault = StopAt n } }
    {
        self.call_counter.injected_fault = InjectedFault::StopAt(n);
    }

    /// The device after a crash, with no injected fault, and with its count of calls at 0. It takes no memory. `HasPattern` asks of a
    /// `Mixed` crash alone that it has a byte; the other kinds need none.
    pub fn crash(self, torn: Torn) -> MemDisk
        requires { HasPattern torn }
        ensures after { memory_of result ≡ after_crash torn (memory_of self) }
        ensures may { IsCrashImage (medium_of self) (medium_of result).now }
    {
        let MemDisk {
            mut bytes,
            mut last_synced,
            last_written,
            mut unsynced,
            span: _,
            call_counter: _,
            ghost_device: _,
        } = self;
        tear(&torn, &last_synced, &last_written, &unsynced, &mut bytes);
        last_synced.copy_from_slice(&bytes);
        unsynced.fill(false);
        let mut ghost_device = GhostDevice::new();
        ghost_device.note(&Call::Created, &bytes);
        MemDisk {
            bytes,
            last_synced,
            last_written,
            unsynced,
            span: Span::none(),
            call_counter: CallCounter::new(),
            ghost_device,
        }
    }

    /// The reads, writes and syncs since it was made, up to the greatest `u64`. A call that answered `OutOfRange`
    /// is not among them.
    pub fn calls(&self) -> u64
        ensures { result ≡ (memory_of self.now).calls }
    {
        self.call_counter.calls
    }
}

impl Disk for MemDisk {
    ghost use Rattle.disk.specs.Memory.{memory_of, medium_of, call_result, after_read, after_write, after_sync};

    ghost medium = { medium_of };

    ghost keeps = { Unit {0} };

    fn len(&self) -> u64 {
        self.bytes.len() as u64
    }

    fn read_at(&mut self, at: u64, out: &mut [u8]) -> Result<(), DiskFault>
        ensures outside { IsErrOf result OutOfRange ↔ length (medium_of self.old).now < at + length out.old }
        ensures untouched { IsErrOf result OutOfRange → self.new ≡ self.old }
        ensures unread { IsErrOf result OutOfRange → out.new ≡ out.old }
        ensures call { IsDeviceCall result (medium_of self.old) (medium_of self.new) }
        ensures reads { Unit {0} → Reads at out.new result (medium_of self.old) (medium_of self.new) }
        ensures answer { result ≡ call_result at (length out.old) (memory_of self.old) }
        ensures after { memory_of self.new ≡ after_read result (memory_of self.old) }
    {
        let start = check_range(self.len(), at, out.len())?;
        if self.call_counter.count_call() {
            self.ghost_device.note(&Call::Failed, &[]);
            return Err(DiskFault::Device);
        }
        out.copy_from_slice(&self.bytes[start..start + out.len()]);
        Ok(())
    }

    fn write_at(&mut self, at: u64, bytes: &[u8]) -> Result<(), DiskFault>
        ensures outside { IsErrOf result OutOfRange ↔ length (medium_of self.old).now < at + length bytes.now }
        ensures untouched { IsErrOf result OutOfRange → self.new ≡ self.old }
        ensures call { IsDeviceCall result (medium_of self.old) (medium_of self.new) }
        ensures writes { Unit {0} → Writes at bytes.now result (medium_of self.old) (medium_of self.new) }
        ensures answer { result ≡ call_result at (length bytes.now) (memory_of self.old) }
        ensures after { memory_of self.new ≡ after_write result at bytes.now (memory_of self.old) }
    {
        let start = check_range(self.len(), at, bytes.len())?;
        let fails = self.call_counter.count_call();
        self.span = self.span.with(start, start + bytes.len());
        overlay(&mut self.last_written, start, bytes);
        mark_unsynced(&mut self.unsynced, start, bytes.len());
        if fails {
            self.ghost_device.note(&Call::FailedWrite(at), bytes);
            return Err(DiskFault::Device);
        }
        overlay(&mut self.bytes, start, bytes);
        self.ghost_device.note(&Call::Wrote(at), bytes);
        Ok(())
    }

    fn sync(&mut self) -> Result<(), DiskFault>
        ensures call { IsCallInside result (medium_of self.old) (medium_of self.new) }
        ensures syncs { Unit {0} → Syncs result (medium_of self.old) (medium_of self.new) }
        // A sync answers as a call for 0 bytes from offset 0 on, which is never out of range.
        ensures answer { result ≡ call_result 0 0 (memory_of self.old) }
        ensures after { memory_of self.new ≡ after_sync result (memory_of self.old) }
    {
        if self.call_counter.count_call() {
            self.ghost_device.note(&Call::Failed, &[]);
            return Err(DiskFault::Device);
        }
        refresh(&mut self.last_synced, &self.bytes, self.span);
        clear(&mut self.unsynced, self.span);
        self.span = Span::none();
        self.ghost_device.note(&Call::Synced, &[]);
        Ok(())
    }

    ghost fits = { λ d. d.fits };

    ghost bytes = { λ d. d.are_bytes };
}
