ghost use Rattle.std.specs.Prelude.{◌≡◌, ◌+◌, ◌^◌, ◌≤◌, length, None, IfOk, OnOk, ⊤};
ghost use Rattle.ostore_base.specs.Limits.{longest_disk};
ghost use Rattle.ostore_base.specs.Faults.{HasCause, CountsFault};

use crate::fault_count::FaultCount;
use crate::outside::{Disk, Failed, LONGEST_DISK};
use std::fs::{File, OpenOptions};
use std::io;
use std::marker::Model;
use std::os::unix::fs::FileExt;
use std::rt::Files;

/// A file as a disk. A contract sees how often it has failed, and nothing of its bytes.
#[derive(Drop)]
pub struct FileDisk {
    file: File,
    count: FaultCount,
}

impl Model for FileDisk {
    ghost use Rattle.std.specs.Prelude.{ℕ};

    ghost Value = { ℕ };

    ghost view = { λ d. d.count };
}

impl FileDisk {
    /// The file at a path, which is made, and empty, where there is none.
    pub fn open<R: Files<File = File>>(rt: &R, path: &str) -> io::Result<FileDisk>
        ensures { IfOk result (λ disk. disk ≡ 0) }
    {
        let mut how = OpenOptions::new();
        how.read(true);
        how.write(true);
        how.create(true);
        let file = how.open(rt, path)?;
        Ok(FileDisk {
            file,
            count: FaultCount::zero(),
        })
    }

    /// How often it has failed. The count stays at the end of 64 bits.
    pub fn faults(&self) -> u64
        ensures { result ≡ self.now }
    {
        self.count.get()
    }
}

impl Disk for FileDisk {
    ghost content = { λ _. None };

    ghost faults = { λ d. d };

    // It tells nothing of bytes: a crash may leave any.
    ghost may_leave = { λ _ _. ⊤ };

    ghost left_since = { λ _ _ _. ⊤ };

    ghost moment = { λ _. 0 };

    ghost reads_image = { λ _. tt };

    ghost counts_now = { λ _ _ _ _ _. tt };

    ghost only_now = { λ _ _ _. tt };

    fn length(&mut self) -> Result<u64, Failed>
        ensures bound { IfOk result (λ n. n ≤ longest_disk) }
        ensures fault { CountsFault self.old self.new result }
        ensures cause { HasCause self.old self.new result }
    {
        match self.file.metadata() {
            Ok(metadata) if metadata.len() <= LONGEST_DISK => Ok(metadata.len()),
            _ => Err(self.count.rise()),
        }
    }

    fn read(&mut self, at: u64, into: &mut [u8]) -> Result<(), Failed>
        ensures fault { CountsFault self.old self.new result }
        ensures cause { HasCause self.old self.new result }
    {
        match self.file.read_exact_at(into, at) {
            Ok(()) => Ok(()),
            Err(_) => Err(self.count.rise()),
        }
    }

    fn write(&mut self, at: u64, bytes: &[u8]) -> Result<(), Failed>
        requires small { at + length bytes.now ≤ 2 ^ 40 }
        ensures within { OnOk result (at + length bytes.now ≤ longest_disk) }
        ensures fault { CountsFault self.old self.new result }
        ensures cause { HasCause self.old self.new result }
    {
        if at + bytes.len() as u64 > LONGEST_DISK {
            return Err(self.count.rise());
        }
        match self.file.write_all_at(bytes, at) {
            Ok(()) => Ok(()),
            Err(_) => Err(self.count.rise()),
        }
    }

    fn sync(&mut self) -> Result<(), Failed>
        ensures fault { CountsFault self.old self.new result }
        ensures cause { HasCause self.old self.new result }
    {
        match self.file.sync_all() {
            Ok(()) => Ok(()),
            Err(_) => Err(self.count.rise()),
        }
    }
}
