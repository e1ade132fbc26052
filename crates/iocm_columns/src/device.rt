ghost use Rattle.std.specs.Prelude.{◌≡◌, ◌-◌, ◌+◌, ◌^◌, ◌<◌, ◌≤◌, ◌⊎◌, ◌==◌, true, length};
ghost use Rattle.std.specs.Prelude.{take, vec_len, IfOk, IfErr, IfSome, OnOk, Ok};
ghost use Rattle.std.specs.Io.KnownBytes.{Consumes, IsAtEnd};
ghost use Rattle.iocm_columns.specs.Device.{reader_of, reads_of, has_failed, has_ended};
ghost use Rattle.iocm_columns.specs.Device.{unreadable, IsOpen, IsWhole, StopsShort};
ghost use Rattle.iocm_types.specs.Fault.{memory};

use iocm_types::{Fault, Rule};
use std::alloc::{AllocError, Global};
use std::io::Read;

/// How many bytes are asked for at one read.
const BUFFER_LEN: usize = 65536;

/// A device that cannot be read to its end.
const UNREADABLE: Fault = Fault {
    rule: Rule::L5,
    line: 0,
};

/// A reader with a count of its reads, and a note of whether a read failed and whether one gave the
/// end.
///
/// Contracts see these by `reader_of`, `reads_of`, `has_failed` and `has_ended`. The notes are what
/// tells a fault of the device (L5) from a fault of its bytes. The form is own.
#[derive(Drop)]
pub struct Device<R> {
    reader: R,
    reads: u64,
    failed: bool,
    ended: bool,
}

impl<R> Device<R> {
    /// A device that was not read yet.
    pub fn new(reader: R) -> Self
        ensures reader { reader_of result ≡ reader }
        ensures reads { reads_of result ≡ 0 }
        ensures open { IsOpen result }
    {
        Device {
            reader,
            reads: 0,
            failed: false,
            ended: false,
        }
    }

    /// How often the device was read.
    pub fn reads(&self) -> u64
        ensures { result ≡ reads_of self.now }
    {
        self.reads
    }

    /// Whether a read of the device failed.
    pub fn has_failed(&self) -> bool
        ensures { result ≡ has_failed self.now }
    {
        self.failed
    }
}

impl<R: Read> Device<R> {
    /// All bytes up to the end, by at most `limit` further reads; the read that gives the end is one
    /// of them.
    ///
    /// L5: a read failed, or none of `limit` reads gave the end. M1 without memory. Source: own.
    ///
    /// Promise: a device is read to its end exactly, or L5 is answered.
    #[tactic(auto, using(crate::proofs::Consuming::consuming))]
    pub fn read_to_end(&mut self, alloc: Global, limit: u64) -> Result<Vec<u8>, Fault>
        requires open { IsOpen self.old }
        requires room { reads_of self.old + limit < 2 ^ 64 }
        ensures reads { reads_of self.new ≤ reads_of self.old + limit }
        ensures bytes { IfOk result
            (λ v. IfSome (R.remaining (reader_of self.old)) (λ bytes. v.items ≡ bytes)) }
        ensures whole { OnOk result (IsWhole self.new) }
        ensures fault { IfErr result (λ e. (e ≡ memory)
            ⊎ ((e ≡ unreadable) × StopsShort self.new (reads_of self.old + limit))) }
    {
        let mut buffer = make_buffer(alloc, BUFFER_LEN)?;
        let mut bytes = Vec::new(alloc);
        for _ in 0..limit {
            let count = self.read(buffer.as_mut_slice())?;
            if count == 0 {
                return Ok(bytes);
            }
            bytes.extend_from_slice(&buffer[0..count])?;
        }
        Err(UNREADABLE)
    }

    /// One read into `buffer`: answers how many bytes came, none at the end, or L5 where the reader
    /// failed.
    fn read(&mut self, buffer: &mut [u8]) -> Result<usize, Fault>
        requires counts { reads_of self.old + 1 < 2 ^ 64 }
        requires room { 0 < length buffer.old }
        ensures within { IfOk result (λ n. n ≤ length buffer.new) }
        ensures reads { reads_of self.new ≡ reads_of self.old + 1 }
        ensures bytes { IfOk result (λ n. Consumes (R.remaining (reader_of self.old))
            (R.remaining (reader_of self.new)) (take n buffer.new)) }
        ensures ended { IfOk result (λ n. has_ended self.new ≡ (n == 0)) }
        ensures end { result ≡ Ok 0 → IsAtEnd (R.remaining (reader_of self.new)) }
        ensures works { OnOk result (has_failed self.new ≡ has_failed self.old) }
        ensures fault { IfErr result (λ e. (e ≡ unreadable) × (has_failed self.new ≡ true)) }
    {
        self.reads += 1;
        match self.reader.read(buffer) {
            Ok(count) => {
                self.ended = count == 0;
                Ok(count)
            }
            Err(_) => {
                self.failed = true;
                Err(UNREADABLE)
            }
        }
    }
}

/// A buffer of `len` bytes.
fn make_buffer(alloc: Global, len: usize) -> Result<Vec<u8>, AllocError>
    ensures { IfOk result (λ buffer. vec_len buffer ≡ len) }
{
    Ok(vec![in alloc; 0; len]?)
}
