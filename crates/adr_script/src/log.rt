//! What a run's reads and writes met. The fields are private here, so only a read or a write that
//! was made can set them.
ghost use Rattle.std.specs.Prelude.{◌≡◌, ◌≢◌, ◌+◌, ◌^◌, ◌≤◌, ◌<◌, ℕ, true, false, length, take, Ok, Err, Some, None, IfOk, IfErr, OnOk, OnErr, []};
ghost use Rattle.std.specs.IoError.{error_kind};
ghost use Rattle.std.specs.Io.KnownBytes.{Appends, Keeps};
ghost use Rattle.adr_script.specs.Logs.{reads_made, has_read_failed, has_ended, has_write_failed, Gives};

use crate::Fault;
use std::io;
use std::io::{ErrorKind, Read, Write};

/// How often an interrupted write is tried.
const MAX_TRIES: u64 = 4_294_967_296;

/// What one read gave.
#[derive(Clone, Copy, PartialEq, Eq)]
pub(crate) enum ReadGiven {
    /// So many bytes, at least one, at the start of the piece.
    Bytes(usize),
    /// The end of the input.
    End,
    /// The read was interrupted.
    Nothing,
}

/// What a run's reads and its writes met.
#[derive(Drop)]
pub struct Logs {
    /// What the reads met, of which `serve` makes at most 4,294,967,296.
    pub reads: ReadLog,
    /// What the writes met.
    pub writes: WriteLog,
}

impl Logs {
    /// The logs before any read and any write.
    pub fn new() -> Logs
        ensures made { reads_made result.reads ≡ 0 }
        ensures no_read { has_read_failed result.reads ≡ false }
        ensures no_write { has_write_failed result.writes ≡ false }
    {
        Logs {
            reads: ReadLog::new(),
            writes: WriteLog::new(),
        }
    }
}

/// How many reads were made, whether one of them failed, and whether one gave the end.
#[derive(Drop)]
pub struct ReadLog {
    made: u64,
    failed: bool,
    ended: bool,
}

impl ReadLog {
    /// The log before any read.
    pub fn new() -> ReadLog
        ensures made { reads_made result ≡ 0 }
        ensures failed { has_read_failed result ≡ false }
        ensures ended { has_ended result ≡ false }
    {
        ReadLog {
            made: 0,
            failed: false,
            ended: false,
        }
    }

    /// One read. An interrupted one is no fault.
    ///
    /// # Errors
    ///
    /// `Reading` where it failed, which is noted.
    pub(crate) fn read<R: Read>(
        &mut self,
        reader: &mut R,
        piece: &mut [u8],
    ) -> Result<ReadGiven, Fault>
        requires made { reads_made self.old < 2 ^ 32 }
        requires piece { 0 < length piece.old }
        ensures made { reads_made self.new ≡ reads_made self.old + 1 }
        ensures ok { IfOk result (Gives (R.remaining reader.old) (R.remaining reader.new)
            piece.new self.new) }
        ensures kept { OnErr result (Keeps (R.remaining reader.old) (R.remaining reader.new)) }
        ensures unfailed { OnOk result (has_read_failed self.new ≡ has_read_failed self.old) }
        ensures err { OnErr result ((has_read_failed self.new ≡ true)
            × (result ≡ Err Fault.Reading)) }
    {
        self.made += 1;
        let outcome = reader.read(piece);
        self.note(&outcome)
    }

    /// What a read gave. An error that is no interruption is a fault.
    fn note(&mut self, outcome: &io::Result<usize>) -> Result<ReadGiven, Fault>
        ensures made { reads_made self.new ≡ reads_made self.old }
        ensures end { outcome.now ≡ Ok 0 → (result ≡ Ok ReadGiven.End) × (has_ended self.new ≡ true) }
        ensures bytes { IfOk outcome.now (λ n. 0 < n → result ≡ Ok (ReadGiven.Bytes n)) }
        ensures interrupted { IfErr outcome.now (λ e. error_kind e ≡ ErrorKind.Interrupted → result ≡ Ok ReadGiven.Nothing) }
        ensures failed { IfErr outcome.now (λ e. error_kind e ≢ ErrorKind.Interrupted → (result ≡ Err Fault.Reading) × (has_read_failed self.new ≡ true)) }
        ensures unfailed { OnOk result (has_read_failed self.new ≡ has_read_failed self.old) }
    {
        match outcome {
            Ok(0) => {
                self.ended = true;
                Ok(ReadGiven::End)
            }
            Ok(count) => Ok(ReadGiven::Bytes(*count)),
            Err(error) if error.kind() == ErrorKind::Interrupted => Ok(ReadGiven::Nothing),
            Err(_) => {
                self.failed = true;
                Err(Fault::Reading)
            }
        }
    }
}

/// Whether a write failed, or took no byte.
#[derive(Drop)]
pub struct WriteLog {
    failed: bool,
}

impl WriteLog {
    /// The log before any write.
    pub fn new() -> WriteLog
        ensures { has_write_failed result ≡ false }
    {
        WriteLog { failed: false }
    }

    /// One write, which takes a byte or more at `Ok`. It is tried again while it is interrupted.
    ///
    /// # Errors
    ///
    /// `Writing` where it failed, took no byte, or was interrupted each of 4,294,967,296 times, which is noted. No byte
    /// is written then.
    pub(crate) fn write<W: Write>(&mut self, writer: &mut W, bytes: &[u8]) -> Result<usize, Fault>
        requires { 0 < length bytes.now }
        ensures ok { IfOk result (λ n. (0 < n) × (n ≤ length bytes.now)
            × Appends (W.contents writer.old) (W.contents writer.new) (take n bytes.now)) }
        ensures unfailed { OnOk result (has_write_failed self.new ≡ has_write_failed self.old) }
        ensures err { OnErr result (Appends (W.contents writer.old) (W.contents writer.new) []
            × (has_write_failed self.new ≡ true) × (result ≡ Err Fault.Writing)) }
    {
        for _ in 0..MAX_TRIES {
            let outcome = writer.write(bytes);
            if let Some(count) = self.note(&outcome)? {
                return Ok(count);
            }
        }
        self.failed = true;
        Err(Fault::Writing)
    }

    /// How many bytes a write took, or `None` where it was interrupted. No byte is a fault, and so
    /// is any other error.
    fn note(&mut self, outcome: &io::Result<usize>) -> Result<Option<usize>, Fault>
        ensures taken { IfOk outcome.now (λ n. 0 < n → result ≡ Ok (Some n)) }
        ensures nothing { outcome.now ≡ Ok 0 → (result ≡ Err Fault.Writing)
            × (has_write_failed self.new ≡ true) }
        ensures interrupted { IfErr outcome.now (λ e. error_kind e ≡ ErrorKind.Interrupted
            → result ≡ Ok None) }
        ensures failed { IfErr outcome.now (λ e. error_kind e ≢ ErrorKind.Interrupted
            → (result ≡ Err Fault.Writing) × (has_write_failed self.new ≡ true)) }
        ensures unfailed { OnOk result (has_write_failed self.new ≡ has_write_failed self.old) }
    {
        match outcome {
            Ok(count) if *count > 0 => Ok(Some(*count)),
            Err(error) if error.kind() == ErrorKind::Interrupted => Ok(None),
            Ok(_) | Err(_) => {
                self.failed = true;
                Err(Fault::Writing)
            }
        }
    }
}
