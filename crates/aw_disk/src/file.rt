//! The trusted edge: a real file, of which no contract sees the bytes.
ghost use Rattle.std.specs.Prelude.{◌≡◌, ◌≢◌, ◌≤◌, ◌<◌, [], false};
ghost use Rattle.std.specs.Io.{ReadsAtMost};
ghost use Rattle.aw_out.specs.Causes.{Rose};

use crate::edge::{Did, Disk, Size};
use aw_out::Got;
use std::fs::{File, OpenFile, OpenOptions};
use std::io;
use std::io::{Read, Seek, SeekFrom, Write};
use std::os::unix::fs::OpenOptionsExt;
use std::rt::Files;

/// Who may read and write a journal that is made: its owner alone.
const OWNER_ALONE: u32 = 0o600;

/// The file `workspace.journal`, opened at its first call.
#[derive(Drop)]
pub struct FileDisk<'a, R: Files<File = File>> {
    rt: &'a R,
    file: Option<File>,
    faults: u64,
}

impl<'a, R: Files<File = File>> FileDisk<'a, R> {
    pub fn new(rt: &'a R) -> FileDisk<'a, R>
        ensures { ⟦<FileDisk<'static, R> as Disk>⟧.faults result ≡ 0 }
    {
        FileDisk {
            rt,
            file: None,
            faults: 0,
        }
    }
}

/// The journal's file, made where there is none and as it stands where there is one. Nothing of it changes before it is locked.
fn open_locked<R: Files<File = File>>(rt: &R) -> io::Result<File> {
    let mut how = OpenOptions::new();
    how.read(true).write(true).create(true).mode(OWNER_ALONE);
    // A program that is started without one of its standard streams is given that stream's number for the first file that it opens, and would
    // write its answers into it. A clone's number is past theirs.
    let file = how.open(rt, "workspace.journal")?.try_clone()?;
    // Another process that serves this journal holds the lock until it ends, however it ends. Opening the journal would cut what it writes.
    match file.try_lock() {
        Ok(()) => {}
        Err(error) => return Err(io::Error::from(error)),
    }
    // A sync of the file alone need not keep its name.
    let mut look = OpenOptions::new();
    look.read(true);
    look.open(rt, ".")?.sync_all()?;
    Ok(file)
}

fn opened<'b, R: Files<File = File>>(
    rt: &R,
    file: &'b mut Option<File>,
) -> io::Result<&'b mut File> {
    if file.is_none() {
        *file = Some(open_locked(rt)?);
    }
    Ok(file.as_mut().unwrap())
}

fn size_of<R: Files<File = File>>(rt: &R, file: &mut Option<File>) -> io::Result<u64> {
    Ok(opened(rt, file)?.metadata()?.len())
}

fn read_from<R: Files<File = File>>(
    rt: &R,
    file: &mut Option<File>,
    at: u64,
    buf: &mut [u8],
) -> io::Result<usize>
    ensures { ReadsAtMost result buf.new }
{
    let file = opened(rt, file)?;
    file.seek(SeekFrom::Start(at))?;
    file.read(buf)
}

fn write_to<R: Files<File = File>>(
    rt: &R,
    file: &mut Option<File>,
    at: u64,
    b: &[u8],
) -> io::Result<()> {
    let file = opened(rt, file)?;
    file.seek(SeekFrom::Start(at))?;
    file.write_all(b)
}

fn cut_to<R: Files<File = File>>(rt: &R, file: &mut Option<File>, len: u64) -> io::Result<()> {
    opened(rt, file)?.set_len(len)
}

fn sync_of<R: Files<File = File>>(rt: &R, file: &mut Option<File>) -> io::Result<()> {
    opened(rt, file)?.sync_all()
}

fn noted(outcome: io::Result<()>, faults: &mut u64) -> Did
    ensures never_falls { faults.old ≤ faults.new }
    ensures cause { result ≡ Did.Failed → Rose faults.old faults.new }
    ensures kept { result ≢ Did.Failed → faults.new ≡ faults.old }
{
    if outcome.is_ok() {
        return Did::Done;
    }
    *faults = faults.saturating_add(1);
    Did::Failed
}

impl<R: Files<File = File>> Disk for FileDisk<'_, R> {
    ghost tells = { λ _. false };

    ghost seen = { λ _. [] };

    ghost may_leave = { λ _ _. Unit {0} };

    ghost moment = { λ _. 0 };

    ghost left_since = { λ _ _ _. Unit {0} };

    ghost faults = { λ d. d.faults };

    ghost reads_an_outcome = { λ d told. tt };

    ghost counts_now = { λ d t c le now. tt };

    ghost only_now = { λ d c left. tt };

    fn size(&mut self) -> Size {
        match size_of(self.rt, &mut self.file) {
            Ok(n) => Size::Bytes(n),
            Err(_) => {
                self.faults = self.faults.saturating_add(1);
                Size::Failed
            }
        }
    }

    fn read_at(&mut self, at: u64, buf: &mut [u8]) -> Got {
        match read_from(self.rt, &mut self.file, at, buf) {
            Ok(0) => Got::End,
            Ok(n) => Got::Read(n),
            Err(_) => {
                self.faults = self.faults.saturating_add(1);
                Got::Failed
            }
        }
    }

    fn write_at(&mut self, at: u64, b: &[u8]) -> Did {
        let outcome = write_to(self.rt, &mut self.file, at, b);
        noted(outcome, &mut self.faults)
    }

    fn cut(&mut self, len: u64) -> Did {
        let outcome = cut_to(self.rt, &mut self.file, len);
        noted(outcome, &mut self.faults)
    }

    fn sync(&mut self) -> Did {
        let outcome = sync_of(self.rt, &mut self.file);
        noted(outcome, &mut self.faults)
    }
}
