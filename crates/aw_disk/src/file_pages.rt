//! The trusted edge: a real file that is read and never written, of which no contract sees the bytes.
ghost use Rattle.std.specs.Prelude.{◌≡◌, None};
ghost use Rattle.std.specs.Io.{ReadsAtMost};
ghost use Rattle.aw_disk.specs.PagesLaws.{untold};

use crate::pages::Pages;
use aw_out::Got;
use std::fs::{File, Metadata, OpenFile, OpenOptions, metadata};
use std::io;
use std::io::ErrorKind;
use std::os::unix::fs::FileExt;
use std::rt::Files;

/// The last place of a file that the system can name.
const LAST_PLACE: u64 = i64::MAX as u64;

/// A file of a name, opened at its first read, to be read alone. One that is no plain file fails.
#[derive(Drop)]
pub struct FilePages<'a, R: Files<File = File>> {
    rt: &'a R,
    name: &'a str,
    file: Option<File>,
    faults: u64,
}

impl<'a, R: Files<File = File>> FilePages<'a, R> {
    pub fn new(rt: &'a R, name: &'a str) -> FilePages<'a, R>
        ensures { ⟦<FilePages<'static, R> as Pages>⟧.faults result ≡ 0 }
    {
        FilePages {
            rt,
            name,
            file: None,
            faults: 0,
        }
    }
}

fn check_plain(found: &Metadata) -> io::Result<()> {
    if found.is_file() {
        return Ok(());
    }
    Err(io::Error::from(ErrorKind::InvalidInput))
}

/// Opens a plain file to read it. What it is is looked at first, since a queue or a device could wait for ever where it is opened.
fn open_plain<R: Files<File = File>>(rt: &R, name: &str) -> io::Result<File> {
    check_plain(&metadata(rt, name)?)?;
    let mut how = OpenOptions::new();
    how.read(true);
    let file = how.open(rt, name)?;
    check_plain(&file.metadata()?)?;
    Ok(file)
}

fn opened<'b, R: Files<File = File>>(
    rt: &R,
    name: &str,
    file: &'b mut Option<File>,
) -> io::Result<&'b mut File> {
    if file.is_none() {
        *file = Some(open_plain(rt, name)?);
    }
    Ok(file.as_mut().unwrap())
}

fn read_from<R: Files<File = File>>(
    rt: &R,
    name: &str,
    file: &mut Option<File>,
    at: u64,
    buf: &mut [u8],
) -> io::Result<usize>
    ensures { ReadsAtMost result buf.new }
{
    let file = opened(rt, name, file)?;
    if at > LAST_PLACE {
        return Ok(0);
    }
    file.read_at(buf, at)
}

impl<R: Files<File = File>> Pages for FilePages<'_, R> {
    ghost bytes = { λ _. None };

    ghost faults = { λ p. p.faults };

    ghost was_read = { λ _ _. Unit {0} };

    ghost is_file = { λ p b is. absurd (untold b is) };

    ghost unread = { λ p. tt };

    ghost read_on = { λ p q r first next. tt };

    fn read_at(&mut self, at: u64, buf: &mut [u8]) -> Got {
        match read_from(self.rt, self.name, &mut self.file, at, buf) {
            Ok(0) => Got::End,
            Ok(n) => Got::Read(n),
            Err(_) => {
                self.faults = self.faults.saturating_add(1);
                Got::Failed
            }
        }
    }
}
