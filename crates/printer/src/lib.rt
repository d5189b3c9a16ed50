// The thin part of the program: a file's bytes are read, the report on them is made by proved code, and it is written once. The contracts speak of
// any reader and any writer, as far as it is known what they give and hold; what the system's own do is run from outside.
#![tactic(auto)]

ghost use Rattle.std.specs.Prelude.{length, OnOk};
ghost use Rattle.std.specs.Io.KnownBytes.{Appends};
ghost use Rattle.printer.specs.Filled.{KeptBefore, TakenFrom, ToTheEnd, Within};
ghost use Rattle.printer.specs.Printed.{PrintsFile, Reports, no_file_text};

use arrayvec::ArrayString;
use std::fmt::Write as FormatWrite;
use std::fs::File;
use std::io;
use std::io::{Read, Write};
use std::rt::Files;

// Reads on from a place until the buffer is full or the file ends, and answers how many bytes stand in the buffer then. The bytes before the place stay,
// so pieces stand one after another.
fn fill<R: Read>(file: &mut R, bytes: &mut [u8], at: usize) -> io::Result<usize>
    ensures within { Within at (length bytes.new) result }
    ensures kept_before { KeptBefore at bytes.old bytes.new }
    ensures taken { TakenFrom (R.remaining file.old) (R.remaining file.new) at bytes.new result }
    ensures to_the_end { ToTheEnd (R.remaining file.new) (length bytes.new) result }
{
    let mut end = at;
    while end < bytes.len() {
        let more = file.read(&mut bytes[end..])?;
        if more == 0 {
            return Ok(end);
        }
        end += more;
    }
    Ok(bytes.len())
}

// std puts the number of an error after its words.
fn without_number(text: &str) -> &str {
    match text.split_once(" (os error ") {
        Some((words, _)) => words,
        None => text,
    }
}

fn tell(rt: &impl Eprint, error: io::Error) {
    let mut text = ArrayString::<128>::new();
    let _ = write!(text, "{error}");
    let reason = without_number(text.as_str());
    let _ = eprintln!(rt; "rebatelion: cannot write: {reason}");
}

fn no_file<W: Write>(out: &mut W) -> io::Result<()>
    ensures { OnOk result (Appends (W.contents out.old) (W.contents out.new) no_file_text) }
{
    out.write_all(b"no file\n")
}

// The report has room for the longest text, so it is never refused.
fn print_report<W: Write>(out: &mut W, bytes: &[u8]) -> io::Result<()>
    ensures { OnOk result (Reports bytes.now (W.contents out.old) (W.contents out.new)) }
{
    let mut text = [0u8; 20480];
    match report::report(bytes, &mut text) {
        Ok(length) => out.write_all(&text[..length]),
        Err(_) => unreachable!(),
    }
}

// The longest chart has 3,172 bytes: more are read, so that a longer file is refused as it should be.
fn print_file<R: Read, W: Write>(file: &mut R, out: &mut W) -> io::Result<()>
    ensures { OnOk result (PrintsFile (R.remaining file.old) (W.contents out.old) (W.contents out.new)) }
{
    let mut bytes = [0u8; 4096];
    match fill(file, &mut bytes, 0) {
        Ok(size) => print_report(out, &bytes[..size]),
        Err(_) => no_file(out),
    }
}

// The file of this name, where it can be opened. std opens only a name that is text in UTF-8.
fn open<R: Files>(rt: &R, path: &[u8]) -> Option<R::File> {
    let name = str::from_utf8(path).ok()?;
    File::open(rt, name).ok()
}

// Prints the report on the chart in the file of this name; `no file` where it cannot be opened or read. A text that cannot be written is told on
// standard error.
pub fn run<R: Files + Print + Eprint>(rt: &R, path: &[u8]) {
    let mut out = io::writer(rt);
    let printed = match open(rt, path) {
        Some(mut file) => print_file(&mut file, &mut out),
        None => no_file(&mut out),
    };
    if let Err(error) = printed {
        tell(rt, error);
    }
}
