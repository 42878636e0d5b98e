// A file read into a buffer.
ghost use Rattle.std.specs.Prelude.{◌≡◌, ◌≤◌, false, length};
ghost use Rattle.io.specs.Counts.{IsPrefixLen};
ghost use Rattle.swapreport.specs.Files.{succeeded, is_readable, Unread};

use std::fs::File;
use std::io;
use std::io::{Eprint, Read};
use std::rt::Files;

// What the system answered: 0, or -1 where the file could not be opened, and how many bytes a read after the last one gave, -1 where it
// failed. Then by these whether the file could be read, and how many bytes of it stand at the front of the buffer.
#[derive(Clone, Copy)]
pub struct Got {
    pub opened: i32,
    pub last: isize,
    pub readable: bool,
    pub length: usize,
}

// Says on standard error why a file cannot be read; what standard error does not take is lost.
fn say(rt: &impl Eprint, name: &str, error: &io::Error) {
    let _is_said = eprintln!(rt; "{name}: {error}").is_ok();
}

// Reads until the buffer is full, the file ends or a read fails, and answers how many bytes now stand at the buffer's front.
fn read_full<F: Read>(file: &mut F, buf: &mut [u8]) -> usize
    ensures { result ≤ length buf.new }
{
    let mut done = 0;
    // no count by one: a turn goes on by as many bytes as the read gave
    while done < buf.len() {
        match file.read(&mut buf[done..]) {
            Ok(n) if n > 0 => done += n,
            _ => break,
        }
    }
    done
}

// How many bytes one more read gives, at most 1, or -1 where it fails, which is said.
fn read_more<R: Eprint, F: Read>(rt: &R, name: &str, file: &mut F) -> isize {
    let mut more = [0u8; 1];
    match file.read(&mut more) {
        Ok(n) => n as isize,
        Err(error) => {
            say(rt, name, &error);
            -1
        }
    }
}

// Reads a file up to the buffer's length, or says on standard error why it cannot be read. A read after the last one tells a file's end from a
// failure. No contract says what the system answers, so the two answers are free, and so is, once the file is open, what stands in the
// buffer and how many bytes of it count.
pub fn read_file<R: Files + Eprint>(rt: &R, name: &str, buf: &mut [u8]) -> Got
    ensures prefix_len { IsPrefixLen result.length buf.new }
    ensures readable_value { result.readable ≡ is_readable result }
    ensures unread { succeeded result.opened ≡ false → Unread result buf.old buf.new }
{
    let mut file = match File::open(rt, name) {
        Ok(file) => file,
        Err(error) => {
            say(rt, name, &error);
            return Got {
                opened: -1,
                last: -1,
                readable: false,
                length: 0,
            };
        }
    };
    let length = read_full(&mut file, buf);
    let last = read_more(rt, name, &mut file);
    let readable = 0 <= last;
    Got {
        opened: 0,
        last,
        readable,
        length,
    }
}
