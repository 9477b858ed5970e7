// Files by the program's arguments, or by default names where an argument is left out.
#![tactic(auto)]

pub mod failing; // failing.rt: why a file cannot be opened

ghost use Rattle.std.specs.Prelude.{◌≡◌, ◌≤◌, length, take};
ghost use Rattle.std.specs.Io.KnownBytes.{Consumes};

use std::env::FillError;
use std::io::{ErrorKind, Read};
use std::rt::{Env, Files};
use std::{fs, io, str};

// Room for any path that the system takes; it is fixed, as the programs allocate nothing.
const PATH_ROOM: usize = 4096;

// A line about a file, in two writes: its path, which need not be UTF-8, so that no format takes it, and what is said behind it, to the line's end.
fn print_about(rt: &impl Print, path: &[u8], what: &[u8]) {
    let _ = rt.write_all(path);
    let _ = rt.write_all(what);
}

// A file open for reading. A name that is not UTF-8 is none that can be asked for.
fn opened<R: Files>(rt: &R, path: &[u8]) -> io::Result<R::File> {
    let name = str::from_utf8(path).map_err(|_| io::Error::from(ErrorKind::InvalidInput))?;
    fs::open(rt, name)
}

// Reads until lent room is full, the input ends or a read fails; how many octets stand at its front, which are what the input had first.
pub fn read_full<I: Read>(input: &mut I, room: &mut [u8]) -> usize
    ensures in_bounds { result ≤ length room.new }
    ensures front { Consumes (I.remaining input.old) (I.remaining input.new) (take result room.new) }
{
    let mut done = 0;
    // A read says how far the next one begins, so no range counts the turns.
    while done < room.len() {
        match input.read(&mut room[done..]) {
            Ok(0) | Err(_) => break,
            Ok(n) => done += n,
        }
    }
    done
}

// A file by an argument of the program's, or by its default name where there is none or an empty one.
#[derive(Clone, Copy)]
pub struct Source<'a> {
    pub argument: usize,
    pub name: &'a [u8],
}

impl<'a> Source<'a> {
    // Its path; an argument that is too long gives none.
    fn path<'b>(self, rt: &impl Env, room: &'b mut [u8]) -> Option<&'b [u8]>
    where
        'a: 'b,
    {
        match rt.arg(self.argument, room) {
            Ok(n) if n > 0 => Some(&room[..n]),
            Err(FillError::TooLong) => None,
            _ => Some(self.name),
        }
    }

    // A line about it: what is said behind its path, to the line's end.
    pub fn print_line(self, rt: &(impl Env + Print), what: &[u8]) {
        let mut room = [0u8; PATH_ROOM];
        let path = self.path(rt, &mut room);
        print_about(rt, path.unwrap_or(self.name), what);
    }

    // The file open for reading; one that is not gets its line.
    pub fn open<R: Files + Env + Print>(self, rt: &R) -> Option<R::File> {
        let mut room = [0u8; PATH_ROOM];
        let Some(path) = self.path(rt, &mut room) else {
            print_about(rt, self.name, b": the name given for it is too long\n");
            return None;
        };
        match opened(rt, path) {
            Ok(file) => Some(file),
            Err(error) if error.kind() == ErrorKind::NotFound => {
                print_about(rt, path, b": missing\n");
                None
            }
            Err(_) => {
                print_about(rt, path, b": cannot be opened\n");
                None
            }
        }
    }

    // Whether a file that gave no more octets is at its end, which is all that is asked: a read that fails gives none either, and gets its line.
    pub fn is_at_end(self, rt: &(impl Env + Print), file: &mut impl Read) -> bool {
        // Fixed room, as the programs allocate nothing.
        let mut one = [0u8; 1];
        if file.read(&mut one).is_err() {
            self.print_line(rt, b": cannot be read\n");
            return false;
        }
        true
    }

    // A file as far as lent room goes: how many octets were read, and whether it ended within the room. One that cannot be read gets its line. Handle, file and room
    // are lent apart by the program: the room is filled from the file, and the handle serves both.
    fn fill(self, rt: &(impl Env + Print), file: &mut impl Read, room: &mut [u8]) -> (usize, bool)
        ensures in_bounds { result.0 ≤ length room.new }
        ensures front { result.0 ≡ length (take result.0 room.new) }
    {
        let n = read_full(file, room);
        (n, n < room.len() && self.is_at_end(rt, file))
    }

    // A file as far as lent room goes; how many octets were read. One that cannot be read gets its line.
    pub fn take(self, rt: &(impl Env + Print), mut file: impl Read + Drop, room: &mut [u8]) -> usize
        ensures in_bounds { result ≤ length room.new }
        ensures front { result ≡ length (take result room.new) }
    {
        let (n, _) = self.fill(rt, &mut file, room);
        n
    }

    // A file whole in lent room that has one octet more than such a file may have; how many octets it has. It is closed behind its line.
    pub fn read(self, rt: &(impl Env + Print), mut file: impl Read + Drop, room: &mut [u8]) -> usize
        ensures in_bounds { result ≤ length room.new }
        ensures front { result ≡ length (take result room.new) }
    {
        let (n, ended) = self.fill(rt, &mut file, room);
        if n == room.len() {
            self.print_line(rt, b": too long\n");
        } else if ended && n == 0 {
            self.print_line(rt, b": empty\n");
        }
        n
    }
}
