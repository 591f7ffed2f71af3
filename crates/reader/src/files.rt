// What counts as a file (specification 9.1).
ghost use Rattle.std.specs.Prelude.{◌≤◌, ◌-◌, ◌≡◌, IfOk, length};
ghost use Rattle.reader.specs.Files.{IsPrefixLen, counted};

use std::env::Env;
use std::fs::Files;
use std::io::Read;
use std::{fs, io};

// How many bytes of the area count as the file, after a read that followed `done` of them and answered `got`.
fn after_read(area: &[u8], done: usize, got: io::Result<usize>) -> usize
    requires within { done ≤ length area.now }
    requires moved { IfOk got (λ n. n ≤ length area.now - done) }
    ensures counted { result ≡ counted done got }
    ensures within { result ≤ length area.now }
{
    match got {
        Ok(count) => done + count,
        Err(_) => 0,
    }
}

// Reads a file until the area is full or the file ends, and gives how many bytes. A read that fails makes the file empty, whatever was read before it.
pub fn read_whole<R: Read>(file: &mut R, area: &mut [u8]) -> usize
    ensures length { length area.new ≡ length area.old }
    ensures counts { IsPrefixLen result area.new }
{
    let mut done = 0;
    while done < area.len() {
        let got = file.read(&mut area[done..]);
        let next = after_read(area, done, got);
        if next <= done {
            return next;
        }
        done = next;
    }
    done
}

// Reads the start of the file that an argument names, and gives how many bytes. A file that cannot be read, or no such argument, counts as
// empty, and so does a name that is not UTF-8, which std opens no file by. No table or program image has more than 2,561 bytes, so a longer
// file is refused however much more it has.
pub fn read_named<R: Env + Files>(rt: &R, argument: usize, image: &mut [u8]) -> usize
    ensures { IsPrefixLen result image.new }
{
    let mut name = [0u8; 4096];
    let Ok(length) = rt.arg(argument, &mut name) else {
        return 0;
    };
    let Ok(path) = str::from_utf8(&name[..length]) else {
        return 0;
    };
    let Ok(mut file) = fs::open(rt, path) else {
        return 0;
    };
    read_whole(&mut file, image)
}
