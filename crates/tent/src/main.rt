// The program of the tent: it reads plan.bin, walk.bin and numbers.bin of the folder that it is run in, and prints what `respond` makes of them.
#![tactic(auto)]

ghost use Rattle.std.specs.Prelude.{◌≡◌, ◌<◌, ◌≤◌, true, false, length, take, IfSome, IfOk, IsErr};
ghost use Rattle.std.specs.Counts.{IsPrefixLen};
ghost use Rattle.std.specs.Io.KnownBytes.{Consumes, IsAtEnd};

use respond::respond;
use std::fs::File;
use std::io;
use std::io::{Read, Write};
use std::rt::Files;

// How many bytes a file has, none where it has more than there is room for. Its reading gave `length` bytes, and after that whether one more came. A file
// that cannot be read to its end counts as empty, and so does one that gave a byte more where its end was found before, since it grew in the meantime.
fn taken(length: usize, room: usize, more: io::Result<bool>) -> Option<usize>
    requires { length ≤ room }
    ensures end { more ≡ Ok false → result ≡ Some length }
    ensures longer { more ≡ Ok true → length ≡ room → result ≡ None }
    ensures grown { more ≡ Ok true → length < room → result ≡ Some 0 }
    ensures failed { IsErr more → result ≡ Some 0 }
{
    match more {
        Ok(false) => Some(length),
        Ok(true) if length == room => None,
        Ok(true) | Err(_) => Some(0),
    }
}

// One read may give fewer bytes than there are, so this reads until the buffer is full or the reader ends, and counts what it read. An
// interrupted read is a failed one too. Where a read fails there is no count.
fn fill<R: Read>(reader: &mut R, buffer: &mut [u8]) -> io::Result<usize>
    ensures within { IfOk result (λ n. IsPrefixLen n buffer.new) }
    ensures bytes { IfOk result
        (λ n. Consumes (R.remaining reader.old) (R.remaining reader.new) (take n buffer.new)) }
    ensures end { IfOk result (λ n. n < length buffer.new → IsAtEnd (R.remaining reader.new)) }
{
    let mut done = 0;
    while done < buffer.len() {
        match reader.read(&mut buffer[done..])? {
            0 => return Ok(done),
            n => done += n,
        }
    }
    Ok(done)
}

// Asks for one byte more, which tells a file that just fits from a longer one.
fn has_more<R: Read>(reader: &mut R) -> io::Result<bool>
    ensures byte { result ≡ Ok true → IfSome (R.remaining reader.old) (λ xs. 0 < length xs) }
    ensures end { result ≡ Ok false → IsAtEnd (R.remaining reader.old) }
{
    let mut next = [0u8; 1];
    let n = reader.read(&mut next)?;
    Ok(0 < n)
}

// How many bytes a reader gives, 0 where it cannot be read, none where it has more than there is room for. The last three clauses speak of a reader whose
// bytes are known: they say that those are the bytes in the buffer, and that only of the longer ones there is no count.
fn read_from<R: Read>(reader: &mut R, buffer: &mut [u8]) -> Option<usize>
    ensures within { IfSome result (λ n. IsPrefixLen n buffer.new) }
    ensures longer { result ≡ None
        → IfSome (R.remaining reader.old) (λ xs. (length buffer.new < length xs) × (buffer.new ≡ take (length buffer.new) xs)) }
    ensures bytes { IfSome result (λ n. IfSome (R.remaining reader.old) (λ xs. take n buffer.new ≡ take n xs)) }
    ensures whole { IfSome result (λ n. 0 < n → IfSome (R.remaining reader.old) (λ xs. n ≡ length xs)) }
{
    match fill(reader, buffer) {
        Ok(length) => taken(length, buffer.len(), has_more(reader)),
        Err(_) => Some(0),
    }
}

// How many bytes a file has, 0 where it cannot be opened or read, none where it has more than there is room for. It answers a count, as the library's `read`
// does, and not the part of the buffer: the clauses speak of the buffer that was lent, which a part lent on would have to be told from.
fn read(rt: &impl Files, name: &str, buffer: &mut [u8]) -> Option<usize>
    ensures { IfSome result (λ n. IsPrefixLen n buffer.new) }
{
    match File::open(rt, name) {
        Ok(mut file) => read_from(&mut file, buffer),
        Err(_) => Some(0),
    }
}

fn main(rt: HostRuntime) {
    let mut plan = [0u8; 65536];
    let mut walk = [0u8; 65536];
    let mut numbers = [0u8; 65536];
    let mut tables = [0u8; format::TABLES];
    let mut terms = [0u8; format::TERMS];
    let mut out = [0u8; lines::OUTPUT];
    let p = read(&rt, "plan.bin", &mut plan);
    let w = read(&rt, "walk.bin", &mut walk);
    let n = read(&rt, "numbers.bin", &mut numbers);
    let length = respond(
        &plan[..p.unwrap_or(0)],
        &walk[..w.unwrap_or(0)],
        &numbers[..n.unwrap_or(0)],
        p.is_none() || w.is_none() || n.is_none(),
        &mut tables,
        &mut terms,
        &mut out,
    );
    // The exit status is 0 also where writing fails.
    match rt.stdout().write_all(&out[..length]) {
        Ok(()) | Err(_) => {}
    }
}
