// planlist: an order on standard input, its listing on standard output. All that matters is `listing::list`.
#![tactic(auto)]

ghost use Rattle.std.specs.Prelude.{◌≡◌, ◌≤◌, length};
ghost use Rattle.listing.specs.Listed.{room};

use std::io;
use std::io::{Print, Read, Stdin};

// One byte more than an order may have: such a file is refused as too long, however long it is.
const MOST_BYTES: usize = 65537;

// A listing of 2,000 rows fits.
const MOST_LINES: usize = 90000;

// Reads until the buffer is full, the input ends or a read fails. The answer is how many bytes came. Not by `read_to_end`:
// that fills a `Vec`, and the program's memory is fixed. The buffer's length is asked for, since `main` has no contract that
// would say it.
fn read_full(input: &mut Stdin, buffer: &mut [u8]) -> usize
    requires { length buffer.old ≡ 65537 }
    ensures { result ≤ length buffer.new }
{
    let mut done = 0;
    while let Ok(n @ 1..) = input.read(&mut buffer[done..]) {
        done += n;
    }
    done
}

// The listing, in a buffer of the length that it asks for: in a shorter one `listing::list` puts nothing.
fn list(file: &[u8], lines: &mut [u8]) -> usize
    requires { length lines.old ≡ room }
    ensures { result ≤ length lines.new }
{
    listing::list(file, lines)
}

fn main(rt: HostRuntime) -> io::Result<()> {
    let mut file = [0; MOST_BYTES];
    let length = read_full(&mut rt.stdin(), &mut file);
    let mut lines = [0; MOST_LINES];
    let end = list(&file[..length], &mut lines);
    rt.stdout().write_all(&lines[..end])
}
