// Runs a recorded day on the bench: `rtep_replay RINGFILE CAPTURE`.
#![tactic(auto)]

ghost use Rattle.std.specs.Prelude.{◌≤◌, length};

use arrayvec::ArrayVec;
use day::standing::put_end_heading;
use replay::run::{Replay, begin};
use std::env::FillError;
use std::io::Read;
use std::rt::{Env, Files};
use std::str::Utf8Error;
use std::{fmt, fs, io, str};

// Why an argument names no file.
#[derive(Debug, Drop)]
enum BadArgument {
    Missing,
    TooLong,
    NoText(Utf8Error),
}

impl fmt::Display for BadArgument {
    fn fmt<W: fmt::Write>(&self, f: &mut fmt::Formatter<W>) -> fmt::Result {
        match self {
            BadArgument::Missing => write!(f, "Invalid argument"),
            BadArgument::TooLong => write!(f, "File name too long"),
            BadArgument::NoText(e) => write!(f, "{e}"),
        }
    }
}

impl From<FillError> for BadArgument {
    fn from(e: FillError) -> BadArgument {
        match e {
            FillError::NotPresent => BadArgument::Missing,
            FillError::TooLong => BadArgument::TooLong,
        }
    }
}

impl From<Utf8Error> for BadArgument {
    fn from(e: Utf8Error) -> BadArgument {
        BadArgument::NoText(e)
    }
}

// Whether the program was started with an argument of this number; 0 is its own name.
fn is_given(rt: &impl Env, i: usize) -> bool {
    !matches!(rt.arg(i, &mut []), Err(FillError::NotPresent))
}

// The argument of this number, in the lent octets.
fn argument<'a>(rt: &impl Env, i: usize, octets: &'a mut [u8]) -> Result<&'a str, BadArgument> {
    let n = rt.arg(i, octets)?;
    Ok(str::from_utf8(&octets[..n])?)
}

// Reads a file into the lent octets, as far as there is room.
fn read_file<const N: usize>(
    rt: &impl Files,
    path: &str,
    octets: &mut ArrayVec<u8, N>,
) -> io::Result<()> {
    io::copy(&mut fs::open(rt, path)?.take(N as u64), octets)?;
    Ok(())
}

// The octets of the file that an argument names, in the lent ones; none where it cannot be read, and that is said.
fn read_named<'a, R: Env + Files + Eprint, const N: usize>(
    rt: &R,
    i: usize,
    octets: &'a mut ArrayVec<u8, N>,
) -> io::Result<Option<&'a [u8]>> {
    let mut name = [0u8; 4096];
    let path = match argument(rt, i, &mut name) {
        Ok(path) => path,
        Err(e) => {
            eprintln!(rt; "argument: {e}")?;
            return Ok(None);
        }
    };
    match read_file(rt, path, octets) {
        Ok(()) => Ok(Some(octets.as_slice())),
        Err(e) => {
            eprintln!(rt; "{path}: {e}")?;
            Ok(None)
        }
    }
}

// Writes the buffer's first octets: what prints lays them into a lent slice, and no call says that they are more than it has.
fn write(rt: &impl Print, out: &[u8], used: usize) -> io::Result<()> {
    rt.write_all(&out[..used.min(out.len())])
}

// The records, as many at a time as the buffer has room for. Each turn does one at least, of one octet at least.
fn records(
    rt: &impl Print,
    mut replay: Replay,
    capture: &[u8],
    out: &mut [u8],
) -> io::Result<Replay>
    requires { 2048 ≤ length out.old }
{
    for _ in 0..capture.len() {
        if replay.is_over(capture) {
            break;
        }
        let ran = replay.run(capture, out, 0);
        write(rt, out, ran.used)?;
        replay = ran.replay;
    }
    Ok(replay)
}

// The end: a line for each station.
fn stations(rt: &impl Print, replay: Replay, out: &mut [u8]) -> io::Result<()>
    requires { 2048 ≤ length out.old }
{
    let used = put_end_heading(out, 0);
    write(rt, out, used)?;
    for p in 0..parts::live::seats(replay.n) {
        let used = replay.put_station(p, out, 0);
        write(rt, out, used)?;
    }
    Ok(())
}

// A day of a ring that is begun.
fn day(rt: &impl Print, replay: Replay, capture: &[u8]) -> io::Result<()> {
    let mut out = [0u8; 262144];
    let used = replay.put_start(&mut out, 0);
    write(rt, &out, used)?;
    let end = records(rt, replay, capture, &mut out)?;
    stations(rt, end, &mut out)
}

// A refusal of the whole.
fn refuse(rt: &impl Print, number: u32) -> io::Result<()> {
    let mut out = [0u8; 4096];
    let used = bench::text::put_answer(&mut out, 0, number);
    write(rt, &out, used)
}

// Always inlined: its own frame beside that of `main` would stand on the stack above the deepest call.
#[inline(always)]
fn run(rt: &impl Print, file: &[u8], capture: &[u8]) -> io::Result<()> {
    let b = begin(file, capture);
    if b.number != 0 {
        return refuse(rt, b.number);
    }
    day(rt, b.replay, capture)
}

fn main(rt: HostRuntime) -> io::Result<()> {
    if !is_given(&rt, 2) || is_given(&rt, 3) {
        return eprintln!(rt; "usage: rtep_replay RINGFILE CAPTURE");
    }
    let mut ring = ArrayVec::<u8, 4096>::new();
    let Some(file) = read_named(&rt, 1, &mut ring)? else {
        return Ok(());
    };
    let mut day = ArrayVec::<u8, 65536>::new();
    let Some(capture) = read_named(&rt, 2, &mut day)? else {
        return Ok(());
    };
    run(&rt, file, capture)
}
