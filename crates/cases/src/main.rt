// Runs the page's cases that are not in the proved set: the calls of a script on station 0 of a ring of four, R = 1. A line that is a
// call is printed with its answer, any other as it is; of a line its first 40 octets count.
#![tactic(auto)]

use arrayvec::ArrayVec;
use parts::request::Request;
use script::lines::number_in;
use station::station::{Answer, Station};
use std::io;
use std::io::Read;

// The number, and who is newly struck.
fn tell(rt: &impl Print, a: Answer) -> io::Result<Station> {
    let number = a.number;
    print!(rt; " -> {number}")?;
    let struck = a.struck;
    match struck {
        None => {}
        Some(p) => print!(rt; ", struck {p}")?,
    }
    Ok(a.station)
}

// `start` makes the station anew; `queue TO PRIORITY CHANNEL LENGTH` and `timer` go to the one that there is. A number that is not there
// is 0, and a word that is no number is above all that the page allows.
fn obey(rt: &impl Print, s: Station, line: &[u8]) -> io::Result<Station> {
    let mut words = line.split(|c| *c == b' ');
    match words.next() {
        Some(b"start") => tell(rt, Station::new(4, 1, 0).start()),
        Some(b"timer") => tell(rt, s.timer()),
        Some(b"queue") => {
            let mut numbers = [0; 4];
            for (number, word) in numbers.iter_mut().zip(words) {
                *number = number_in(word).unwrap_or(usize::MAX);
            }
            let [to, priority, channel, length] = numbers;
            let request = Request {
                to,
                priority,
                channel,
                length,
                listens: true,
            };
            tell(rt, s.queue(request))
        }
        _ => Ok(s),
    }
}

fn run(rt: &impl Print, script: &[u8]) -> io::Result<()> {
    let mut s = Station::new(4, 1, 0);
    for line in script.split_inclusive(|c| *c == b'\n') {
        let line = line.strip_suffix(b"\n").unwrap_or(line);
        let line = &line[..line.len().min(40)];
        rt.write_all(line)?;
        s = obey(rt, s, line)?;
        rt.write_all(b"\n")?;
    }
    Ok(())
}

fn main(rt: HostRuntime) -> io::Result<()> {
    let mut script = ArrayVec::<u8, 4096>::new();
    io::copy(&mut rt.stdin().take(4096), &mut script)?;
    run(&rt, script.as_slice())
}
