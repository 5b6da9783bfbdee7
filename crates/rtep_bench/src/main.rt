// Reads a script from standard input and prints what a ring does, frame by frame.
#![tactic(auto)]

ghost use Rattle.std.specs.Prelude.{◌≡◌, ℕ, ◌+◌, ◌≤◌, ◌<◌, IfOk, OnOk};

use bench::running::room_from;
use script::lines::Line;
use script::reading::{Held, feed};
use script::session::{ROOM, Session, obey};
use std::io;
use std::io::Read;

// A script that is being read: its session, the line in hand, and what is still to be written, the first `used` octets of `out`.
// Buffer and end stand side by side: nothing allocates, and what prints lays octets into a lent slice from a place on.
#[derive(Drop)]
struct Script {
    session: Session,
    held: Held,
    out: [u8; 65536],
    used: usize,
    ghost within: { used ≤ 65536 },
}

impl Script {
    fn new() -> Script {
        Script {
            session: None,
            held: Held::none(),
            out: [0; 65536],
            used: 0,
        }
    }

    // What stands in the buffer is written.
    fn flush(&mut self, rt: &impl Print) -> io::Result<()>
        ensures { OnOk result (self.new.used ≡ 0) }
    {
        rt.write_all(&self.out[..self.used])?;
        self.used = 0;
        Ok(())
    }

    // Room for a line; what stands in the buffer is written where it has less.
    fn make_room(&mut self, rt: &impl Print) -> io::Result<()>
        ensures { OnOk result (self.new.used + ROOM ≤ 65536) }
    {
        if room_from(&self.out, self.used) < ROOM {
            self.flush(rt)?;
        }
        Ok(())
    }

    // What one call does of a line, and how many of its steps are left to do.
    fn act(&mut self, rt: &impl Print, line: Option<Line>) -> io::Result<usize>
        ensures { IfOk result (λ left. (count : ℕ) → line ≡ Some (Line.Step count) → 0 < count → left < count) }
    {
        self.make_room(rt)?;
        let acted = obey(&mut self.session, line, &mut self.out, self.used).unwrap();
        self.used = acted.used;
        Ok(acted.left)
    }

    // A line with all of its steps. It counts no index: how many are left, each call says. What is printed is written before the next call.
    fn carry_out(&mut self, rt: &impl Print, line: Option<Line>) -> io::Result<()> {
        let mut left = self.act(rt, line)?;
        while left > 0 {
            self.flush(rt)?;
            left = self.act(rt, Some(Line::Step(left)))?;
        }
        Ok(())
    }

    // The octets of a block.
    fn take_in(&mut self, rt: &impl Print, block: &[u8]) -> io::Result<()> {
        let mut rest = block;
        while let Some(behind) = feed(&mut self.held, rest) {
            let line = self.held.line();
            self.held = Held::none();
            self.carry_out(rt, line)?;
            rest = behind;
        }
        Ok(())
    }

    // The last line may lack its line feed.
    fn end(&mut self, rt: &impl Print) -> io::Result<()> {
        if self.held.len > 0 {
            self.take_in(rt, b"\n")?;
        }
        self.flush(rt)
    }
}

// Where a read fails, the script ends; once all before that is done and printed, the answer is the error.
fn main(rt: HostRuntime) -> io::Result<()> {
    let mut stdin = rt.stdin();
    let mut input = [0u8; 65536];
    let mut script = Script::new();
    let mut ended = Ok(());
    for _ in 0..u64::MAX {
        match stdin.read(&mut input) {
            Ok(0) => break,
            Ok(n) => script.take_in(&rt, &input[..n])?,
            Err(e) => {
                ended = Err(e);
                break;
            }
        }
    }
    script.end(&rt)?;
    ended
}
