// Reading a script, block by block: the line that is being read.
ghost use Rattle.std.specs.Prelude.{◌≡◌, option_map};
ghost use Rattle.script.specs.Lines.{line_of};
ghost use Rattle.script.specs.Reading.{no_held, kept_of, keep_one, fed_from};

use crate::lines::{Line, line_of};

// What is kept of a line: its first octets, up to 40, and how many those are. No good line is longer than 35. It is `Copy`, and a vector
// of the library's is not.
#[derive(Clone, Copy)]
pub struct Held {
    pub octets: [u8; 40],
    pub len: usize,
}

impl Held {
    pub fn none() -> Held
        ensures { result ≡ no_held }
    {
        Held {
            octets: [0; 40],
            len: 0,
        }
    }

    // One octet more, where it stands.
    fn hold(&mut self, c: u8)
        ensures { self.new ≡ keep_one self.old c }
    {
        let len = self.len;
        if len < 40 {
            self.octets[len] = c;
            self.len = len + 1;
        }
    }

    // One octet more.
    pub fn keep(self, c: u8) -> Held
        ensures { result ≡ keep_one self c }
    {
        let mut held = self;
        held.hold(c);
        held
    }

    // The line that the octets say.
    pub fn line(&self) -> Option<Line>
        ensures { result ≡ line_of (kept_of self.now) }
    {
        line_of(&self.octets[..self.len.min(40)])
    }
}

// Reads on as far as the line's end, and answers what stands behind its line feed; none where that has not come. It is never inlined:
// within a larger function its loop took up to twice the time.
#[inline(never)]
pub fn feed<'a>(held: &mut Held, s: &'a [u8]) -> Option<&'a [u8]>
    ensures held { held.new ≡ (fed_from held.old s.now).held }
    ensures rest { option_map (λ rest. rest.now) result ≡ (fed_from held.old s.now).rest }
{
    let mut rest = s;
    while let Some((c, behind)) = rest.split_first() {
        if *c == b'\n' {
            return Some(behind);
        }
        held.hold(*c);
        rest = behind;
    }
    None
}
