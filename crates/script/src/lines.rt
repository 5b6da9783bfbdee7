// A script's lines.
ghost use Rattle.std.specs.Prelude.{◌≡◌, true, ℕ, List, ◌∷◌, map};
ghost use Rattle.std.specs.List.{list_all};
ghost use Rattle.std.specs.Str.{all_ascii_digits};
ghost use Rattle.script.specs.Lines.{is_number, value, number_in, line_of_words, line_of};

use arrayvec::ArrayVec;
use parts::request::Request;
use std::str;

// The first words.
const RING: &[u8] = b"ring";

const QUEUE: &[u8] = b"queue";

const STEP: &[u8] = b"step";

// A line of one of the three shapes.
#[derive(Clone, Copy)]
pub enum Line {
    Ring(usize),
    Queue { from: usize, request: Request },
    Step(usize),
}

fn is_digits(word: &[u8]) -> bool
    ensures { result ≡ all_ascii_digits word.now }
{
    word.iter().all(|c| c.is_ascii_digit())
}

// The number that a word is: 1 to 5 digits, at most 65,535.
pub fn number_in(word: &[u8]) -> Option<usize>
    ensures { result ≡ number_in word.now }
{
    if word.len() > 5 || !is_digits(word) {
        return None;
    }
    let digits = str::from_utf8(word).ok()?;
    let number = digits.parse::<u16>().ok()?;
    Some(usize::from(number))
}

// The line of a first word and the numbers behind it.
fn line_with(word: &[u8], numbers: &[usize]) -> Option<Line>
    ensures { (ws : List (List ℕ)) → list_all is_number ws ≡ true → numbers.now ≡ map value ws
        → result ≡ line_of_words (word.now ∷ ws) }
{
    match numbers {
        &[n] if word == RING => Some(Line::Ring(n)),
        &[count] if word == STEP => Some(Line::Step(count)),
        &[from, to, priority, channel, length] if word == QUEUE => {
            let request = Request {
                to,
                priority,
                channel,
                length,
                listens: true,
            };
            Some(Line::Queue { from, request })
        }
        _ => None,
    }
}

// The line that the octets say, where they have one of the three shapes. None has more than five numbers.
pub fn line_of(s: &[u8]) -> Option<Line>
    ensures { result ≡ line_of s.now }
{
    let mut words = s.split(|c| *c == b' ');
    let first = words.next()?;
    let mut numbers = ArrayVec::<usize, 5>::new();
    for word in words {
        numbers.try_push(number_in(word)?).ok()?;
    }
    line_with(first, numbers.as_slice())
}
