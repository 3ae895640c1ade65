ghost use Rattle.std.specs.Prelude.{◌≡◌, ◌==◌, Some, position};
ghost use Rattle.console.specs.Grammar.{Spells};
ghost use Rattle.console.specs.Lines.{content, pair_of, single, meaning};

use super::numeral::number;
use planner::change::Change;

// A line as it is read, without the byte 10 that ends it.
pub fn content(line: &[u8]) -> &[u8]
    ensures { result.now ≡ content line.now }
{
    match line {
        [content @ .., b'\n'] => content,
        _ => line,
    }
}

// Where the first space stands.
fn space(bytes: &[u8]) -> Option<usize>
    ensures { result ≡ position (λ b. b == 32) bytes.now }
{
    bytes.iter().position(|&byte| byte == b' ')
}

// A station's place and turnout, with a space between them.
fn station(bytes: &[u8]) -> Option<Change>
    ensures { result ≡ pair_of bytes.now }
{
    let end = space(bytes)?;
    let place = number(&bytes[..end])?;
    let turnout = number(&bytes[end + 1..])?;
    Some(Change::Place { place, turnout })
}

// The call of a letter that takes one number.
fn single(letter: u8, number: u32) -> Option<Change>
    ensures { result ≡ single letter (Some number) }
{
    match letter {
        b'L' => Some(Change::Lift { place: number }),
        b'C' => Some(Change::Close { link: number }),
        b'R' => Some(Change::Reopen { link: number }),
        _ => None,
    }
}

// What a line means.
fn meant(line: &[u8]) -> Option<Change>
    ensures { result ≡ meaning line.now }
{
    match line {
        [b'P', b' ', rest @ ..] => station(rest),
        [letter, b' ', rest @ ..] => single(*letter, number(rest)?),
        _ => None,
    }
}

// The call that a line asks for, if it can be read.
pub fn parse(line: &[u8]) -> Option<Change>
    ensures value { result ≡ meaning line.now }
    ensures spelt { (c : Change) → result ≡ Some c → Spells line.now c }
    ensures reads { (c : Change) → Spells line.now c → result ≡ Some c }
{
    meant(line)
}
