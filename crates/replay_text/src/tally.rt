// How many cases of a list were replayed, and how many of them differ.
use crate::error::{ListError, is_malformed};
use crate::tokens::{Token, next_token};
use std::io;
use std::io::BufRead;

// More are not counted: no list has so many.
const MOST_CASES: u64 = 100000000;

// More cases are not read: their number shows it.
const MOST_READ: u64 = 1000000;

pub fn one_more(count: u64) -> u64 {
    count.saturating_add(1).min(MOST_CASES)
}

#[derive(Clone, Copy, Default)]
pub struct Tally {
    pub cases: u64,
    pub differ: u64,
}

impl Tally {
    // One case more. Where it differs its name and number are printed.
    pub fn count(
        &mut self,
        rt: &impl Print,
        name: &str,
        number: u64,
        same: bool,
    ) -> io::Result<()> {
        self.cases = one_more(self.cases);
        if !same {
            self.differ = one_more(self.differ);
            println!(rt; "{name}{number} differs")?;
        }
        Ok(())
    }

    // Prints the counts, with the name of the cases between them.
    pub fn print(&self, rt: &impl Print, name: &str, malformed: bool) -> io::Result<()> {
        println!(rt; "{}{name}{} differ", self.cases, self.differ)?;
        if malformed {
            println!(rt; "the list is malformed")?;
        }
        Ok(())
    }
}

// Replays the cases of a list until it ends. They are numbered from 1 on, and `replay` says of each, by its first token,
// whether it is the same.
fn replay_cases<L: BufRead, F: Fn(&mut L, Token) -> Result<bool, ListError>>(
    rt: &impl Print,
    list: &mut L,
    tally: &mut Tally,
    name: &str,
    replay: F,
) -> Result<(), ListError>
    requires { (f : _) (l : _) (t : _) → F.pre f l t }
{
    for _ in 0..MOST_READ {
        let Some(first) = next_token(list)? else {
            break;
        };
        let same = replay(list, first)?;
        tally.count(rt, name, one_more(tally.cases), same)?;
    }
    Ok(())
}

// Replays the cases of a list, and prints how it went: with the name of a case, and of all.
pub fn replay_list<L: BufRead, F: Fn(&mut L, Token) -> Result<bool, ListError>>(
    rt: &impl Print,
    list: &mut L,
    name: &str,
    names: &str,
    replay: F,
) -> io::Result<()>
    requires { (f : _) (l : _) (t : _) → F.pre f l t }
{
    let mut tally = Tally::default();
    let ended = replay_cases(rt, list, &mut tally, name, replay);
    tally.print(rt, names, is_malformed(ended)?)
}
