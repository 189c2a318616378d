// What a list writes as the words of numbers, floats and marks.
ghost use Rattle.std.specs.Prelude.{◌≡◌};
ghost use Rattle.replay_text.specs.Comparison.{both_of};

use crate::error::ListError;
use crate::tokens::{next_number, next_token};
use float_bits::{bits_of, float_of};
use std::io;
use std::io::BufRead;

pub trait Word: Copy {
    fn of_word(word: u64) -> Self;

    fn word(self) -> u64;
}

impl Word for u64 {
    fn of_word(word: u64) -> u64 {
        word
    }

    fn word(self) -> u64 {
        self
    }
}

// By its bits.
impl Word for f64 {
    fn of_word(word: u64) -> f64 {
        float_of(word)
    }

    fn word(self) -> u64 {
        bits_of(self)
    }
}

// 1 is true.
impl Word for bool {
    fn of_word(word: u64) -> bool {
        word == 1
    }

    fn word(self) -> u64 {
        self as u64
    }
}

// Reads a word for each of the slice.
pub fn read_words<T: Word>(list: &mut impl BufRead, xs: &mut [T]) -> Result<(), ListError> {
    for x in xs {
        *x = T::of_word(next_number(list)?);
    }
    Ok(())
}

// Whether both are the same. None says that the list is malformed, as does either of them.
pub fn both(a: Option<bool>, b: Option<bool>) -> Option<bool>
    ensures { result ≡ both_of a b }
{
    let a = a?;
    let b = b?;
    Some(a && b)
}

// Reads a word for each of the slice, and says whether they are the slice's, or none where one is malformed. The rest
// is read all the same, so that an error of the input is told before the list is called malformed.
pub fn same_words<T: Word>(list: &mut impl BufRead, xs: &[T]) -> io::Result<Option<bool>> {
    let mut same = Some(true);
    for x in xs {
        let word = x.word();
        let number = next_token(list)?.and_then(|t| t.number);
        same = both(same, number.map(|n| n == word));
    }
    Ok(same)
}

// The first of the slice, of which there must be so many.
pub fn first_of<T>(xs: &mut [T], count: usize) -> Result<&mut [T], ListError> {
    xs.get_mut(..count).ok_or(ListError::Malformed)
}
