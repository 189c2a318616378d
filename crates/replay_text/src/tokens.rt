// The tokens of a list, apart by spaces and line ends.
use crate::digits::{digit_of, with_digit};
use crate::error::ListError;
use std::io;
use std::io::BufRead;

// No token is longer, with what stands before it.
const MOST_BYTES: usize = 1000;

// A number has at most so many digits.
const MOST_DIGITS: usize = 16;

// How long the token is, its last eight bytes as one number, and the number that it writes, if each byte is a
// hexadecimal digit and there are few enough.
#[derive(Clone, Copy)]
pub struct Token {
    pub length: usize,
    pub text: u64,
    pub number: Option<u64>,
}

impl Token {
    const EMPTY: Token = Token {
        length: 0,
        text: 0,
        number: Some(0),
    };

    fn with_byte(self, b: u8) -> Token {
        let number = match self.number {
            Some(n) if self.length < MOST_DIGITS && digit_of(b).is_some() => Some(with_digit(n, b)),
            _ => None,
        };
        Token {
            length: self.length.saturating_add(1),
            text: self.text % 0x100000000000000 * 256 + b as u64,
            number,
        }
    }
}

fn next_byte(list: &mut impl BufRead) -> io::Result<Option<u8>> {
    let byte = list.fill_buf()?.first().copied();
    if byte.is_some() {
        list.consume(1);
    }
    Ok(byte)
}

// None where the list has ended.
pub fn next_token(list: &mut impl BufRead) -> io::Result<Option<Token>> {
    let mut token = None;
    for _ in 0..MOST_BYTES {
        match next_byte(list)? {
            // It ends a token that has begun.
            Some(b' ' | b'\n') => {
                if token.is_some() {
                    break;
                }
            }
            Some(b) => token = Some(token.unwrap_or(Token::EMPTY).with_byte(b)),
            None => break,
        }
    }
    Ok(token)
}

// The next token, which must write a number.
pub fn next_number(list: &mut impl BufRead) -> Result<u64, ListError> {
    next_token(list)?
        .and_then(|t| t.number)
        .ok_or(ListError::Malformed)
}
