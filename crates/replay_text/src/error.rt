// What ends a replay before its list does.
use std::io;

#[derive(Drop)]
pub enum ListError {
    Io(io::Error),
    Malformed,
}

impl From<io::Error> for ListError {
    fn from(e: io::Error) -> ListError {
        ListError::Io(e)
    }
}

// Whether the list is malformed; an error of the input goes on.
pub fn is_malformed(ended: Result<(), ListError>) -> io::Result<bool> {
    match ended {
        Ok(()) => Ok(false),
        Err(ListError::Malformed) => Ok(true),
        Err(ListError::Io(e)) => Err(e),
    }
}
